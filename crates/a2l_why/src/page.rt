//! Reports in lines of text.

ghost use Rattle.std.specs.Prelude.{OnOk, IfOk, map, []};
ghost use Rattle.a2l_lines.specs.Input.{word_shown};
ghost use Rattle.a2l_why.specs.Page.{AddsReport, AddsReports};
ghost use Rattle.a2l_why.specs.Told.{lines_told};

use crate::told::Told;
use a2l_findings::{Allocated, Note};
use std::alloc::Global;

/// Adds a note: its sentence after a mark, and below it what to do.
fn push_note(text: &mut Vec<u8>, note: &Note<'_>) -> Allocated<()> {
    text.extend_from_slice(b"- ")?;
    note.push_sentence(text)?;
    if let Some(remedy) = note.remedy {
        text.extend_from_slice(b"\n  do: ")?;
        text.extend_from_slice(remedy.as_bytes())?;
    }
    text.extend_from_slice(b"\n")
}

/// Adds notes, each below the one before.
fn push_notes(text: &mut Vec<u8>, notes: &[Note<'_>]) -> Allocated<()> {
    for note in notes {
        push_note(text, note)?;
    }
    Ok(())
}

/// The page of a refused file.
pub(crate) fn of_refusal(alloc: Global, note: &Note<'_>) -> Allocated<Vec<u8>> {
    let mut text = Vec::new(alloc);
    push_note(&mut text, note)?;
    Ok(text)
}

/// The page of a file: how many units it has, and its findings; one line where there are none.
pub(crate) fn of_file(alloc: Global, units: &Note<'_>, notes: &[Note<'_>]) -> Allocated<Vec<u8>> {
    let mut text = Vec::new(alloc);
    if notes.is_empty() {
        text.extend_from_slice(b"no findings in ")?;
    }
    units.push_sentence(&mut text)?;
    text.push(b'\n')?;
    push_notes(&mut text, notes)?;
    Ok(text)
}

/// Adds the report on a text: the text, the steps, and the lines that `a2l -f -i` writes.
fn push_told(alloc: Global, text: &mut Vec<u8>, word: &str, told: &Told<'_>) -> Allocated<()>
    ensures { OnOk result (AddsReport word.now (lines_told told.now) text.old.items text.new.items) }
{
    let mut steps = Vec::new(alloc);
    push_notes(&mut steps, &told.way.steps)?;
    text.extend_from_slice(word.as_bytes())?;
    text.extend_from_slice(b":\n")?;
    text.extend_from_slice(&steps)?;
    text.extend_from_slice(&told.lines)?;
    Ok(())
}

/// The page of some texts, with the report on each.
pub(crate) fn of_words(alloc: Global, words: &[&str], tolds: &[Told<'_>]) -> Allocated<Vec<u8>>
    ensures { IfOk result (λ text. AddsReports (map word_shown words.now) (map lines_told tolds.now) [] text.items) }
{
    let mut text = Vec::new(alloc);
    for i in 0..words.len() {
        let Some(word) = words.get(i) else {
            return Ok(text);
        };
        let Some(told) = tolds.get(i) else {
            return Ok(text);
        };
        push_told(alloc, &mut text, word, told)?;
    }
    Ok(text)
}
