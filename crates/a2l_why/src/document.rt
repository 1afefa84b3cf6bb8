//! Reports as documents of JSON.

ghost use Rattle.std.specs.Prelude.{◌≡◌, [], IfOk, OnOk, codes, map};
ghost use Rattle.serde_json.specs.Data.{string, put as with_member};
ghost use Rattle.serde_json.specs.View.{view, members_view};
ghost use Rattle.a2l_lines.specs.Input.{word_shown};
ghost use Rattle.a2l_why.specs.Document.{AddsReportValues, IsDocument, IsTextOf, IsReportOn};
ghost use Rattle.a2l_why.specs.Told.{lines_told};

use crate::told::Told;
use a2l_findings::{Allocated, Fact, Note, Reason, digits_of};
use dw_symbols::{Answer, Frame, Location, Piece};
use serde_json::{Map, Value, put};
use std::alloc::Global;
use std::mem;

/// An object of a document, to which members are added by their names.
#[derive(Drop)]
struct Object {
    alloc: Global,
    members: Map<String, Value>,
}

impl Object {
    /// An object without members.
    fn new(alloc: Global) -> Self {
        Object {
            alloc,
            members: Map::new(alloc),
        }
    }

    /// Adds a member.
    fn put(&mut self, name: &str, value: Value) -> Allocated<()>
        ensures { OnOk result (members_view self.new.members.entries
            ≡ with_member name.now (view value) (members_view self.old.members.entries)) }
    {
        put(&mut self.members, self.alloc, name, value)
    }

    /// Adds a fact, where there is one.
    fn tell(&mut self, name: &str, fact: Fact<'_>) -> Allocated<()> {
        let alloc = self.alloc;
        let value = match fact {
            Fact::Nothing | Fact::Fault(_) => return Ok(()),
            Fact::Reason(reason) => reason_value(alloc, reason)?,
            Fact::Count(count) | Fact::Unsaid(count) => Value::from(count),
            Fact::Place(place) => Value::String(format!(in alloc; "0x{place:x}")?),
            Fact::Text(text) => Value::String(String::from_utf8_lossy(alloc, text)?),
            Fact::Bytes(bytes) => Value::String(digits_of(alloc, bytes)?),
            Fact::Words(words) => Value::try_from_str(alloc, words)?,
        };
        self.put(name, value)
    }

    /// Adds the members of something, which has an object of its own if it has a name.
    fn put_group(&mut self, name: &str, group: Object) -> Allocated<()> {
        if !name.is_empty() {
            return self.put(name, Value::Object(group.members));
        }
        for (name, value) in group.members {
            self.members.insert(name, value)?;
        }
        Ok(())
    }

    /// Adds the facts of a note.
    fn put_facts(&mut self, note: &Note<'_>) -> Allocated<()> {
        let mut name = "";
        let mut group = Object::new(self.alloc);
        for part in note.parts.as_slice() {
            if part.name.is_empty() {
                continue;
            }
            if part.group != name {
                let whole = mem::replace(&mut group, Object::new(self.alloc));
                self.put_group(name, whole)?;
                name = part.group;
            }
            group.tell(part.name, part.fact)?;
        }
        self.put_group(name, group)
    }

    /// Adds a location: what of it is known.
    fn put_location(&mut self, location: &Location) -> Allocated<()> {
        if let Some(path) = &location.path {
            self.tell("path", Fact::Text(path))?;
        }
        self.tell("line", Fact::count(location.line))?;
        self.tell("column", Fact::count(location.column))
    }

    /// Adds an answer, where there is one.
    fn put_answer(&mut self, answer: &Option<Answer<'_>>) -> Allocated<()> {
        let Some(answer) = answer else {
            return Ok(());
        };
        match answer {
            Answer::NotCovered => Ok(()),
            Answer::Fault { unit, code } => {
                self.tell("unit", Fact::Place(*unit))?;
                self.tell("fault", Fact::Count(u64::from(code.number())))
            }
            Answer::Found { unit, frames } => {
                self.tell("unit", Fact::Place(*unit))?;
                let frames = frames_value(self.alloc, frames)?;
                self.put("frames", frames)
            }
            Answer::Pieces(pieces) => {
                let pieces = pieces_value(self.alloc, pieces)?;
                self.put("pieces", pieces)
            }
        }
    }

    /// The document of it with its status, and the end of the line.
    fn finish(mut self, status: &str) -> Allocated<Vec<u8>>
        ensures { IfOk result (λ text. IsTextOf (with_member (codes "status") (string status.now)
            (members_view self.members.entries)) text.items) }
    {
        let alloc = self.alloc;
        self.put("status", Value::try_from_str(alloc, status)?)?;
        let written = Value::Object(self.members).to_string(alloc)?;
        let mut text = Vec::from_slice(alloc, written.as_bytes())?;
        text.push(b'\n')?;
        Ok(text)
    }
}

/// Why something can't be read.
fn reason_value(alloc: Global, reason: Reason) -> Allocated<Value> {
    let place = format!(in alloc; "{}", reason.spot)?;
    let field = format!(in alloc; "{}", reason.field)?;
    let found = format!(in alloc; "{}", reason.found)?;
    let wanted = format!(in alloc; "{}", reason.wanted)?;
    let mut object = Object::new(alloc);
    object.put("place", Value::String(place))?;
    object.put("field", Value::String(field))?;
    object.put("found", Value::String(found))?;
    object.put("wanted", Value::String(wanted))?;
    Ok(Value::Object(object.members))
}

/// A note: its kind, its facts, its sentence and what to do.
fn note_value(alloc: Global, note: &Note<'_>) -> Allocated<Value> {
    let mut sentence = Vec::new(alloc);
    note.push_sentence(&mut sentence)?;
    let mut object = Object::new(alloc);
    object.tell("kind", Fact::Words(note.kind))?;
    object.tell("text", Fact::Text(&sentence))?;
    if let Some(remedy) = note.remedy {
        object.tell("remedy", Fact::Words(remedy))?;
    }
    object.put_facts(note)?;
    Ok(Value::Object(object.members))
}

/// Notes, in order.
fn notes_value(alloc: Global, notes: &[Note<'_>]) -> Allocated<Value> {
    let mut list = Vec::new(alloc);
    for note in notes {
        list.push(note_value(alloc, note)?)?;
    }
    Ok(Value::Array(list))
}

/// Frames, innermost first.
fn frames_value(alloc: Global, frames: &[Frame<'_>]) -> Allocated<Value> {
    let mut list = Vec::new(alloc);
    for frame in frames {
        let mut object = Object::new(alloc);
        object.tell("function", Fact::text(frame.name))?;
        object.put_location(&frame.location)?;
        list.push(Value::Object(object.members))?;
    }
    Ok(Value::Array(list))
}

/// The pieces of a span.
fn pieces_value(alloc: Global, pieces: &[Piece]) -> Allocated<Value> {
    let mut list = Vec::new(alloc);
    for piece in pieces {
        let mut object = Object::new(alloc);
        object.tell("begin", Fact::Place(piece.begin))?;
        object.tell("end", Fact::Place(piece.end))?;
        object.put_location(&piece.location)?;
        list.push(Value::Object(object.members))?;
    }
    Ok(Value::Array(list))
}

/// The report on a text.
fn told_value(alloc: Global, word: &str, told: &Told<'_>) -> Allocated<Value>
    ensures { IfOk result (λ value. IsReportOn word.now (lines_told told.now) (view value)) }
{
    let mut object = Object::new(alloc);
    object.put("way", notes_value(alloc, &told.way.steps)?)?;
    object.put_answer(&told.answer)?;
    let lines = String::from_utf8_lossy(alloc, &told.lines)?;
    object.put("asked", Value::try_from_str(alloc, word)?)?;
    object.put("lines", Value::String(lines))?;
    Ok(Value::Object(object.members))
}

/// The reports on some texts.
fn told_values(alloc: Global, words: &[&str], tolds: &[Told<'_>]) -> Allocated<Vec<Value>>
    ensures { IfOk result (λ values.
        AddsReportValues (map word_shown words.now) (map lines_told tolds.now) [] (map view values.items)) }
{
    let mut list = Vec::new(alloc);
    for i in 0..words.len() {
        let Some(word) = words.get(i) else {
            return Ok(list);
        };
        let Some(told) = tolds.get(i) else {
            return Ok(list);
        };
        list.push(told_value(alloc, word, told)?)?;
    }
    Ok(list)
}

/// The document of a refused file.
pub(crate) fn of_refusal(alloc: Global, note: &Note<'_>) -> Allocated<Vec<u8>> {
    let mut object = Object::new(alloc);
    object.put("refusal", note_value(alloc, note)?)?;
    object.finish("refused")
}

/// The document of a file.
pub(crate) fn of_file(alloc: Global, units: &Note<'_>, notes: &[Note<'_>]) -> Allocated<Vec<u8>> {
    let mut object = Object::new(alloc);
    object.put("units", note_value(alloc, units)?)?;
    object.put("findings", notes_value(alloc, notes)?)?;
    let is_clean = notes.is_empty();
    object.finish(if is_clean { "clean" } else { "findings" })
}

/// The document of some texts, with the report on each.
pub(crate) fn of_words(
    alloc: Global,
    words: &[&str],
    tolds: &[Told<'_>],
    is_clean: bool,
) -> Allocated<Vec<u8>>
    ensures { IfOk result (λ text. IsDocument (map word_shown words.now) (map lines_told tolds.now) text.items) }
{
    let list = told_values(alloc, words, tolds)?;
    let mut object = Object::new(alloc);
    object.put("asked", Value::Array(list))?;
    let text = object.finish(if is_clean { "clean" } else { "findings" })?;
    Ok(text)
}
