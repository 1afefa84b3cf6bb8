//! A report on a file, or on what texts ask of it: a page to read, or a document for programs.

ghost use Rattle.std.specs.Prelude.{◌≡◌, IfOk, if◌then◌else◌, map};
ghost use Rattle.std.specs.List.{list_all};
ghost use Rattle.dw_model.specs.Refusal.{refusal};
ghost use Rattle.a2l_lines.specs.Input.{word_shown};
ghost use Rattle.a2l_why.specs.Report.{IsOutcome, IsTextIn, TellsAll, TellsRefusal};
ghost use Rattle.a2l_why.specs.Told.{answer_of_word, answer_told, is_answered, lines_of, lines_told};
ghost use Rattle.a2l_why.specs.declared.report.Outcome.TheVariants.{Clean, Findings, Refused};

use crate::findings::{Progress, findings_of};
use crate::notes::census_note;
use crate::told::{Told, tell_words};
use crate::{document, page};
use a2l_findings::{Allocated, Fact, Note, Words, refusal_reason};
use dw_elf::OpenFault;
use dw_symbols::Answer;
use std::alloc::{AllocError, Global};

/// How a report is written.
#[derive(Clone, Copy, Debug, PartialEq, Eq)]
pub enum Form {
    /// In lines of text.
    Page,
    /// As one document, of JSON.
    Document,
}

/// What a report comes to.
#[derive(Clone, Copy, Debug, PartialEq, Eq)]
pub enum Outcome {
    /// Nothing was found in the file, or each address is answered.
    Clean,
    /// There are findings, or some address isn't answered.
    Findings,
    /// The file is refused.
    Refused(OpenFault),
}

/// A report, and what it comes to.
#[derive(Debug, Drop)]
pub struct Report {
    pub text: Vec<u8>,
    pub outcome: Outcome,
}

/// What to do about a refusal.
fn remedy_of(fault: OpenFault) -> Words {
    match fault {
        OpenFault::NotElf => "name the linked program or shared library itself",
        OpenFault::NotElf64Little =>
            "build it for a 64-bit little-endian machine, or ask another tool",
        OpenFault::Relocatable => "link it first, as by `cc FILE -o PROGRAM`, and ask the program",
        OpenFault::SectionTable | OpenFault::SectionRange(_) => {
            "copy the file again, since it is cut or damaged"
        }
        OpenFault::Compressed(_) =>
            "run `objcopy --decompress-debug-sections FILE NEW`, and ask the new file",
        OpenFault::UnitHeader(_) | OpenFault::Root(_) | OpenFault::RootRanges(_) => {
            "build the file again, since its debug information is damaged or isn't of the standard; `readelf \
             --debug-dump=info` shows it"
        }
        OpenFault::AddressSize(_) => "build it for a 64-bit machine, or ask another tool",
        OpenFault::Memory => "give the program more memory",
    }
}

/// The note on a refused file: how `a2l` refuses it, the reason, and what to do.
fn refusal_note<'a>(alloc: Global, file: &[u8], fault: OpenFault) -> Allocated<Note<'a>> {
    let mut note = Note::new(alloc, "refused");
    note.count("refused, ", "number", u64::from(fault.number()))?;
    note.tell(" ", "name", Fact::Words(fault.name()))?;
    note.tell(": ", "", Fact::Fault(fault))?;
    note.reason("; ", refusal_reason(alloc, file, fault)?)?;
    note.remedy = Some(remedy_of(fault));
    Ok(note)
}

/// The report on a file that is refused.
fn refused(alloc: Global, file: &[u8], fault: OpenFault, form: Form) -> Allocated<Report>
    ensures { IfOk result (λ report. report.outcome ≡ Refused fault) }
{
    let note = refusal_note(alloc, file, fault)?;
    let text = match form {
        Form::Page => page::of_refusal(alloc, &note)?,
        Form::Document => document::of_refusal(alloc, &note)?,
    };
    let outcome = Outcome::Refused(fault);
    Ok(Report { text, outcome })
}

/// What a report comes to that has findings, or none.
fn outcome_of(is_clean: bool) -> Outcome
    ensures { result ≡ (if is_clean then Clean else Findings) }
{
    if is_clean {
        return Outcome::Clean;
    }
    Outcome::Findings
}

/// The report on a file: a page of findings, with what to do about each. It is refused exactly as
/// `a2l` refuses it.
pub fn report_on_file<P: Progress>(
    alloc: Global,
    file: &[u8],
    form: Form,
    progress: &mut P,
) -> Allocated<Report>
    ensures { IfOk result (λ report. TellsRefusal report.outcome (refusal file.now)) }
{
    let findings = match findings_of(alloc, file, progress) {
        Ok(findings) => findings,
        Err(OpenFault::Memory) => return Err(AllocError),
        Err(fault) => return refused(alloc, file, fault, form),
    };
    let units = census_note(alloc, &findings.census)?;
    let text = match form {
        Form::Page => page::of_file(alloc, &units, &findings.notes)?,
        Form::Document => document::of_file(alloc, &units, &findings.notes)?,
    };
    let outcome = outcome_of(findings.notes.is_empty());
    Ok(Report { text, outcome })
}

/// A text asks for something that is answered: it has frames or pieces.
fn is_answered(told: &Told<'_>) -> bool
    ensures { result ≡ is_answered (answer_told told.now) }
{
    match &told.answer {
        Some(Answer::Found { .. }) => true,
        Some(Answer::Pieces(pieces)) => !pieces.is_empty(),
        _ => false,
    }
}

/// Each of some texts asks for something that is answered.
fn are_answered(tolds: &[Told<'_>]) -> bool
    ensures { result ≡ list_all is_answered (map answer_told tolds.now) }
{
    let mut all = true;
    for told in tolds {
        all = all && is_answered(told);
    }
    all
}

/// The text of the reports on some texts, in a form.
fn text_of_words(
    alloc: Global,
    words: &[&str],
    tolds: &[Told<'_>],
    is_clean: bool,
    form: Form,
) -> Allocated<Vec<u8>>
    ensures { IfOk result (λ text. IsTextIn form (map word_shown words.now) (map lines_told tolds.now) text.items) }
{
    match form {
        Form::Page => page::of_words(alloc, words, tolds),
        Form::Document => document::of_words(alloc, words, tolds, is_clean),
    }
}

/// The report on what texts ask of a file, in their order: the way of each to its answer, and its
/// answer as `a2l` has it. It is refused exactly as `a2l` refuses it.
pub fn report_on_words(alloc: Global, file: &[u8], words: &[&str], form: Form) -> Allocated<Report>
    ensures outcome { IfOk result (λ report. IsOutcome report.outcome (refusal file.now)
        (map (answer_of_word file.now) (map word_shown words.now))) }
    ensures told { IfOk result (λ report. TellsAll report.outcome form (map word_shown words.now)
        (map (lines_of file.now) (map word_shown words.now)) report.text.items) }
{
    let tolds = match tell_words(alloc, file, words) {
        Ok(tolds) => tolds,
        Err(OpenFault::Memory) => return Err(AllocError),
        Err(fault) => return refused(alloc, file, fault, form),
    };
    let is_clean = are_answered(&tolds);
    let text = text_of_words(alloc, words, &tolds, is_clean, form)?;
    let outcome = outcome_of(is_clean);
    Ok(Report { text, outcome })
}
