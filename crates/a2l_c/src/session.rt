//! What a handle holds: an open file, and what was asked of it last.

ghost use Rattle.std.specs.Prelude.{◌≡◌, [], ◌∷◌, None, Some, OnOk, IfOk, IfErr, IfSome, IsNone, map};
ghost use Rattle.std.specs.Prelude.{option_map};
ghost use Rattle.std.specs.Prelude.{slice_get};
ghost use Rattle.dw_model.specs.Answer as model;
ghost use Rattle.dw_model.specs.Pieces.{pieces};
ghost use Rattle.dw_model.specs.Refusal.{refusal};
ghost use Rattle.dw_elf.specs.OpenFault.{RefusesUnlessMemory};
ghost use Rattle.dw_symbols.specs.Answer.{answer_shown};
ghost use Rattle.a2l_c.specs.Question.{answers_to};

use crate::question::Question;
use dw_elf::OpenFault;
use dw_symbols::{Answer, Context, Image};
use std::alloc::{AllocError, Global};
use std::marker::Model;
use std::num::NonZeroUsize;
use std::sync::Arc;

/// A context over an open file, which others may share, and the answers of the last question. The
/// context keeps what it reads of units from one question to the next. Contracts see the bytes of
/// the file and the answers.
#[derive(Drop)]
pub(crate) struct Session {
    alloc: Global,
    context: Context<'static, 'static>,
    answers: Vec<Answer<'static>>,
}

impl Model for Session {
    ghost use Rattle.a2l_c.specs.SessionState.{SessionState, session_code};
    ghost use Rattle.a2l_c.specs.Session.{state_of};

    ghost Value = { SessionState };

    ghost coded = { session_code };

    ghost view = { state_of };
}

/// What addresses mean, in their order: their frames, or why their units can't be read.
fn frames_of(
    alloc: Global,
    context: &mut Context<'static, 'static>,
    addresses: &[u64],
) -> Result<Vec<Answer<'static>>, AllocError>
    ensures answers { IfOk result (λ answers. map answer_shown answers.items
        ≡ map (model.answer context.old.file) addresses.now) }
    ensures file { context.new.file ≡ context.old.file }
{
    let mut answers = Vec::new(alloc);
    for a in addresses {
        let answer = context.find_frames(*a)?;
        answers.push(answer)?;
    }
    Ok(answers)
}

/// Where addresses come from, in their order, by the line tables of their units alone.
fn locations_of(
    alloc: Global,
    context: &mut Context<'static, 'static>,
    addresses: &[u64],
) -> Result<Vec<Answer<'static>>, AllocError>
    ensures answers { IfOk result (λ answers. map answer_shown answers.items
        ≡ map (model.location context.old.file) addresses.now) }
    ensures file { context.new.file ≡ context.old.file }
{
    let mut answers = Vec::new(alloc);
    for a in addresses {
        let answer = context.find_location(*a)?;
        answers.push(answer)?;
    }
    Ok(answers)
}

/// The pieces of a span, as the one answer of a list.
fn pieces_of(
    alloc: Global,
    context: &mut Context<'static, 'static>,
    low: u64,
    high: u64,
) -> Result<Vec<Answer<'static>>, AllocError>
    ensures answers { IfOk result (λ answers. map answer_shown answers.items
        ≡ pieces context.old.file low high ∷ []) }
    ensures file { context.new.file ≡ context.old.file }
{
    let answer = context.find_location_range(low, high)?;
    Ok(vec![in alloc; answer]?)
}

/// The answers of a question, in the order in which it asks.
fn answers_of(
    alloc: Global,
    context: &mut Context<'static, 'static>,
    question: Question<'_>,
) -> Result<Vec<Answer<'static>>, AllocError>
    ensures answers { IfOk result (λ answers. map answer_shown answers.items
        ≡ answers_to question.entry context.old.file) }
    ensures file { context.new.file ≡ context.old.file }
{
    match question {
        Question::Frames(addresses) => frames_of(alloc, context, addresses),
        Question::Locations(addresses) => locations_of(alloc, context, addresses),
        Question::Pieces { low, high } => pieces_of(alloc, context, low, high),
    }
}

impl Session {
    /// Opens a file. It keeps the functions of as many units as the capacity says, and line tables
    /// that together are no longer than .debug_line: those that were asked for last. Nothing was
    /// asked yet.
    pub(crate) fn open(
        alloc: Global,
        file: &'static [u8],
        capacity: NonZeroUsize,
    ) -> Result<Session, OpenFault>
        ensures opened { IfOk result (λ session. session ≡ record { file = file.now; answers = [] }) }
        ensures accepted { OnOk result (refusal file.now ≡ None) }
        ensures refused { IfErr result (λ fault. RefusesUnlessMemory fault (refusal file.now)) }
    {
        let image = Arc::new(alloc, Image::open(alloc, file)?)?;
        let context = Context::sharing(alloc, image, capacity)?;
        let answers = Vec::new(alloc);
        Ok(Session {
            alloc,
            context,
            answers,
        })
    }

    /// A second session over the same file, which keeps units of its own. Nothing was asked of it
    /// yet.
    pub(crate) fn beside(&self, capacity: NonZeroUsize) -> Result<Session, AllocError>
        ensures { IfOk result (λ session. session ≡ record { file = self.now.file; answers = [] }) }
    {
        let context = self.context.beside(capacity)?;
        let answers = Vec::new(self.alloc);
        Ok(Session {
            alloc: self.alloc,
            context,
            answers,
        })
    }

    /// Asks a question. Out of memory changes nothing.
    pub(crate) fn ask(&mut self, question: Question<'_>) -> Result<(), AllocError>
        ensures found { OnOk result (self.new.answers ≡ answers_to question.entry self.old.file) }
        ensures file { self.new.file ≡ self.old.file }
        ensures refused { IfErr result (λ _. self.new ≡ self.old) }
    {
        self.answers = answers_of(self.alloc, &mut self.context, question)?;
        Ok(())
    }

    /// The answers of the last question, in the order of what was asked.
    pub(crate) fn answers(&self) -> &[Answer<'static>]
        ensures { map answer_shown result.now ≡ self.now.answers }
    {
        &self.answers
    }
}
