//! Who replies to queries: a solver whose answers are the lines that are written. So each worker
//! makes the text of what it answers, and frees the answer where it made it.

ghost use Rattle.std.specs.Prelude.{◌≡◌, ◌+◌, false, IfOk, is_ok, if◌then◌else◌};
ghost use Rattle.dw_model.specs.Output as model;
ghost use Rattle.a2l_lines.specs.Reply.{reply_shown, meant_reply};
ghost use Rattle.a2l_lines.specs.Text.{options_shown};

use crate::contexts::Contexts;
use crate::options::Options;
use crate::reply::Reply;
use dw_symbols::{Context, Refusals};
use std::alloc::{AllocError, Global};
use std::marker::{Brand, PhantomData};
use ticket_board::Maker;
use ticket_core::{NoMemory, Query, Solver};

/// The options of a run, for contracts alone.
pub trait Style {
    ghost options: { model.Options };
}

impl Style for Brand {
    ghost options = { record { functions = false; inlines = false; addresses = false } };
}

/// A context, and the options by which it reports what it finds.
#[derive(Drop)]
pub struct Replier<'b, 'a, 'o, O: Style> {
    context: Context<'b, 'a>,
    alloc: Global,
    options: &'o Options<'o>,
    /// Where lines are made.
    buffer: Vec<u8>,
    refusals: Refusals,
    style: PhantomData<O>,
    ghost by: { options_shown options.now ≡ O.options },
}

impl<O: Style> Replier<'_, '_, '_, O> {
    /// The reply to a query.
    fn reply(&mut self, query: Query) -> Result<Reply, AllocError>
        ensures reply { IfOk result (λ reply. reply_shown reply ≡ meant_reply O.options self.old.context.file query) }
        ensures file { self.new.context.file ≡ self.old.context.file }
        ensures refusals { self.new.refusals.count ≡ self.old.refusals.count }
    {
        let answer = self.context.solve(query)?;
        Reply::of(self.alloc, &mut self.buffer, self.options, query, &answer)
    }
}

impl<O: Style> Solver for Replier<'_, '_, '_, O> {
    type Answer = Reply;

    ghost shown = { reply_shown };

    ghost meaning = { meant_reply O.options };

    ghost key = { λ replier. replier.context.file };

    ghost refused = { λ replier. replier.refusals.count };

    fn key(&self) -> &[u8] {
        self.context.key()
    }

    fn solve(&mut self, query: Query) -> Result<Reply, NoMemory> {
        let reply = self.reply(query);
        if reply.is_err() {
            self.refusals = self.refusals.then();
        }
        reply
    }
}

/// Makes the repliers of a run, all over one image.
#[derive(Drop)]
pub struct Repliers<'b, 'a, 'o, O: Style> {
    pub contexts: Contexts<'b, 'a>,
    pub options: &'o Options<'o>,
    pub style: PhantomData<O>,
    ghost by: { options_shown options.now ≡ O.options },
}

impl<'b, 'a, 'o, O: Style> Maker<Replier<'b, 'a, 'o, O>> for Repliers<'b, 'a, 'o, O> {
    ghost key = { λ repliers. repliers.contexts.image.now };

    fn key(&self) -> &[u8] {
        self.contexts.key()
    }

    fn make(&self, alloc: Global) -> Result<Replier<'b, 'a, 'o, O>, NoMemory> {
        Ok(Replier {
            context: self.contexts.make(alloc)?,
            alloc,
            options: self.options,
            buffer: Vec::new(alloc),
            refusals: Refusals::new(),
            style: PhantomData,
        })
    }
}
