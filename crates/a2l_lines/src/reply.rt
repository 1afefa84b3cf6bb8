//! The reply to a query: the lines that are written for it.

ghost use Rattle.std.specs.Prelude.{◌≡◌, IfOk};
ghost use Rattle.dw_symbols.specs.Answer.{answer_shown};
ghost use Rattle.a2l_lines.specs.Reply.{reply_parts, reply_to};
ghost use Rattle.a2l_lines.specs.Text.{options_shown};

use crate::options::Options;
use crate::text::push_query;
use dw_symbols::Answer;
use std::alloc::{AllocError, Global};
use std::mem;
use ticket_core::Query;

/// The lines of a query, and whether its answer is a fault.
#[derive(Debug, Drop)]
pub struct Reply {
    pub lines: Vec<u8>,
    pub is_fault: bool,
}

/// Up to how many bytes a text is copied. A longer one is handed over with its buffer.
const SHORT: usize = 4096;

/// Takes a text out of the buffer in which it was made. A copy takes no more memory than it has
/// bytes, and the next text finds the buffer as large as it is.
fn take(alloc: Global, buffer: &mut Vec<u8>) -> Result<Vec<u8>, AllocError>
    ensures { IfOk result (λ text. text.items ≡ buffer.old.items) }
{
    if buffer.len() <= SHORT {
        return buffer.to_vec(alloc);
    }
    Ok(mem::replace(buffer, Vec::new(alloc)))
}

impl Reply {
    /// The reply to a query, by its answer. The lines are made in a buffer that the next ones find.
    pub fn of(
        alloc: Global,
        buffer: &mut Vec<u8>,
        options: &Options<'_>,
        query: Query,
        answer: &Answer<'_>,
    ) -> Result<Self, AllocError>
        ensures { IfOk result (λ reply. reply_parts reply
            ≡ reply_to (options_shown options.now) query (answer_shown answer.now)) }
    {
        buffer.clear();
        push_query(alloc, buffer, options, query, answer)?;
        let lines = take(alloc, buffer)?;
        let is_fault = match answer {
            Answer::Fault { .. } => true,
            _ => false,
        };
        Ok(Reply { lines, is_fault })
    }
}
