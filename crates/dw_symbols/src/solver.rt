//! A context answers the queries of a pool.

ghost use Rattle.std.specs.Prelude.{◌≡◌, List, ℕ, map};
ghost use Rattle.ticket_core.specs.declared.query.Query.{Query as Asked};
ghost use Rattle.dw_symbols.specs.declared.answer.Answer.{Answer};
ghost use Rattle.dw_symbols.specs.Answer.{answer_shown};
ghost use Rattle.dw_symbols.specs.Told.{told, means, meaning};

use crate::answer::Answer;
use crate::context::Context;
use ticket_core::{NoMemory, Query, Solver};

/// What a query means under the bytes of a file is the file's answer, shown as its record.
impl<'b, 'a> Solver for Context<'b, 'a> {
    type Answer = Answer<'a>;

    ghost shown = { told };

    ghost meaning = { meaning };

    ghost key = { λ context. context.file };

    ghost refused = { λ context. context.refused };

    fn key(&self) -> &[u8] {
        self.bytes()
    }

    fn solve(&mut self, query: Query) -> Result<Answer<'a>, NoMemory> {
        self.find(query)
    }
}

/// An answer shows what its query means only if it is the file's answer:
/// - `one`: as a record, for one query;
/// - `all`: for answers and queries in their order.
pub fn law_of_shown()
    ensures one { (file : List ℕ) (query : Asked) (answer : Answer) → told answer ≡ meaning file query
        → answer_shown answer ≡ means file query }
    ensures all { (file : List ℕ) (queries : List Asked) (answers : List Answer)
        → map told answers ≡ map (meaning file) queries → map answer_shown answers ≡ map (means file) queries }
{}
