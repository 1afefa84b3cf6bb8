//! Going through the rows of a span of addresses.

ghost use Rattle.std.specs.Prelude.{◌≡◌, ◌≤◌, ◌<◌, ℕ, None, IfSome};
ghost use Rattle.dw_model.specs.Steady.{last_address};
ghost use Rattle.dw_line.specs.Border.{OwnerEnds, IsBorder};
ghost use Rattle.dw_line.specs.Sequences.{IsOwner};
ghost use Rattle.dw_line.specs.Walked.{IsStretch, walked_to};

use crate::lines::Lines;
use crate::rows::Row;
use crate::search::Last;
use crate::sequences::Owner;
use std::marker::{Brand, Model};
use std::sync::ledger::Blank;

/// Addresses that one row has, or that no row has: from `begin` on, and below `end`.
#[derive(Clone, Copy, Debug, PartialEq, Eq)]
pub struct Stretch {
    pub begin: u64,
    pub end: u64,
    pub row: Option<Row>,
}

/// Goes through a span of addresses of a line table, from one stretch to the next. Rows are run on
/// from the row before; only where another sequence begins they are run anew from one of its
/// checkpoints. Contracts see the table, the address that comes next, and the end of the span.
#[derive(Debug, Drop)]
pub struct Walk<'b, 'a> {
    lines: &'b Lines<'a>,
    at: u64,
    high: u64,
    /// The sequence that holds the addresses from `at` on, as far as it is known.
    owner: Owner,
    /// The row that was found last.
    last: Option<Last>,
}

impl<'b, 'a> Model for Walk<'b, 'a> {
    ghost use Rattle.dw_line.specs.Walked.{Walked};
    ghost use Rattle.dw_line.specs.WalkInside.{walk_shown, IsWalk};

    ghost Value = { Walked };

    ghost view = { walk_shown };

    ghost invariant = { IsWalk };
}

/// The lesser of two addresses.
fn lesser(a: u64, b: u64) -> u64
    ensures first { result ≤ a }
    ensures second { result ≤ b }
    ensures above { (c : ℕ) → c < a → c < b → c < result }
{
    if a <= b { a } else { b }
}

/// The sequence that holds the addresses from `at` on: the one that is given, as long as it holds
/// `at`, else the one that is looked up.
fn owner_from(lines: &Lines<'_>, owner: Owner, at: u64) -> Owner
    requires at { at < last_address }
    requires owner { IsOwner lines.now.rows owner.number at owner.until }
    requires border { at < owner.until → OwnerEnds lines.now.rows owner.number owner.until }
    ensures after { at < result.until }
    ensures owner { IsOwner lines.now.rows result.number at result.until }
    ensures border { OwnerEnds lines.now.rows result.number result.until }
{
    if at < owner.until {
        return owner;
    }
    lines.owner_from(at)
}

impl<'b, 'a> Walk<'b, 'a> {
    /// Before the first stretch.
    pub(crate) fn new(lines: &'b Lines<'a>, low: u64, high: u64) -> Self
        ensures table { result.table ≡ lines.now }
        ensures span { (result.at ≡ low) × (result.high ≡ high) }
    {
        Walk {
            lines,
            at: low,
            high,
            owner: Owner {
                number: None,
                until: low,
            },
            last: None,
        }
    }

    /// The next stretch; `None` at the end of the span. It ends where the span does, where a row
    /// begins, or where another sequence holds the addresses, or none. Neighbours may have the same
    /// row.
    pub fn next(&mut self) -> Option<Stretch>
        ensures stretch { IfSome result (IsStretch self.old.table.rows self.old.at self.old.high) }
        ensures border { IfSome result (λ stretch. stretch.end < self.old.high
            → IsBorder self.old.table.rows self.old.at stretch.end) }
        ensures moved { IfSome result (λ stretch. self.new ≡ walked_to stretch.end self.old) }
        ensures ended { result ≡ None → self.old.high ≤ self.old.at }
        ensures stays { result ≡ None → self.new ≡ self.old }
    {
        let begin = self.at;
        if begin >= self.high {
            return None;
        }
        self.owner = owner_from(self.lines, self.owner, begin);
        let end = lesser(self.owner.until, self.high);
        let Some(number) = self.owner.number else {
            self.at = end;
            let row = None;
            return Some(Stretch { begin, end, row });
        };
        let found = self
            .lines
            .row_uncounted::<Brand>(number, &self.last, begin, Blank::new(1));
        let end = lesser(found.reached.next.registers.address, end);
        let row = Some(found.reached.told());
        self.at = end;
        self.last = Some(found);
        Some(Stretch { begin, end, row })
    }
}
