//! Ranges with their owners, as far as they matter in a window of addresses.

ghost use Rattle.std.specs.Prelude.{◌≡◌, ◌≤◌, ◌<◌, ◌++◌, ◌∷◌, [], ℕ, true, false, IfOk, List, OnOk, map};
ghost use Rattle.dw_model.specs.Ranges as model;
ghost use Rattle.dw_model.specs.Steady.{last_address};
ghost use Rattle.dw_index.specs.Range.{range_shown};
ghost use Rattle.dw_ranges.specs.declared.window.draft.Draft.{Draft};
ghost use Rattle.dw_ranges.specs.ListIndex.{listed_from};
ghost use Rattle.dw_ranges.specs.Owned.{owned};
ghost use Rattle.dw_ranges.specs.Window.{AreKnown, ArePieces, HasOwners, PiecesTo};

use super::lesser;
use crate::list_index::{ListIndex, Near, Stretch};
use dw_index::{Index, Range};
use std::alloc::{AllocError, Global};

/// Ranges with their owners, as far as they matter in a window of addresses. Where there are too
/// many they become pieces, each with the least owner of its addresses, and the window ends where
/// there are too many of these.
#[derive(Drop)]
pub(crate) struct Draft {
    pub(crate) from: u64,
    pub(crate) until: u64,
    pub(crate) pairs: Vec<(Range, usize)>,
    /// The owners that were found when there were too many ranges: no address gets a greater one.
    pub(crate) known: Index,
    /// How many pieces there are at most when there were too many ranges.
    most: usize,
    alloc: Global,
}

/// Adds the piece of an index that begins at an address, where it has an owner, and returns where
/// it ends: before the end of the window, or there.
#[tactic(auto, using(crate::proofs::WindowLemmas::piece_added))]
fn push_piece(
    index: &Index,
    at: u64,
    until: u64,
    near: &mut usize,
    pairs: &mut Vec<(Range, usize)>,
) -> Result<u64, AllocError>
    requires { at < until }
    ensures some { IfOk result (λ next. at < next) }
    ensures within { IfOk result (λ next. next ≤ until) }
    ensures pieces { IfOk result (λ next. (from : ℕ) → ArePieces index.now from at pairs.old.items
        → ArePieces index.now from next pairs.new.items) }
{
    let found = index.find_from(at, near);
    let next = lesser(found.until, until);
    let Some(owner) = found.owner else {
        return Ok(next);
    };
    let piece = Range {
        begin: at,
        end: next,
    };
    pairs.push((piece, owner))?;
    Ok(next)
}

/// Adds the first pieces of an index, from an address on, and returns where they end: before the
/// end of the window, or there. There is one at least, and at most one more than `most`.
#[tactic(auto, using(crate::proofs::WindowLemmas::no_pieces))]
fn push_pieces(
    index: &Index,
    from: u64,
    until: u64,
    most: usize,
    pairs: &mut Vec<(Range, usize)>,
) -> Result<u64, AllocError>
    requires some { from < until }
    requires none { pairs.old.items ≡ [] }
    ensures some { IfOk result (λ at. from < at) }
    ensures within { IfOk result (λ at. at ≤ until) }
    ensures pieces { IfOk result (λ at. ArePieces index.now from at pairs.new.items) }
{
    let mut near = 0;
    let mut at = push_piece(index, from, until, &mut near, pairs)?;
    for _ in 0..most {
        if at >= until {
            return Ok(at);
        }
        at = push_piece(index, at, until, &mut near, pairs)?;
    }
    Ok(at)
}

impl Draft {
    /// No range was added for the window that begins at an address and ends at another, or where
    /// there are too many pieces.
    pub(crate) fn new(alloc: Global, from: u64, until: u64, most: usize) -> Result<Self, AllocError>
        ensures { IfOk result (λ draft. from < until → HasOwners [] from draft) }
    {
        Ok(Draft {
            from,
            until,
            pairs: Vec::new(alloc),
            known: Index::build(alloc, &[])?,
            most,
            alloc,
        })
    }

    /// Makes pieces of the ranges, and lets the window end where these are too many.
    fn narrow(&mut self) -> Result<(), AllocError>
        ensures { OnOk result ((all : List (model.Range × ℕ)) (from : ℕ) → HasOwners all from self.old
            → HasOwners all from self.new) }
    {
        if self.from >= self.until {
            return Ok(());
        }
        let index = Index::build(self.alloc, &self.pairs)?;
        self.pairs.clear();
        self.until = push_pieces(&index, self.from, self.until, self.most, &mut self.pairs)?;
        self.known = index;
        Ok(())
    }

    /// Whether all addresses from one on and below another are known to have one owner, no greater
    /// than this.
    fn is_known(&self, begin: u64, end: u64, owner: usize) -> bool
        requires { begin < end }
        ensures { result ≡ true → AreKnown self.now begin end owner }
    {
        let found = self.known.find_from(begin, &mut 0);
        match found.owner {
            Some(first) => first <= owner && end <= found.until,
            None => false,
        }
    }

    /// Makes room for a range.
    fn make_room(&mut self) -> Result<(), AllocError>
        ensures { OnOk result ((all : List (model.Range × ℕ)) (from : ℕ) → HasOwners all from self.old
            → HasOwners all from self.new) }
    {
        if self.pairs.len() / 2 <= self.most {
            return Ok(());
        }
        self.narrow()
    }

    /// Adds a range, where it has addresses of the window.
    #[tactic(auto, using(crate::proofs::WindowLemmas::push_steps), unfolding(dw_index::specs::Owners::least_owner))]
    fn push(&mut self, range: Range, owner: usize) -> Result<(), AllocError>
        ensures { OnOk result ((all : List (model.Range × ℕ)) (from : ℕ) → HasOwners all from self.old
            → HasOwners (all ++ (range_shown range, owner) ∷ []) from self.new) }
    {
        let begin = range.begin.max(self.from);
        let end = range.end.min(self.until);
        if begin >= end {
            return Ok(());
        }
        if self.is_known(begin, end, owner) {
            return Ok(());
        }
        self.make_room()?;
        self.pairs.push((range, owner))?;
        Ok(())
    }

    /// Adds ranges that have one owner.
    pub(crate) fn add(&mut self, ranges: &[Range], owner: usize) -> Result<(), AllocError>
        ensures { OnOk result ((all : List (model.Range × ℕ)) (from : ℕ) → HasOwners all from self.old
            → HasOwners (all ++ map (λ range. (range, owner)) (map range_shown ranges.now)) from self.new) }
    {
        for range in ranges {
            self.push(*range, owner)?;
        }
        Ok(())
    }

    /// Adds the piece of a list with an index that begins at an address, from a base, where the
    /// list holds it, and returns where it ends.
    #[tactic(auto, using(crate::proofs::WindowLemmas::piece_passed))]
    fn add_piece(
        &mut self,
        index: &ListIndex<'_>,
        base: Option<u64>,
        owner: usize,
        begin: u64,
        near: &mut Near,
    ) -> Result<u64, AllocError>
        requires { begin < last_address }
        ensures above { IfOk result (λ end. begin < end) }
        ensures pieces { IfOk result (λ end. (old : Draft)
            → PiecesTo (listed_from index.now base) owner begin old self.old
            → PiecesTo (listed_from index.now base) owner end old self.new) }
    {
        let Stretch {
            is_held,
            until: end,
        } = index.holds_from(base, begin, near);
        if is_held {
            self.push(Range { begin, end }, owner)?;
        }
        Ok(end)
    }

    /// An address is before the end of the window.
    fn reaches(&self, a: u64) -> bool
        ensures address { result ≡ true → a < last_address }
        ensures end { result ≡ false → self.now.until ≤ a }
    {
        a < self.until
    }

    /// Adds the ranges in the window of a list that has an index, from a base.
    pub(crate) fn add_indexed(
        &mut self,
        index: &ListIndex<'_>,
        base: Option<u64>,
        owner: usize,
    ) -> Result<(), AllocError>
        ensures { OnOk result ((all : List (model.Range × ℕ)) (from : ℕ) → HasOwners all from self.old
            → HasOwners (all ++ owned (listed_from index.now base) owner) from self.new) }
    {
        let mut near = Near::default();
        let mut begin = self.from;
        while self.reaches(begin) {
            begin = self.add_piece(index, base, owner, begin, &mut near)?;
        }
        Ok(())
    }
}
