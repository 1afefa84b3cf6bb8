//! Which range lists were read, each for an owner.

ghost use Rattle.std.specs.Prelude.{◌≡◌, ◌⊎◌, ℕ, true, ◌∷◌, [], Some, None, OnOk, IfOk, slice_get, replicate};
ghost use Rattle.dw_ranges.specs.ReadLists.{Has};
ghost use Rattle.dw_ranges.specs.Tails.{tail_at};

use crate::range_list::RangeList;
use std::alloc::{AllocError, Global};
use std::collections::BTreeMap;
use std::marker::Model;

/// Range lists that were read, each for an owner. Contracts see them as a list, in no order that
/// matters.
#[derive(Debug, Drop)]
pub struct ReadLists {
    read: BTreeMap<(RangeList, usize), (RangeList, usize)>,
    /// Of each place of .debug_rnglists for which owner a list was read last that begins there and
    /// has this base and this place of addresses; nothing before tails are noted.
    marks: Vec<Option<usize>>,
    base: Option<u64>,
    addr: Option<u64>,
    alloc: Global,
}

impl Model for ReadLists {
    ghost use Rattle.std.specs.Prelude.{List, ℕ};
    ghost use Rattle.dw_ranges.specs.declared.range_list.RangeList.{RangeList};
    ghost use Rattle.dw_ranges.specs.ReadListsInside.{reads_of};

    ghost Value = { List (RangeList × ℕ) };

    ghost view = { reads_of };

    ghost invariant = { λ reads. Unit {0} };
}

/// Whether one that was read is the list, read for the owner.
fn is_same(one: &(RangeList, usize), list: RangeList, owner: usize) -> bool
    ensures { result ≡ true → one.now ≡ (list, owner) }
{
    one.0 == list && one.1 == owner
}

/// `size` places, of which none is marked.
fn no_marks(alloc: Global, size: usize) -> Result<Vec<Option<usize>>, AllocError>
    ensures { IfOk result (λ marks. marks.items ≡ replicate size None) }
{
    let marks = vec![in alloc; None; size]?;
    Ok(marks)
}

/// Marks a place with an owner, where there is one.
fn mark(marks: &mut Vec<Option<usize>>, begin: u64, owner: usize)
    ensures { (k other : ℕ) → slice_get marks.new.items k ≡ Some (Some other)
        → ((begin ≡ k) × (owner ≡ other)) ⊎ (slice_get marks.old.items k ≡ Some (Some other)) }
{
    if begin < marks.len() as u64 {
        marks[begin as usize] = Some(owner);
    }
}

/// Marks places with an owner.
fn mark_all(marks: &mut Vec<Option<usize>>, begins: &[u64], owner: usize)
    ensures { (k other : ℕ) → slice_get marks.new.items k ≡ Some (Some other)
        → (Has begins.now k × (owner ≡ other)) ⊎ (slice_get marks.old.items k ≡ Some (Some other)) }
{
    for begin in begins {
        mark(marks, *begin, owner);
    }
}

/// Whether two bases are the same, or both are none.
pub(crate) fn is_same_base(one: Option<u64>, other: Option<u64>) -> bool
    ensures { result ≡ true → one ≡ other }
{
    one == other
}

impl ReadLists {
    /// None was read yet.
    #[tactic(auto, unfolding(crate::specs::ReadListsInside::marked_from))]
    pub fn new(alloc: Global) -> Self
        ensures { result ≡ [] }
    {
        ReadLists {
            read: BTreeMap::new(alloc),
            marks: Vec::new(alloc),
            base: None,
            addr: None,
            alloc,
        }
    }

    /// Whether the list begins at a place that is marked with the owner.
    #[tactic(auto, using(crate::proofs::MarkLemmas::tail_steps))]
    #[inline(always)]
    pub(crate) fn has_tail(&self, list: RangeList, owner: usize) -> bool
        ensures { result ≡ true → Has self.now (list, owner) }
    {
        if list.begin >= self.marks.len() as u64 {
            return false;
        }
        let Some(other) = self.marks[list.begin as usize] else {
            return false;
        };
        other == owner && is_same_base(self.base, list.base) && is_same_base(self.addr, list.addr)
    }

    /// Whether the list was read for the owner.
    #[tactic(auto, using(crate::proofs::ReadLemmas::has_looked, crate::proofs::ReadLemmas::has_front))]
    pub fn has(&self, list: RangeList, owner: usize) -> bool
        ensures noted { result ≡ true → Has self.now (list, owner) }
    {
        if self.has_tail(list, owner) {
            return true;
        }
        let Some(read) = self.read.get(&(list, owner)) else {
            return false;
        };
        is_same(read, list, owner)
    }

    /// Notes that the list was read for the owner.
    #[tactic(auto, using(crate::proofs::ReadLemmas::note_steps))]
    pub fn note(&mut self, list: RangeList, owner: usize) -> Result<(), AllocError>
        ensures { OnOk result ((read : _) → Has self.new read → Has ((list, owner) ∷ self.old) read) }
    {
        self.read.insert((list, owner), (list, owner))?;
        Ok(())
    }

    /// Makes room for marks, where there is none.
    #[tactic(auto, using(crate::proofs::MarkLemmas::fresh))]
    fn begin_tails(&mut self, list: RangeList, size: usize) -> Result<(), AllocError>
        ensures { OnOk result ((read : _) → Has self.new read → Has self.old read) }
    {
        if !self.marks.is_empty() {
            return Ok(());
        }
        self.marks = no_marks(self.alloc, size)?;
        self.base = list.base;
        self.addr = list.addr;
        Ok(())
    }

    /// Notes that lists were read for the owner that begin at these places of .debug_rnglists,
    /// which has so many bytes, with the base and the place of addresses that a list has.
    pub fn note_tails(
        &mut self,
        list: RangeList,
        owner: usize,
        begins: &[u64],
        size: usize,
    ) -> Result<(), AllocError>
        ensures { OnOk result ((read : _) → Has self.new read
            → ((begin : ℕ) × Has begins.now begin × (read ≡ (tail_at list begin, owner))) ⊎ Has self.old read) }
    {
        self.begin_tails(list, size)?;
        if !is_same_base(self.base, list.base) {
            return Ok(());
        }
        if !is_same_base(self.addr, list.addr) {
            return Ok(());
        }
        mark_all(&mut self.marks, begins, owner);
        Ok(())
    }
}
