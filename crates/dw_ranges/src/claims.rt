//! Ranges that owners claim, while they are gathered, under a bound.

ghost use Rattle.std.specs.Prelude.{◌≡◌, ◌≤◌, ◌+◌, ◌++◌, [], None, IfSome, OnOk, length, map};
ghost use Rattle.dw_model.specs.Text.{Tables as ModelTables};
ghost use Rattle.dw_index.specs.Range.{pair_shown, range_shown};
ghost use Rattle.dw_ranges.specs.Claims.{Adds, AddsListed, all_claims, claims_in, held_ranges, size_of};
ghost use Rattle.dw_ranges.specs.Owned.{owned};

use crate::held::{HeldList, Listed};
use crate::linked::push_linked;
use crate::links::{Grouped, Links};
use crate::list_indexes::ListIndexes;
use crate::range_list::RangeList;
use dw_index::Range;
use std::alloc::{AllocError, Global};
use std::marker::Model;

/// Ranges that owners claim in groups. Of lists with more than one range only so many ranges are
/// kept; the lists beyond are held. Contracts see the ranges that are kept, the lists that
/// are held, and how many ranges of lists may still be kept.
#[derive(Drop)]
pub struct Claims<'a> {
    /// The ranges in group 0, with their owners.
    pub(crate) first: Vec<(Range, usize)>,
    /// Those in groups from 1 on, of which the first is 0 here.
    pub(crate) others: Links<(Range, usize)>,
    pub(crate) held: Vec<Grouped<HeldList<'a>>>,
    room: usize,
}

impl<'a> Model for Claims<'a> {
    ghost use Rattle.dw_ranges.specs.Claims.{ClaimsState};
    ghost use Rattle.dw_ranges.specs.ClaimsInside.{claims_of};

    ghost Value = { ClaimsState };

    ghost view = { claims_of };

    ghost invariant = { λ claims. Unit {0} };
}

/// Adds ranges of one owner.
fn push_ranges(
    pairs: &mut Vec<(Range, usize)>,
    ranges: &[Range],
    owner: usize,
) -> Result<(), AllocError>
    ensures pushed { OnOk result (map pair_shown pairs.new.items
        ≡ map pair_shown pairs.old.items ++ owned (map range_shown ranges.now) owner) }
    ensures few { length pairs.new.items ≤ length pairs.old.items + length ranges.now }
{
    for range in ranges {
        pairs.push((*range, owner))?;
    }
    Ok(())
}

impl<'a> Claims<'a> {
    /// None yet, and of lists so many ranges may be kept.
    pub fn new(alloc: Global, room: usize) -> Self
        ensures { result ≡ record { kept = []; held = []; room = room } }
    {
        Claims {
            first: Vec::new(alloc),
            others: Links::new(alloc),
            held: Vec::new(alloc),
            room,
        }
    }

    /// Keeps ranges of an owner.
    #[tactic(auto, using(crate::proofs::ClaimLemmas::adds_first, crate::proofs::ClaimLemmas::adds_other))]
    #[inline(always)]
    fn keep(&mut self, group: usize, ranges: &[Range], owner: usize) -> Result<(), AllocError>
        ensures held { self.new.held ≡ self.old.held }
        ensures room { self.new.room ≡ self.old.room }
        ensures kept { OnOk result (Adds group (map range_shown ranges.now) owner self.old.kept self.new.kept) }
        ensures few { length self.new.kept ≤ length self.old.kept + length ranges.now }
    {
        if group == 0 {
            push_ranges(&mut self.first, ranges, owner)?;
            return Ok(());
        }
        push_linked(&mut self.others, group - 1, ranges, owner)?;
        Ok(())
    }

    /// Holds a list of an owner, which claims its ranges in a group.
    #[tactic(auto, using(crate::proofs::ClaimLemmas::held_push, std::proofs::lemmas::List::append_assoc))]
    pub fn hold(&mut self, group: usize, list: Listed<'a>, owner: usize) -> Result<(), AllocError>
        ensures kept { self.new.kept ≡ self.old.kept }
        ensures room { self.new.room ≡ self.old.room }
        ensures few { length self.new.held ≤ length self.old.held + 1 }
        ensures claims { OnOk result ((tables : ModelTables) → all_claims tables self.new
            ≡ all_claims tables self.old ++ claims_in group (owned (held_ranges tables list.entry) owner)) }
    {
        let item = HeldList { list, owner };
        self.held.push(Grouped { group, item })?;
        Ok(())
    }

    /// An owner claims ranges in a group: those of a list, the first of them, or one range at most.
    /// The list is held where there are more than may still be kept. One range takes no more than a
    /// list that is held, so it is always kept.
    #[tactic(auto, using(crate::proofs::ClaimLemmas::adds_all))]
    #[inline(always)]
    pub fn add(
        &mut self,
        group: usize,
        ranges: &[Range],
        owner: usize,
        list: Option<RangeList>,
        indexes: &mut ListIndexes<'a>,
    ) -> Result<(), AllocError>
        requires one { list ≡ None → length ranges.now ≤ 1 }
        ensures tables { indexes.new ≡ indexes.old }
        ensures few { size_of self.new + self.new.room ≤ size_of self.old + self.old.room + 1 }
        ensures claims { OnOk result
            (AddsListed indexes.old group (map range_shown ranges.now) owner list self.old self.new) }
    {
        let Some(list) = list else {
            return self.keep(group, ranges, owner);
        };
        if ranges.len() <= 1 {
            return self.keep(group, ranges, owner);
        }
        if ranges.len() > self.room {
            return self.hold(group, indexes.make(list)?, owner);
        }
        self.room -= ranges.len();
        self.keep(group, ranges, owner)
    }

    /// How many ranges are kept, and lists are held; `None` where there are more than a `usize`
    /// counts, which no memory holds.
    pub(crate) fn size(&self) -> Option<usize>
        ensures { IfSome result (λ size. size ≡ size_of self.now) }
    {
        let ranges = self.first.len() + self.others.len();
        ranges.checked_add(self.held.len())
    }
}
