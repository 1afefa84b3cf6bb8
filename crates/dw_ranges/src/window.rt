//! Who owns the addresses of a window, of owners whose lists are held.

ghost use Rattle.std.specs.Prelude.{◌≡◌, ◌≤◌, ◌<◌, ◌++◌, ℕ, List, IfOk, OnOk, map, reverse};
ghost use Rattle.dw_model.specs.Ranges as model;
ghost use Rattle.dw_model.specs.Steady.{last_address};
ghost use Rattle.dw_forms.specs.Tables.{tables_shown};
ghost use Rattle.dw_index.specs.Range.{range_shown};
ghost use Rattle.dw_ranges.specs.Claims.{list_claims};
ghost use Rattle.dw_ranges.specs.Held.{listed};
ghost use Rattle.dw_ranges.specs.Window.{HasAddress, HasOwners, IsWindow};

mod draft;
mod end;

use crate::fault::RangeFault;
use crate::held::{HeldList, Listed};
use crate::links::Links;
use crate::range_list::{RangeList, read_list};
use draft::Draft;
use dw_forms::Tables;
use dw_index::{Index, Range};
use end::end_of;
use std::alloc::{AllocError, Global};

/// Who owns each address from one on and below another, of the owners in group 0 whose lists are
/// held. So whoever goes from border to border asks the lists once for each window, and not once
/// for each border.
#[derive(Drop)]
pub struct Window {
    pub(crate) from: u64,
    pub(crate) until: u64,
    /// The ranges of the lists in the window, with their owners.
    pub(crate) index: Index,
    /// Where the last searches ended, in `index` and in the one of the ranges that are kept. No
    /// promise rests on them.
    pub(crate) near: usize,
    pub(crate) near_kept: usize,
}

/// How many pieces a window has at most when there were too many ranges for it: one for eight bytes
/// of .debug_rnglists, and four for each unit. So it takes memory in proportion to the file.
fn most_pieces(held: &Links<HeldList<'_>>, tables: &Tables<'_>) -> usize {
    let of_lists = tables.rnglists.len() / 8;
    of_lists.saturating_add(held.len().saturating_mul(4))
}

/// The lesser of two addresses.
pub(crate) fn lesser(a: u64, b: u64) -> u64
    ensures first { result ≤ a }
    ensures second { result ≤ b }
    ensures above { (c : ℕ) → c < a → c < b → c < result }
{
    if a <= b { a } else { b }
}

/// Reads the ranges of a list into `ranges`, reusing its memory: none where the list can't be read.
fn read_listed(
    ranges: &mut Vec<Range>,
    list: RangeList,
    tables: &Tables<'_>,
) -> Result<(), AllocError>
    ensures { OnOk result (map range_shown ranges.new.items ≡ listed (tables_shown tables.now) list) }
{
    match read_list(ranges, list, tables) {
        Ok(_) => Ok(()),
        Err(RangeFault::Memory) => Err(AllocError),
        Err(RangeFault::Bad) => {
            ranges.clear();
            Ok(())
        }
    }
}

/// Adds the ranges of a list that is held, which are read into `ranges` where it has no index.
fn add_held(
    draft: &mut Draft,
    ranges: &mut Vec<Range>,
    held: &HeldList<'_>,
    tables: &Tables<'_>,
) -> Result<(), AllocError>
    ensures { OnOk result ((all : List (model.Range × ℕ)) (from : ℕ) → HasOwners all from draft.old
        → HasOwners (all ++ list_claims (tables_shown tables.now) held.now) from draft.new) }
{
    match &held.list {
        Listed::Indexed(index, base) => draft.add_indexed(index, *base, held.owner),
        Listed::Named(list) => {
            read_listed(ranges, *list, tables)?;
            draft.add(ranges, held.owner)
        }
    }
}

impl Window {
    /// A window without addresses.
    pub fn none(alloc: Global) -> Result<Self, AllocError>
        ensures { IfOk result (λ window. window.until ≡ 0) }
    {
        let index = Index::build(alloc, &[])?;
        Ok(Window {
            from: 0,
            until: 0,
            index,
            near: 0,
            near_kept: 0,
        })
    }

    /// The window that begins at an address, after one that had so many addresses.
    fn read(
        alloc: Global,
        held: &Links<HeldList<'_>>,
        tables: &Tables<'_>,
        from: u64,
        width: u64,
    ) -> Result<Self, AllocError>
        requires { from < last_address }
        ensures address { IfOk result (λ window. HasAddress window from) }
        ensures window { IfOk result (IsWindow (tables_shown tables.now) (reverse held.now)) }
    {
        let most = most_pieces(held, tables);
        let until = end_of(held, most, from, width);
        let mut draft = Draft::new(alloc, from, until, most)?;
        let mut ranges = Vec::new(alloc);
        for one in held.back(0) {
            add_held(&mut draft, &mut ranges, one, tables)?;
        }
        let index = Index::build(alloc, &draft.pairs)?;
        Ok(Window {
            from,
            until: draft.until,
            index,
            near: 0,
            near_kept: 0,
        })
    }

    /// Turns to an address: to the window that begins there, where this one hasn't the address.
    pub(crate) fn turn_to(
        &mut self,
        alloc: Global,
        held: &Links<HeldList<'_>>,
        tables: &Tables<'_>,
        a: u64,
    ) -> Result<(), AllocError>
        requires address { a < last_address }
        requires window { IsWindow (tables_shown tables.now) (reverse held.now) self.old }
        ensures address { OnOk result (HasAddress self.new a) }
        ensures window { IsWindow (tables_shown tables.now) (reverse held.now) self.new }
    {
        if self.from <= a && a < self.until {
            return Ok(());
        }
        let width = self.until.saturating_sub(self.from);
        *self = Window::read(alloc, held, tables, a, width)?;
        Ok(())
    }
}
