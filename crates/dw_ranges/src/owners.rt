//! Who owns an address, of the ranges that owners claim: by an index of the ranges that are kept,
//! and by lists that are read anew.

ghost use Rattle.std.specs.Prelude.{◌≡◌, ◌≤◌, ◌<◌, ℕ, IfOk};
ghost use Rattle.dw_model.specs.Steady.{last_address};
ghost use Rattle.dw_model.specs.Text.{Tables as ModelTables};
ghost use Rattle.dw_forms.specs.Tables.{tables_shown};
ghost use Rattle.dw_index.specs.Owners.{least};
ghost use Rattle.dw_ranges.specs.Claims.{AreCounted, all_claims, kept_owner, owner_in, owner_of, size_of};
ghost use Rattle.dw_ranges.specs.Window.{IsWindow};

use crate::claims::Claims;
use crate::held::{HeldList, least_held};
use crate::linked::Linked;
use crate::links::Links;
use crate::window::{Window, lesser};
use dw_forms::Tables;
use dw_index::{Found, Index};
use std::alloc::{AllocError, Global};
use std::marker::Model;

/// The lesser of two owners, where there are two.
pub(crate) fn least(first: Option<usize>, second: Option<usize>) -> Option<usize>
    ensures { result ≡ least first second }
{
    let Some(x) = first else {
        return second;
    };
    let Some(y) = second else {
        return first;
    };
    if x <= y { Some(x) } else { Some(y) }
}

/// Who owns an address in a group. Whoever asks passes the tables of the file.
#[derive(Drop)]
pub struct Owners<'a> {
    /// The ranges in group 0 that are kept.
    index: Index,
    /// Those in groups from 1 on, of which the first is 0 here.
    others: Linked,
    /// The last one first, so that they are gone through in order.
    held: Links<HeldList<'a>>,
    /// How many ranges are kept, and lists are held.
    size: usize,
}

impl<'a> Model for Owners<'a> {
    ghost use Rattle.dw_ranges.specs.Claims.{OwnersState};
    ghost use Rattle.dw_ranges.specs.ClaimsInside.{owners_of, IsCounted};

    ghost Value = { OwnersState };

    ghost view = { owners_of };

    ghost invariant = { IsCounted };
}

impl<'a> Owners<'a> {
    /// Of all ranges that owners claim.
    pub fn build(alloc: Global, claims: Claims<'a>) -> Result<Self, AllocError>
        ensures owners { IfOk result (λ owners. (tables : ModelTables) (group a : ℕ)
            → owner_of tables owners group a ≡ owner_in (all_claims tables claims.entry) group a) }
        ensures size { IfOk result (λ owners. owners.size ≡ size_of claims.entry) }
    {
        let size = claims.size().ok_or(AllocError)?;
        let Claims {
            first,
            others,
            held,
            ..
        } = claims;
        let index = Index::build(alloc, &first)?;
        let others = Linked::new(alloc, others)?;
        let held = Links::of(alloc, held)?;
        Ok(Owners {
            index,
            others,
            held,
            size,
        })
    }

    /// The least owner in a group of the ranges that are kept and hold an address.
    fn kept(&self, group: usize, a: u64) -> Option<usize>
        ensures { result ≡ kept_owner self.now group a }
    {
        if group == 0 {
            return self.index.find(a);
        }
        self.others.find(group - 1, a)
    }

    /// The least owner in a group of all ranges that hold an address.
    pub fn find(&self, tables: &Tables<'_>, group: usize, a: u64) -> Option<usize>
        ensures { result ≡ owner_of (tables_shown tables.now) self.now group a }
    {
        least_held(&self.held, tables, group, a, self.kept(group, a))
    }

    /// The least owner in group 0 of an address, and an address above, up to which all have that
    /// owner, or all have none. The lists that are held are read once for each window.
    pub fn find_from(
        &self,
        alloc: Global,
        tables: &Tables<'_>,
        window: &mut Window,
        a: u64,
    ) -> Result<Found, AllocError>
        requires address { a < last_address }
        requires window { IsWindow (tables_shown tables.now) self.now.held window.old }
        ensures window { IsWindow (tables_shown tables.now) self.now.held window.new }
        ensures above { IfOk result (λ found. a < found.until) }
        ensures same { IfOk result (λ found. (c : ℕ) → a ≤ c → c < found.until
            → owner_of (tables_shown tables.now) self.now 0 c ≡ found.owner) }
    {
        window.turn_to(alloc, &self.held, tables, a)?;
        let kept = self.index.find_from(a, &mut window.near_kept);
        let held = window.index.find_from(a, &mut window.near);
        Ok(Found {
            owner: least(kept.owner, held.owner),
            until: lesser(kept.until, lesser(held.until, window.until)),
        })
    }

    /// How many ranges are kept, and lists are held.
    pub fn size(&self) -> usize
        ensures size { result ≡ self.now.size }
        ensures counted { AreCounted self.now result }
    {
        self.size
    }
}
