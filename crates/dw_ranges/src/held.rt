//! Range lists that are held by name: they are asked by their indexes, or read anew for each
//! address.

ghost use Rattle.std.specs.Prelude.{◌≡◌, false, nat_le, reverse, IfSome};
ghost use Rattle.std.specs.Option.{option_map_or};
ghost use Rattle.dw_model.specs.Ranges.{covers};
ghost use Rattle.dw_forms.specs.Tables.{tables_shown};
ghost use Rattle.dw_index.specs.Owners.{least, least_owner};
ghost use Rattle.dw_ranges.specs.Held.{Lacks};
ghost use Rattle.dw_ranges.specs.Claims.{held_claims, held_ranges, list_claims, owner_in};

use crate::at_address::list_holds;
use crate::links::Links;
use crate::list_index::ListIndex;
use crate::range_list::RangeList;
use dw_forms::Tables;
use std::sync::Arc;

/// A range list, by name or by its index and the base before any entry sets one.
#[derive(Drop)]
pub enum Listed<'a> {
    Named(RangeList),
    Indexed(Arc<ListIndex<'a>>, Option<u64>),
}

/// A range list that is held, with the owner that claims its ranges.
#[derive(Drop)]
pub struct HeldList<'a> {
    pub list: Listed<'a>,
    pub owner: usize,
}

impl<'a> Listed<'a> {
    /// Whether the list has a range that holds an address; none where it can't be read. `absent` is
    /// as `list_holds` has it.
    fn holds(&self, absent: &mut Option<RangeList>, tables: &Tables<'_>, a: u64) -> bool
        requires absent { IfSome absent.old (Lacks (tables_shown tables.now) a) }
        ensures holds { result ≡ covers a (held_ranges (tables_shown tables.now) self.now) }
        ensures absent { IfSome absent.new (Lacks (tables_shown tables.now) a) }
    {
        match self {
            Listed::Named(list) => list_holds(*list, absent, tables, a),
            Listed::Indexed(index, base) => index.holds(*base, a),
        }
    }
}

/// Whether the owner that was found comes before another, or is that one.
fn is_before(found: Option<usize>, owner: usize) -> bool
    ensures { result ≡ option_map_or (λ k. nat_le k owner) found false }
{
    match found {
        Some(k) => k <= owner,
        None => false,
    }
}

/// The lesser of an owner that was found, where there is one, and that of a list, where the list
/// holds an address. The list is read only where its owner comes first.
#[tactic(auto, using(dw_index::proofs::LawLemmas::of_list, std::proofs::lemmas::Bool::Decides::nat_tests))]
fn least_of(
    held: &HeldList<'_>,
    absent: &mut Option<RangeList>,
    tables: &Tables<'_>,
    a: u64,
    found: Option<usize>,
) -> Option<usize>
    requires absent { IfSome absent.old (Lacks (tables_shown tables.now) a) }
    ensures least { result ≡ least found (least_owner (list_claims (tables_shown tables.now) held.now) a) }
    ensures absent { IfSome absent.new (Lacks (tables_shown tables.now) a) }
{
    if is_before(found, held.owner) {
        return found;
    }
    if held.list.holds(absent, tables, a) {
        return Some(held.owner);
    }
    found
}

/// The lesser of an owner that was found and the least owner in a group whose list holds an
/// address. Lists of other groups cost nothing.
#[tactic(auto, using(crate::proofs::ClaimLemmas::held_steps), unfolding(dw_index::specs::Owners::least_owner))]
pub(crate) fn least_held(
    held: &Links<HeldList<'_>>,
    tables: &Tables<'_>,
    group: usize,
    a: u64,
    found: Option<usize>,
) -> Option<usize>
    ensures { result ≡ least found (owner_in (held_claims (tables_shown tables.now) (reverse held.now)) group a) }
{
    let mut least = found;
    let mut absent = None;
    for list in held.back(group) {
        least = least_of(list, &mut absent, tables, a, least);
    }
    least
}
