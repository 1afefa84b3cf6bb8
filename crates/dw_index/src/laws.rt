//! What the least owner of an address is, as the contract of a function that does nothing.

ghost use Rattle.std.specs.Prelude.{◌≡◌, ◌↔◌, ℕ, List, Some, None, false};
ghost use Rattle.std.specs.List.{All, position};
ghost use Rattle.dw_model.specs.Ranges.{Range, holds, covers};
ghost use Rattle.dw_index.specs.Owners.{least_owner, IsLeastOwner, numbered};

/// - `found`: the least owner of an address is the owner of a range that holds it, and no range
///   that holds it has a lesser;
/// - `none`: there is none exactly where no range holds the address;
/// - `first`: where the owners are the indexes of lists of ranges, it is the index of the first
///   list with a range that holds the address.
pub fn law_of_least_owner()
    ensures found { (pairs : List (Range × ℕ)) (a owner : ℕ) → (least_owner pairs a ≡ Some owner)
        ↔ IsLeastOwner pairs a owner }
    ensures none { (pairs : List (Range × ℕ)) (a : ℕ) → (least_owner pairs a ≡ None)
        ↔ All (λ pair. holds a pair.0 ≡ false) pairs }
    ensures first { (lists : List (List Range)) (a : ℕ) → least_owner (numbered 0 lists) a ≡ position (covers a) lists }
{}
