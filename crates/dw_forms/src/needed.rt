//! Of the attributes that a declaration asks for, those that entries need.

ghost use Rattle.std.specs.Prelude.{◌≡◌, ◌≤◌, ◌==◌, ◌⊎◌, ℕ, Some, IfOk, IfSome, find, length, map, option_map};
ghost use Rattle.std.specs.Prelude.{false, true};
ghost use Rattle.dw_forms.specs.Names.{is_used};
ghost use Rattle.dw_forms.specs.Needed.{is_among, AreAlike};
ghost use Rattle.dw_forms.specs.Size.{value_size};
ghost use Rattle.dw_forms.specs.Spec.{spec_shown};

use crate::declaration::Spec;
use crate::form::{Spelling, spelling_of};
use crate::names::is_used;
use crate::pairs::Specs;
use smallvec::SmallVec;
use std::alloc::{AllocError, Global};

/// Whether entries may have bytes of the value of an attribute; else it is in the declaration.
#[inline(always)]
fn has_bytes(spec: &Spec) -> bool
    ensures { result ≡ false → (size : ℕ) → value_size size (spec_shown spec.now) ≡ Some 0 }
{
    match spelling_of(spec.form) {
        Some(Spelling::Present) => false,
        Some(Spelling::Implicit) => spec.implicit.is_none(),
        _ => true,
    }
}

/// A name, among some.
#[inline(always)]
fn find_name(names: &[u64], name: u64) -> Option<&u64>
    ensures { option_map (λ found. found.now) result ≡ find (λ other. other == name) names.now }
{
    names.iter().find(|other| **other == name)
}

/// Whether entries need an attribute. The names are those of attributes before it that are used;
/// its own is added, if it is used and new.
#[inline(always)]
fn is_needed(spec: &Spec, names: &mut SmallVec<u64, 16>) -> Result<bool, AllocError>
    ensures noted { IfOk result (λ needed. (name : ℕ) → is_among name names.new.items ≡ true
        → (is_among name names.old.items ≡ true) ⊎ ((needed ≡ true) × (spec.now.name ≡ name))) }
    ensures size { IfOk result (λ needed. needed ≡ false → (size : ℕ)
        → value_size size (spec_shown spec.now) ≡ Some 0) }
    ensures later { IfOk result (λ needed. needed ≡ false → is_used spec.now.name ≡ true
        → is_among spec.now.name names.old.items ≡ true) }
{
    if is_used(spec.name) {
        let None = find_name(names.as_slice(), spec.name) else {
            return Ok(has_bytes(spec));
        };
        names.push(spec.name)?;
        return Ok(true);
    }
    Ok(has_bytes(spec))
}

/// Those of the attributes that entries need: all but the ones of whose values they have no bytes,
/// and whose name isn't used or is that of one before. `None` where they are more than `most`.
#[inline(never)]
pub(crate) fn needed_of(
    alloc: Global,
    specs: &Specs<'_>,
    most: usize,
) -> Result<Option<Vec<Spec>>, AllocError>
    ensures alike { IfOk result (λ found. IfSome found (λ needed. AreAlike (map spec_shown needed.items) specs.now)) }
    ensures few { IfOk result (λ found. IfSome found (λ needed. length needed.items ≤ most)) }
{
    let mut needed = Vec::new(alloc);
    let mut names: SmallVec<u64, 16> = SmallVec::new(alloc);
    let mut left = specs.fork();
    while let Some(spec) = left.take_first() {
        if !is_needed(&spec, &mut names)? {
            continue;
        }
        if needed.len() >= most {
            return Ok(None);
        }
        needed.push(spec)?;
    }
    needed.shrink_to_fit();
    Ok(Some(needed))
}
