//! Where the values of attributes that are used are in the entries of a declaration.

ghost use Rattle.std.specs.Prelude.{◌≡◌, ◌++◌, ◌∷◌, ◌&&◌, ◌||◌, [], ℕ, List, IfOk, OnOk, true};
ghost use Rattle.std.specs.Prelude.{is_some, length, map, option_map, take};
ghost use Rattle.dw_model.specs.declared.dwarf.TheConstants.{OFFSET_SIZE_32};
ghost use Rattle.dw_model.specs.Abbrev.{Specification};
ghost use Rattle.dw_model.specs.Answers.{ReadsOn};
ghost use Rattle.dw_model.specs.Entry.{attributes_at};
ghost use Rattle.dw_forms.specs.Fault.{form_fault};
ghost use Rattle.dw_forms.specs.Named.{value_up_to};
ghost use Rattle.dw_forms.specs.Names.{is_used};
ghost use Rattle.dw_forms.specs.Size.{place_behind};
ghost use Rattle.dw_forms.specs.Spec.{spec_shown};
ghost use Rattle.dw_forms.specs.Steps.{find_place, ArePlaces, AreSteps, IsPlaced};
ghost use Rattle.dw_forms.specs.Value.{value_shown};

use crate::declaration::Spec;
use crate::fault::FormFault;
use crate::names::{NAMES, is_used};
use crate::steps::{Step, pass_steps, passed_with};
use crate::value::{Value, value_ahead};
use dw_bytes::{Cursor, Width};
use dw_model::dwarf::{DW_AT_high_pc, DW_AT_low_pc, DW_AT_ranges};
use smallvec::SmallVec;
use std::alloc::{AllocError, Global};

/// Where the value of the first attribute of a name is: after so many steps, and so many bytes
/// more.
#[derive(Clone, Copy, Debug, Default, PartialEq, Eq)]
pub(crate) struct Place {
    spec: Spec,
    count: usize,
    offset: usize,
}

/// What is known of where the values are of the entries of a declaration. What is needed to pass
/// over them needs no allocation in most.
#[derive(Drop)]
pub(crate) struct Places {
    /// The values of no fixed size.
    pub(crate) steps: SmallVec<Step, 2>,
    /// How many bytes are after the last of them.
    pub(crate) rest: usize,
    /// The values of the first attributes of the names that are used, where they are asked for.
    pub(crate) list: Vec<Place>,
}

/// The place of a name among some.
#[inline(always)]
fn find_place(places: &[Place], name: u64) -> Option<&Place>
    ensures { option_map (λ place. place.now) result ≡ find_place name places.now }
{
    places.iter().find(|place| place.spec.name == name)
}

impl Places {
    /// The place of a name.
    #[inline(always)]
    pub(crate) fn find(&self, name: u64) -> Option<&Place>
        ensures { option_map (λ place. place.now) result ≡ find_place name self.now.list.items }
    {
        find_place(self.list.as_slice(), name)
    }

    /// DW_AT_ranges has a place, or both of DW_AT_low_pc and DW_AT_high_pc have one.
    pub(crate) fn may_have_ranges(&self) -> bool
        ensures { result ≡ (is_some (find_place DW_AT_ranges self.now.list.items)
            || (is_some (find_place DW_AT_low_pc self.now.list.items)
            && is_some (find_place DW_AT_high_pc self.now.list.items))) }
    {
        if self.find(DW_AT_ranges).is_some() {
            return true;
        }
        self.find(DW_AT_low_pc).is_some() && self.find(DW_AT_high_pc).is_some()
    }
}

/// Keeps the place of an attribute that is the first of a name that is used, after so many steps
/// and bytes, where it is asked for (`named`).
fn note(
    places: &mut Vec<Place>,
    spec: &Spec,
    named: bool,
    count: usize,
    offset: usize,
) -> Result<(), AllocError>
    ensures { (steps : List Step) (specs : List Specification) → AreSteps steps offset specs → length steps ≡ count
        → named ≡ true → ArePlaces steps places.old.items specs
        → OnOk result (ArePlaces steps places.new.items (specs ++ spec_shown spec.now ∷ [])) }
{
    if !named {
        return Ok(());
    }
    if !is_used(spec.name) {
        return Ok(());
    }
    if let Some(_) = find_place(places.as_slice(), spec.name) {
        return Ok(());
    }
    let spec = *spec;
    places.push(Place {
        spec,
        count,
        offset,
    })?;
    Ok(())
}

/// Where the values are in the entries with these attributes, those of names that are used among
/// them where they are asked for.
pub(crate) fn places_of(alloc: Global, specs: &[Spec], named: bool) -> Result<Places, AllocError>
    ensures steps { IfOk result (λ places. AreSteps places.steps.items places.rest (map spec_shown specs.now)) }
    ensures list { named ≡ true
        → IfOk result (λ places. ArePlaces places.steps.items places.list.items (map spec_shown specs.now)) }
{
    let mut steps = SmallVec::new(alloc);
    let used = specs.len().min(NAMES.len());
    let mut list = Vec::with_capacity(alloc, if named { used } else { 0 })?;
    let mut rest: usize = 0;
    for spec in specs {
        note(&mut list, spec, named, steps.len(), rest)?;
        let Some(passed) = passed_with(spec, rest) else {
            let spec = *spec;
            steps.push(Step { before: rest, spec })?;
            rest = 0;
            continue;
        };
        rest = passed;
    }
    Ok(Places { steps, rest, list })
}

/// The first of some steps, so many where there are as many.
#[inline(always)]
fn first_steps(steps: &[Step], count: usize) -> &[Step]
    ensures { result.now ≡ take count steps.now }
{
    if count >= steps.len() {
        return steps;
    }
    &steps[..count]
}

/// Passes over the bytes before a place, step by step where there are steps. After a refusal the
/// cursor may be anywhere.
#[inline(always)]
fn pass_to(steps: &[Step], place: &Place, cursor: &mut Cursor<'_>) -> Result<(), FormFault>
    ensures { (specs : List Specification) → AreSteps (take place.now.count steps.now) place.now.offset specs
        → ReadsOn (λ done. done) form_fault result (place_behind (attributes_at OFFSET_SIZE_32 specs cursor.old))
        cursor.new }
{
    if place.count > 0 {
        return pass_steps(first_steps(steps, place.count), place.offset, cursor);
    }
    let Some(_) = cursor.take(place.offset) else {
        return Err(FormFault::End);
    };
    Ok(())
}

/// The value at a place, in an entry whose values begin at a cursor; `None` where it or one before
/// it can't be read.
pub(crate) fn value_at_place<'a>(
    steps: &[Step],
    place: &Place,
    values: &Cursor<'a>,
) -> Option<Value<'a>>
    ensures { (name : ℕ) (specs : List Specification) → IsPlaced steps.now name place.now specs
        → option_map value_shown result ≡ value_up_to OFFSET_SIZE_32 name specs values.now }
{
    let mut cursor = values.fork();
    let Ok(()) = pass_to(steps, place, &mut cursor) else {
        return None;
    };
    let spec = place.spec;
    let Ok(value) = value_ahead(&mut cursor, spec.form, spec.implicit, Width::Four) else {
        return None;
    };
    Some(value)
}
