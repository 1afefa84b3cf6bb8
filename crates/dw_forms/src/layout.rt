//! Where values are in the entries of a declaration.

ghost use Rattle.std.specs.Prelude.{◌≡◌, IfOk, map};
ghost use Rattle.dw_forms.specs.Spec.{spec_shown};

use crate::declaration::Spec;
use crate::fault::FormFault;
use crate::names::is_used;
use crate::pairs::Specs;
use crate::places::{Places, places_of, value_at_place};
use crate::ranged::are_ranged;
use crate::steps::pass_steps;
use crate::value::Value;
use dw_bytes::{Cursor, Width};
use smallvec::SmallVec;
use std::alloc::{AllocError, Global};
use std::marker::Model;

/// Where the values are in the entries of a declaration, which is worked out once for many of them.
/// Contracts see what is asked for.
#[derive(Drop)]
pub struct Layout<'a> {
    specs: Specs<'a>,
    /// Values are asked for by their names.
    named: bool,
    /// Its entries may have ranges, if values are asked for by their names.
    ranged: bool,
    /// Where values are in the 32-bit format.
    places: Places,
}

impl<'a> Model for Layout<'a> {
    ghost use Rattle.std.specs.Prelude.{List};
    ghost use Rattle.dw_model.specs.Abbrev.{Specification};
    ghost use Rattle.dw_forms.specs.LayoutInside.{specs_in, IsLayout};

    ghost Value = { List Specification };

    ghost view = { specs_in };

    ghost invariant = { IsLayout };
}

/// What is asked for, decoded.
fn decoded(alloc: Global, specs: &Specs<'_>) -> Result<SmallVec<Spec, 16>, AllocError>
    ensures { IfOk result (λ list. map spec_shown list.items ≡ specs.now) }
{
    let mut list = SmallVec::new(alloc);
    let mut left = specs.fork();
    while let Some(spec) = left.take_first() {
        list.push(spec)?;
    }
    Ok(list)
}

impl<'a> Layout<'a> {
    ghost use Rattle.std.specs.Prelude.{Ok, List, false, option_map};
    ghost use Rattle.dw_model.specs.Answers.{ReadsOn};
    ghost use Rattle.dw_model.specs.declared.dwarf.TheConstants.{OFFSET_SIZE_32};
    ghost use Rattle.dw_model.specs.Entry.{Attribute, attributes_at};
    ghost use Rattle.dw_model.specs.Reading.{Place};
    ghost use Rattle.dw_bytes.specs.Width.{size_of};
    ghost use Rattle.dw_forms.specs.Fault.{form_fault};
    ghost use Rattle.dw_forms.specs.Named.{value_named, value_up_to};
    ghost use Rattle.dw_forms.specs.Ranged.{may_have_ranges, NamesNone};
    ghost use Rattle.dw_forms.specs.Size.{place_behind};
    ghost use Rattle.dw_forms.specs.Value.{value_shown};

    /// The layout of the entries with these attributes. It has the places of names that are used
    /// where values are `named`; else those are looked for pair by pair. The error comes only where
    /// an allocation was refused.
    #[tactic(auto, using(crate::proofs::StepLemmas::ranged_is))]
    pub fn of(alloc: Global, specs: &Specs<'a>, named: bool) -> Result<Self, AllocError>
        ensures { IfOk result (λ layout. layout ≡ specs.now) }
    {
        let list = decoded(alloc, specs)?;
        let places = places_of(alloc, list.as_slice(), named)?;
        Ok(Layout {
            specs: specs.fork(),
            named,
            ranged: places.may_have_ranges(),
            places,
        })
    }

    /// What is asked for.
    pub fn specs(&self) -> &Specs<'a>
        ensures { result.now ≡ self.now }
    {
        &self.specs
    }

    /// Passes over the values of an entry of a unit of the 32-bit format, without a look at what is
    /// asked for. After a refusal the cursor may be anywhere. This takes no memory.
    pub fn pass(&self, cursor: &mut Cursor<'_>) -> Result<(), FormFault>
        ensures { ReadsOn (λ done. done) form_fault result
            (place_behind (attributes_at OFFSET_SIZE_32 self.now cursor.old)) cursor.new }
    {
        pass_steps(self.places.steps.as_slice(), self.places.rest, cursor)
    }

    /// Its entries may have ranges: it declares DW_AT_ranges, or both of DW_AT_low_pc and
    /// DW_AT_high_pc (section 2.17).
    #[inline(always)]
    pub fn may_have_ranges(&self) -> bool
        ensures told { result ≡ may_have_ranges self.now }
        ensures right { result ≡ false → NamesNone self.now }
    {
        if !self.named {
            return are_ranged(&self.specs);
        }
        self.ranged
    }

    /// The value of the first attribute of a name in an entry whose values begin at a cursor.
    /// `None` where no attribute of this name is declared, and where it or one before it can't be
    /// read. Of a name that is used it is found at its place. This takes no memory.
    #[inline(always)]
    pub fn first_value<'b>(&self, name: u64, values: &Cursor<'b>, width: Width) -> Option<Value<'b>>
        ensures value { option_map value_shown result ≡ value_up_to (size_of width) name self.now values.now }
        ensures read { (found : List Attribute × Place)
            → attributes_at (size_of width) self.now values.now ≡ Ok found
            → option_map value_shown result ≡ value_named name found.0 }
    {
        self.find(name, values, width)
    }

    /// The same.
    #[inline(always)]
    fn find<'b>(&self, name: u64, values: &Cursor<'b>, width: Width) -> Option<Value<'b>>
        ensures { option_map value_shown result ≡ value_up_to (size_of width) name self.now values.now }
    {
        if !self.named || !is_used(name) {
            return self.specs.first_value(name, values, width);
        }
        let place = self.places.find(name)?;
        match width {
            Width::Four => value_at_place(self.places.steps.as_slice(), place, values),
            Width::Eight => self.specs.first_value(name, values, width),
        }
    }
}
