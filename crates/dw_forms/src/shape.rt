//! How the values of an entry lie.

ghost use Rattle.std.specs.Prelude.{◌≡◌, Ok, List, false, option_map};
ghost use Rattle.dw_model.specs.Entry.{Attribute, attributes_at};
ghost use Rattle.dw_model.specs.Reading.{Place};
ghost use Rattle.dw_bytes.specs.Width.{size_of};
ghost use Rattle.dw_forms.specs.Named.{value_named, value_up_to};
ghost use Rattle.dw_forms.specs.Ranged.{may_have_ranges, NamesNone};
ghost use Rattle.dw_forms.specs.Shape.{specs_of};
ghost use Rattle.dw_forms.specs.Value.{value_shown};

use crate::declaration::Decl;
use crate::layout::Layout;
use crate::names::is_used;
use crate::pairs::Specs;
use crate::ranged::are_ranged;
use crate::value::Value;
use dw_bytes::{Cursor, Width};

/// How the values lie of the entries of a declaration. Contracts see what is asked for
/// (`specs_of`).
#[derive(Clone, Copy)]
pub enum Shape<'b, 'a> {
    /// By a layout, which tells where most of them are.
    Laid(&'b Layout<'a>),
    /// One after the other, as the declaration asks for them.
    Declared(&'b Decl<'a>),
}

impl<'b, 'a> Shape<'b, 'a> {
    /// What is asked for.
    pub fn specs(self) -> &'b Specs<'a>
        ensures { result.now ≡ specs_of self.entry }
    {
        match self {
            Shape::Laid(layout) => layout.specs(),
            Shape::Declared(declaration) => &declaration.specs,
        }
    }

    /// The entries may have ranges, as `Layout::may_have_ranges` tells it.
    #[inline(always)]
    pub fn may_have_ranges(self) -> bool
        ensures told { result ≡ may_have_ranges (specs_of self.entry) }
        ensures right { result ≡ false → NamesNone (specs_of self.entry) }
    {
        match self {
            Shape::Laid(layout) => layout.may_have_ranges(),
            Shape::Declared(declaration) => are_ranged(&declaration.needed()),
        }
    }

    /// The value of the first attribute of a name in an entry whose values begin at a cursor.
    /// `None` where no attribute of this name is declared, and where it or one before it can't be
    /// read. This takes no memory.
    #[inline(always)]
    pub fn first_value<'c>(self, name: u64, values: &Cursor<'c>, width: Width) -> Option<Value<'c>>
        ensures value { option_map value_shown result
            ≡ value_up_to (size_of width) name (specs_of self.entry) values.now }
        ensures read { (found : List Attribute × Place)
            → attributes_at (size_of width) (specs_of self.entry) values.now ≡ Ok found
            → option_map value_shown result ≡ value_named name found.0 }
    {
        match self {
            Shape::Laid(layout) => layout.first_value(name, values, width),
            Shape::Declared(declaration) => declaration.first_value(name, values, width),
        }
    }
}

impl<'a> Decl<'a> {
    /// The value of the first attribute of a name in an entry whose values begin at a cursor, as
    /// `Specs::first_value`. A name that is used is looked for among the attributes that entries
    /// need.
    fn first_value<'b>(&self, name: u64, values: &Cursor<'b>, width: Width) -> Option<Value<'b>>
        ensures { option_map value_shown result ≡ value_up_to (size_of width) name self.now.specs values.now }
    {
        if is_used(name) {
            return self.needed().first_value(name, values, width);
        }
        self.specs.first_value(name, values, width)
    }
}
