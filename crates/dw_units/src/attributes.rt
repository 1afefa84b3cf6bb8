//! The attributes of entries, by section 7.5.3 of DWARF 5.

ghost use Rattle.std.specs.Prelude.{◌≡◌, ◌≤◌, ◌==◌, ℕ, List, IfErr, IfOk, find, length, map, option_map};
ghost use Rattle.dw_model.specs.Entry.{attributes_at, classes};
ghost use Rattle.dw_model.specs.Answers.{ReadsUnlessMemory};
ghost use Rattle.dw_bytes.specs.Width.{size_of};
ghost use Rattle.dw_forms.specs.Fault.{form_fault, HidesNoFault};
ghost use Rattle.dw_forms.specs.Value.{value_shown};
ghost use Rattle.dw_units.specs.Attribute.{attribute_shown};
ghost use Rattle.dw_units.specs.Counted.{attribute_in, first_of, AllCount};

use crate::counted::read_counted;
use crate::values::pass_declared;
use dw_bytes::{Cursor, Width};
use dw_forms::{Decl, FormFault, Specs, Value, read_value};
use std::alloc::{AllocError, Global};
use std::marker::Model;

/// An attribute: its name, a DW_AT code, and its value.
#[derive(Clone, Copy, Debug, Default, PartialEq, Eq)]
pub struct Attribute<'a> {
    pub name: u64,
    pub value: Value<'a>,
}

/// The attributes of an entry, in order. Each is decoded where it is when it is asked for, so
/// that an entry takes no memory for them; those whose values count are kept besides, at most one
/// of each name. Contracts see all of them as a list.
#[derive(Drop)]
pub struct Attributes<'a> {
    /// What is asked for.
    specs: Specs<'a>,
    /// Where the values begin, all of which can be read.
    values: Cursor<'a>,
    /// How many bytes the offsets of its unit have.
    width: Width,
    /// The first of each name, where its value counts for the name.
    counted: Vec<Attribute<'a>>,
}

impl<'a> Model for Attributes<'a> {
    ghost use Rattle.std.specs.Prelude.{List};
    ghost use Rattle.dw_model.specs.Entry as model;
    ghost use Rattle.dw_units.specs.AttributesInside.{all_in, AreKept};

    ghost Value = { List model.Attribute };

    ghost view = { all_in };

    ghost invariant = { AreKept };
}

/// All attributes for which a declaration asks, where offsets have a width.
fn read_all<'a>(
    alloc: Global,
    cursor: &mut Cursor<'a>,
    specs: &Specs<'_>,
    width: Width,
) -> Result<Vec<Attribute<'a>>, FormFault>
    ensures { ReadsUnlessMemory (λ attributes. map attribute_shown attributes.items) form_fault result
        (attributes_at (size_of width) specs.now cursor.old) cursor.new }
{
    let mut attributes = Vec::new(alloc);
    let mut left = specs.fork();
    while let Some(spec) = left.take_first() {
        let value = read_value(cursor, spec.form, spec.implicit, width)?;
        let name = spec.name;
        attributes.push(Attribute { name, value })?;
    }
    Ok(attributes)
}

/// The first one of a name.
#[inline(always)]
fn find_named<'b, 'a>(attributes: &'b [Attribute<'a>], name: u64) -> Option<&'b Attribute<'a>>
    ensures { option_map (λ found. found.now) result ≡ find (λ found. found.name == name) attributes.now }
{
    attributes.iter().find(|attribute| attribute.name == name)
}

impl<'a> Attributes<'a> {
    /// How many there are.
    pub fn len(&self) -> usize
        ensures { result ≡ length self.now }
    {
        self.specs.len()
    }

    /// How many are kept: at most one for each name of which some values count, whatever is
    /// declared, and one at least for each name of which an attribute counts.
    pub fn kept(&self) -> usize
        ensures few { result ≤ length classes }
        ensures each { (names : List ℕ) → AllCount self.now names → length names ≤ result }
    {
        self.counted.len()
    }

    /// All of them, in order. The error comes only where an allocation was refused.
    pub fn to_vec(&self, alloc: Global) -> Result<Vec<Attribute<'a>>, AllocError>
        ensures { IfOk result (λ attributes. map attribute_shown attributes.items ≡ self.now) }
    {
        match read_all(alloc, &mut self.values.fork(), &self.specs, self.width) {
            Ok(attributes) => Ok(attributes),
            Err(_) => Err(AllocError),
        }
    }

    /// The value of the first one of a name, of whatever kind it is. Those before it are read.
    pub fn first(&self, name: u64) -> Option<Value<'a>>
        ensures { option_map value_shown result ≡ first_of name self.now }
    {
        self.specs.first_value(name, &self.values, self.width)
    }

    /// The value of the first one of a name, where it counts for the name.
    #[inline(always)]
    pub(crate) fn counted(&self, name: u64) -> Option<&Value<'a>>
        ensures { option_map (λ value. value_shown value.now) result ≡ attribute_in name self.now }
    {
        let found = find_named(self.counted.as_slice(), name)?;
        Some(&found.value)
    }

    /// The attributes that a declaration asks for, whose values begin at a cursor. After a refusal
    /// the cursor may be anywhere.
    pub(crate) fn read(
        alloc: Global,
        cursor: &mut Cursor<'a>,
        declaration: &Decl<'a>,
        width: Width,
    ) -> Result<Self, FormFault>
        ensures read { ReadsUnlessMemory (λ attributes. attributes) form_fault result
            (attributes_at (size_of width) declaration.now.specs cursor.old) cursor.new }
        ensures memory { IfErr result (λ fault. HidesNoFault fault
            (attributes_at (size_of width) declaration.now.specs cursor.old)) }
    {
        let values = cursor.fork();
        pass_declared(cursor, declaration, width)?;
        let counted = read_counted(alloc, &values, declaration, width)?;
        Ok(Attributes {
            specs: declaration.specs.fork(),
            values,
            width,
            counted,
        })
    }
}
