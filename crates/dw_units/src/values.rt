//! The values of entries are passed over, by section 7.5.3 of DWARF 5.

ghost use Rattle.std.specs.Prelude.{ℕ, List};
ghost use Rattle.dw_model.specs.Abbrev.{Specification};
ghost use Rattle.dw_model.specs.Entry.{attributes_at};
ghost use Rattle.dw_bytes.specs.Width.{size_of};
ghost use Rattle.dw_forms.specs.Fault.{Passes};
ghost use Rattle.dw_forms.specs.Shape.{specs_of};
ghost use Rattle.dw_forms.specs.Size.{Skips};
ghost use Rattle.dw_units.specs.Layouts.{IsSize};

use crate::layouts::Meaning;
use dw_bytes::{Cursor, Width};
use dw_forms::{Decl, FormFault, Layout, Shape, Specs, read_value};

/// Passes over the values that a declaration asks for, where offsets have a width.
fn pass_attributes(
    cursor: &mut Cursor<'_>,
    specs: &Specs<'_>,
    width: Width,
) -> Result<(), FormFault>
    ensures { Passes result (attributes_at (size_of width) specs.now cursor.old) cursor.new }
{
    let mut left = specs.fork();
    while let Some(spec) = left.take_first() {
        read_value(cursor, spec.form, spec.implicit, width)?;
    }
    Ok(())
}

/// Passes over the values of an entry of a declaration, by those of its attributes that are needed.
pub(crate) fn pass_declared(
    cursor: &mut Cursor<'_>,
    declaration: &Decl<'_>,
    width: Width,
) -> Result<(), FormFault>
    ensures { Passes result (attributes_at (size_of width) declaration.now.specs cursor.old) cursor.new }
{
    pass_attributes(cursor, &declaration.needed(), width)
}

/// Passes over the values of an entry: in the 32-bit format from one of no fixed size to the next,
/// else one after the other.
#[inline(never)]
fn pass_each(cursor: &mut Cursor<'_>, layout: &Layout<'_>, width: Width) -> Result<(), FormFault>
    ensures { Passes result (attributes_at (size_of width) layout.now cursor.old) cursor.new }
{
    match width {
        Width::Four => layout.pass(cursor),
        Width::Eight => pass_attributes(cursor, layout.specs(), width),
    }
}

/// Passes over values that take so many bytes.
#[inline(always)]
pub(crate) fn pass_bytes(cursor: &mut Cursor<'_>, size: usize) -> Result<(), FormFault>
    ensures { (offset_size : ℕ) (specs : List Specification) → Skips size (attributes_at offset_size specs)
        → Passes result (attributes_at offset_size specs cursor.old) cursor.new }
{
    let _values = cursor.take(size).ok_or(FormFault::End)?;
    Ok(())
}

/// Passes over the values of an entry.
#[inline(always)]
pub(crate) fn pass_values(
    cursor: &mut Cursor<'_>,
    shape: Shape<'_, '_>,
    width: Width,
) -> Result<(), FormFault>
    ensures { Passes result (attributes_at (size_of width) (specs_of shape.entry) cursor.old) cursor.new }
{
    // A cursor that is lent lies in memory; the caller's own stays in registers.
    let mut place = cursor.fork();
    match shape {
        Shape::Laid(layout) => pass_each(&mut place, layout, width)?,
        Shape::Declared(declaration) => pass_declared(&mut place, declaration, width)?,
    }
    *cursor = place;
    Ok(())
}

/// Passes over the values of an entry whose declaration means this, in one step where the size is
/// known.
#[inline(always)]
pub(crate) fn pass_meant(
    cursor: &mut Cursor<'_>,
    meant: Meaning<'_, '_>,
    width: Width,
) -> Result<(), FormFault>
    ensures { IsSize (size_of width) meant.entry.size (specs_of meant.entry.shape)
        → Passes result (attributes_at (size_of width) (specs_of meant.entry.shape) cursor.old) cursor.new }
{
    let Some(size) = meant.size else {
        return pass_values(cursor, meant.shape, width);
    };
    pass_bytes(cursor, size)
}
