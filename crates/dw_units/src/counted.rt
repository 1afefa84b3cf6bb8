//! The attributes of an entry whose values count, by sections 7.5.4 and 7.5.5 of DWARF 5.

ghost use Rattle.std.specs.Prelude.{◌≡◌, ◌≤◌, IfOk, length, option_map};
ghost use Rattle.dw_model.specs.Entry.{attributes_at, classes};
ghost use Rattle.dw_bytes.specs.Width.{size_of};
ghost use Rattle.dw_forms.specs.Value.{value_shown};
ghost use Rattle.dw_units.specs.Counted.{attribute_in, AreCounted};
ghost use Rattle.dw_units.specs.View.{attributes_in, IsRead};

use crate::attributes::Attribute;
use crate::class::counts;
use dw_bytes::{Cursor, Width};
use dw_forms::{Decl, Layout, NAMES, Value};
use std::alloc::{AllocError, Global};

/// The value of the first attribute of a name, where it counts for the name.
fn counted_value<'a>(
    name: u64,
    values: &Cursor<'a>,
    layout: &Layout<'_>,
    width: Width,
) -> Option<Value<'a>>
    requires { IsRead (attributes_at (size_of width) layout.now values.now) }
    ensures { option_map value_shown result
        ≡ attribute_in name (attributes_in (attributes_at (size_of width) layout.now values.now)) }
{
    let value = layout.first_value(name, values, width)?;
    if !counts(name, &value) {
        return None;
    }
    Some(value)
}

/// The attributes that count of an entry whose values begin at a cursor, by its layout. All values
/// have to be readable.
fn counted_by<'a>(
    alloc: Global,
    values: &Cursor<'a>,
    layout: &Layout<'_>,
    width: Width,
) -> Result<Vec<Attribute<'a>>, AllocError>
    requires { IsRead (attributes_at (size_of width) layout.now values.now) }
    ensures counted { IfOk result (λ kept.
        AreCounted (attributes_in (attributes_at (size_of width) layout.now values.now)) kept.items) }
    ensures few { IfOk result (λ kept. length kept.items ≤ length classes) }
{
    let mut kept = Vec::new(alloc);
    for name in &NAMES {
        if let Some(value) = counted_value(*name, values, layout, width) {
            let name = *name;
            kept.push(Attribute { name, value })?;
        }
    }
    Ok(kept)
}

/// The same, of an entry of a declaration.
pub(crate) fn read_counted<'a>(
    alloc: Global,
    values: &Cursor<'a>,
    declaration: &Decl<'_>,
    width: Width,
) -> Result<Vec<Attribute<'a>>, AllocError>
    requires { IsRead (attributes_at (size_of width) declaration.now.specs values.now) }
    ensures counted { IfOk result (λ kept.
        AreCounted (attributes_in (attributes_at (size_of width) declaration.now.specs values.now)) kept.items) }
    ensures few { IfOk result (λ kept. length kept.items ≤ length classes) }
{
    let layout = Layout::of(alloc, &declaration.needed(), true)?;
    counted_by(alloc, values, &layout, width)
}
