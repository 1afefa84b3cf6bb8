//! The value of the first attribute of a name, read one by one.

ghost use Rattle.std.specs.Prelude.{◌≡◌, Ok, List, option_map};
ghost use Rattle.dw_model.specs.Entry.{Attribute, attributes_at};
ghost use Rattle.dw_model.specs.Reading.{Place};
ghost use Rattle.dw_bytes.specs.Width.{size_of};
ghost use Rattle.dw_forms.specs.Named.{value_named, value_up_to};
ghost use Rattle.dw_forms.specs.Value.{value_shown};

use crate::pairs::Specs;
use crate::value::{Value, read_value};
use dw_bytes::{Cursor, Width};

/// The first value of a name, among those that specifications ask for, where those before it and it
/// can be read.
fn first_value<'a>(
    values: &mut Cursor<'a>,
    specs: &Specs<'_>,
    width: Width,
    name: u64,
) -> Option<Value<'a>>
    ensures { option_map value_shown result ≡ value_up_to (size_of width) name specs.now values.old }
{
    let mut left = specs.fork();
    while let Some(spec) = left.take_first() {
        let Ok(value) = read_value(values, spec.form, spec.implicit, width) else {
            return None;
        };
        if spec.name == name {
            return Some(value);
        }
    }
    None
}

impl<'a> Specs<'a> {
    /// The value of the first attribute of a name in an entry whose values begin at a cursor.
    /// `None` where no attribute of this name is declared, and where it or one before it can't be
    /// read. This takes no memory.
    pub fn first_value<'b>(&self, name: u64, values: &Cursor<'b>, width: Width) -> Option<Value<'b>>
        ensures value { option_map value_shown result ≡ value_up_to (size_of width) name self.now values.now }
        ensures read { (found : List Attribute × Place)
            → attributes_at (size_of width) self.now values.now ≡ Ok found
            → option_map value_shown result ≡ value_named name found.0 }
    {
        first_value(&mut values.fork(), self, width, name)
    }
}
