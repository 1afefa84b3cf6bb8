//! Numbers and values of a line table, each of whose faults makes the table bad.

ghost use Rattle.std.specs.Prelude.{None};
ghost use Rattle.dw_model.specs.Results.{or_fault};
ghost use Rattle.dw_model.specs.Leb.{uleb_at, sleb_at};
ghost use Rattle.dw_model.specs.Form.{value_at};
ghost use Rattle.dw_model.specs.Faults.{bad};
ghost use Rattle.dw_model.specs.Answers.{ReadsOn};
ghost use Rattle.dw_bytes.specs.Width.{size_of};
ghost use Rattle.dw_forms.specs.Value.{value_shown};
ghost use Rattle.dw_line.specs.Fault.{line_fault};

use crate::fault::LineFault;
use dw_bytes::{Cursor, Width};
use dw_forms::{Value, read_value};

/// An unsigned LEB128 number (section 7.6).
#[inline(always)]
pub(crate) fn uleb(cursor: &mut Cursor<'_>) -> Result<u64, LineFault>
    ensures { ReadsOn (λ x. x) line_fault result (or_fault bad (uleb_at cursor.old)) cursor.new }
{
    match cursor.uleb() {
        Ok(number) => Ok(number),
        Err(_) => Err(LineFault::Bad),
    }
}

/// A signed LEB128 number (section 7.6).
#[inline(always)]
pub(crate) fn sleb(cursor: &mut Cursor<'_>) -> Result<i64, LineFault>
    ensures { ReadsOn (λ x. x) line_fault result (or_fault bad (sleb_at cursor.old)) cursor.new }
{
    match cursor.sleb() {
        Ok(number) => Ok(number),
        Err(_) => Err(LineFault::Bad),
    }
}

/// The value of a form (section 7.5.6), where offsets have a width.
#[inline(always)]
pub(crate) fn value<'a>(
    cursor: &mut Cursor<'a>,
    form: u64,
    width: Width,
) -> Result<Value<'a>, LineFault>
    ensures { ReadsOn value_shown line_fault result
        (or_fault bad (value_at (size_of width) form None cursor.old)) cursor.new }
{
    match read_value(cursor, form, None, width) {
        Ok(value) => Ok(value),
        Err(_) => Err(LineFault::Bad),
    }
}
