//! Functions of a unit, and where they were called.

ghost use Rattle.std.specs.Prelude.{◌≡◌};
ghost use Rattle.dw_model.specs.Entry.{number_of};
ghost use Rattle.dw_frames.specs.Call as model;

use dw_forms::Value;
use dw_model::dwarf::{DW_AT_call_column, DW_AT_call_file, DW_AT_call_line};
use dw_units::EntryView;

/// An entry of .debug_info.
#[derive(Clone, Copy, Debug, PartialEq, Eq)]
pub struct EntryId {
    /// The place of its unit, in order of offset.
    pub unit: usize,
    /// Its offset, which counts from the first byte of .debug_info.
    pub offset: u64,
}

/// Where a function was called that was inlined: the values of DW_AT_call_file, DW_AT_call_line and
/// DW_AT_call_column (section 3.3.8.2). What is absent or negative is `None`.
#[derive(Clone, Copy, Debug, PartialEq, Eq)]
pub struct Call {
    pub file: Option<u64>,
    pub line: Option<u64>,
    pub column: Option<u64>,
}

/// What is told of a function: its name, and where it was called that was inlined.
#[derive(Clone, Copy, Debug, PartialEq, Eq)]
pub struct Described<'a> {
    pub name: Option<&'a [u8]>,
    pub call: Call,
}

/// The value of an attribute as a number.
fn number_of(entry: &EntryView<'_, '_>, name: u64) -> Option<u64>
    ensures { result ≡ number_of name entry.now }
{
    let value = entry.attr(name)?;
    match value {
        Value::Unsigned(n) => Some(n),
        Value::Signed(n) => {
            if n < 0 {
                return None;
            }
            Some(n as u64)
        }
        _ => None,
    }
}

/// Where an entry says that it was called.
pub(crate) fn call_of(entry: &EntryView<'_, '_>) -> Call
    ensures { result ≡ model.call_of entry.now }
{
    Call {
        file: number_of(entry, DW_AT_call_file),
        line: number_of(entry, DW_AT_call_line),
        column: number_of(entry, DW_AT_call_column),
    }
}

/// Where no function was called.
pub(crate) fn no_call() -> Call
    ensures { result ≡ model.no_call }
{
    Call {
        file: None,
        line: None,
        column: None,
    }
}
