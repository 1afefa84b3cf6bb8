//! The values of attributes, by sections 7.5.5 and 7.5.6 of DWARF 5.

ghost use Rattle.std.specs.Prelude.{◌≡◌};
ghost use Rattle.dw_model.specs.Reading.{number_at};
ghost use Rattle.dw_model.specs.Form.{spelled_at, value_at};
ghost use Rattle.dw_model.specs.Answers.{Reads, ReadsOn, ReadsOrTells};
ghost use Rattle.dw_bytes.specs.Width.{size_of};
ghost use Rattle.dw_forms.specs.Fault.{form_fault};
ghost use Rattle.dw_forms.specs.Spelling.{made, size_shown, spelling_shown};
ghost use Rattle.dw_forms.specs.Value.{value_shown};

use crate::fault::FormFault;
use crate::form::{Class, Size, Spelling, spelling_of};
use dw_bytes::{Cursor, Width};
use dw_model::dwarf::DW_FORM_indirect;

/// A value, of the class that its form gives it. Offsets and indexes are those of the sections that
/// they name; a reference counts from its unit's first byte (`UnitRef`) or from that of .debug_info
/// (`SectionRef`).
#[derive(Clone, Copy, Debug, PartialEq, Eq)]
pub enum Value<'a> {
    /// An address.
    Address(u64),
    /// A number without a sign.
    Unsigned(u64),
    /// A number with a sign.
    Signed(i64),
    /// The bytes of a block, an expression or DW_FORM_data16.
    Bytes(&'a [u8]),
    /// Whether a flag is set.
    Flag(bool),
    /// A text that is in the entry itself, without its zero byte.
    Inline(&'a [u8]),
    /// An offset of .debug_str.
    Str(u64),
    /// An offset of .debug_line_str.
    LineStr(u64),
    /// An index of .debug_str_offsets.
    StrIndex(u64),
    /// An index of .debug_addr.
    AddressIndex(u64),
    /// The offset of an entry, which counts from the first byte of the unit that refers to it.
    UnitRef(u64),
    /// The offset of an entry, which counts from the first byte of .debug_info.
    SectionRef(u64),
    /// An offset of a section that the attribute names.
    SectionOffset(u64),
    /// An index of .debug_rnglists.
    RangeIndex(u64),
    /// A value that leads to other files, or to what isn't read.
    Unused(u64),
}

impl Default for Value<'_> {
    /// A value that leads nowhere, as lists that keep values in place need one.
    fn default() -> Self {
        Value::Unused(0)
    }
}

/// The value that a number of this class is.
#[inline(always)]
fn value_of<'a>(class: Class, n: u64) -> Value<'a>
    ensures { value_shown result ≡ made class n }
{
    match class {
        Class::Address => Value::Address(n),
        Class::Unsigned => Value::Unsigned(n),
        Class::Str => Value::Str(n),
        Class::LineStr => Value::LineStr(n),
        Class::StrIndex => Value::StrIndex(n),
        Class::AddressIndex => Value::AddressIndex(n),
        Class::UnitRef => Value::UnitRef(n),
        Class::SectionRef => Value::SectionRef(n),
        Class::SectionOffset => Value::SectionOffset(n),
        Class::RangeIndex => Value::RangeIndex(n),
        Class::Unused => Value::Unused(n),
    }
}

/// A number of a size.
#[inline(always)]
fn number(cursor: &mut Cursor<'_>, size: Size) -> Option<u64>
    ensures { Reads (λ x. x) result (number_at (size_shown size) cursor.old) cursor.old cursor.new }
{
    Some(match size {
        Size::One => cursor.u8()? as u64,
        Size::Two => cursor.u16()? as u64,
        Size::Three => cursor.u24()? as u64,
        Size::Four => cursor.u32()? as u64,
        Size::Eight => cursor.u64()?,
    })
}

/// A value in its spelling, where offsets have a width. After a refusal the cursor may be
/// anywhere.
#[tactic(auto, unfolding(dw_model::specs::Form::spelled_at))]
#[inline(always)]
fn spelled<'a>(
    cursor: &mut Cursor<'a>,
    spelling: Spelling,
    implicit: Option<i64>,
    width: Width,
) -> Result<Value<'a>, FormFault>
    ensures { ReadsOn value_shown form_fault result
        (spelled_at (size_of width) (spelling_shown spelling) implicit cursor.old) cursor.new }
{
    match spelling {
        Spelling::Fixed(size, class) => {
            let n = number(cursor, size).ok_or(FormFault::End)?;
            Ok(value_of(class, n))
        }
        Spelling::Offset(class) => {
            let n = cursor.offset(width).ok_or(FormFault::End)?;
            Ok(value_of(class, n))
        }
        Spelling::Uleb(class) => {
            let n = cursor.uleb()?;
            Ok(value_of(class, n))
        }
        Spelling::Sleb => {
            let n = cursor.sleb()?;
            Ok(Value::Signed(n))
        }
        Spelling::Flag => {
            let n = cursor.u8().ok_or(FormFault::End)?;
            Ok(Value::Flag(n != 0))
        }
        Spelling::Block(size) => {
            let bytes = cursor.take(size).ok_or(FormFault::End)?;
            Ok(Value::Bytes(bytes))
        }
        Spelling::Counted(size) => {
            let len = number(cursor, size).ok_or(FormFault::End)?;
            let bytes = cursor.take(len as usize).ok_or(FormFault::End)?;
            Ok(Value::Bytes(bytes))
        }
        Spelling::UlebCounted => {
            let len = cursor.uleb()?;
            let bytes = cursor.take(len as usize).ok_or(FormFault::End)?;
            Ok(Value::Bytes(bytes))
        }
        Spelling::Text => {
            let text = cursor.text().ok_or(FormFault::End)?;
            Ok(Value::Inline(text))
        }
        Spelling::Implicit => {
            let n = implicit.ok_or(FormFault::Form)?;
            Ok(Value::Signed(n))
        }
        Spelling::Present => Ok(Value::Flag(true)),
    }
}

/// The value of a form (section 7.5.6), where offsets have a width; `implicit` is the number that
/// is in the declaration, where one does. `Form` where the form, through any number of
/// DW_FORM_indirect, is unknown or has its number in no declaration; `Wide` where a LEB128 number
/// doesn't fit 64 bits; else `End` where the bytes end too early. A refusal leaves the cursor where
/// it was.
#[tactic(auto, unfolding(dw_model::specs::Form::value_at))]
#[inline(always)]
pub fn read_value<'a>(
    cursor: &mut Cursor<'a>,
    form: u64,
    implicit: Option<i64>,
    width: Width,
) -> Result<Value<'a>, FormFault>
    ensures { ReadsOrTells value_shown form_fault result
        (value_at (size_of width) form implicit cursor.old) cursor.old cursor.new }
{
    let mut ahead = cursor.fork();
    let value = value_ahead(&mut ahead, form, implicit, width)?;
    *cursor = ahead;
    Ok(value)
}

/// The same, but after a refusal the cursor may be anywhere.
#[inline(always)]
pub(crate) fn value_ahead<'a>(
    cursor: &mut Cursor<'a>,
    form: u64,
    implicit: Option<i64>,
    width: Width,
) -> Result<Value<'a>, FormFault>
    ensures { ReadsOn value_shown form_fault result (value_at (size_of width) form implicit cursor.old) cursor.new }
{
    let mut named = form;
    let mut constant = implicit;
    while named == DW_FORM_indirect {
        named = cursor.uleb()?;
        constant = None;
    }
    let Some(spelling) = spelling_of(named) else {
        return Err(FormFault::Form);
    };
    spelled(cursor, spelling, constant, width)
}
