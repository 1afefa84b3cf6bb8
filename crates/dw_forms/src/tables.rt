//! Texts and addresses to which values lead, by sections 7.5.5, 7.26 and 7.27 of DWARF 5.

ghost use Rattle.std.specs.Prelude.{◌≡◌, ◌+◌, ◌*◌, drop, option_map};
ghost use Rattle.dw_model.specs.Text.{text_in};
ghost use Rattle.dw_model.specs.Text as model;
ghost use Rattle.dw_forms.specs.Tables.{tables_shown, bases_shown};
ghost use Rattle.dw_forms.specs.Text.{text_shown};
ghost use Rattle.dw_forms.specs.Value.{value_shown};

use crate::text::Text;
use crate::value::Value;
use dw_bytes::{Cursor, Width};
use dw_model::dwarf::ADDRESS_SIZE;

/// The sections to which values lead. One that a file hasn't is empty.
#[derive(Clone, Copy, Debug)]
pub struct Tables<'a> {
    /// .debug_str
    pub str: &'a [u8],
    /// .debug_line_str
    pub line_str: &'a [u8],
    /// .debug_str_offsets
    pub str_offsets: &'a [u8],
    /// .debug_addr
    pub addr: &'a [u8],
    /// .debug_rnglists
    pub rnglists: &'a [u8],
}

/// Where a unit's entries begin in the sections that it shares with other units, as offsets of
/// those sections; `None` where the unit names no base. The unit's width, and not that of a table's
/// header, is that of the offsets there.
#[derive(Clone, Copy, Debug, PartialEq, Eq)]
pub struct Bases {
    pub str_offsets: Option<u64>,
    pub addr: Option<u64>,
    pub rnglists: Option<u64>,
    pub width: Width,
}

impl<'a> Tables<'a> {
    /// The text to which a value leads, without its zero byte: itself, or what is at its offset
    /// or at its index after the unit's base. `None` where the base is missing, the place isn't in
    /// its section, no zero byte follows, or the value is no text.
    pub fn text(&self, value: &Value<'a>, bases: &Bases) -> Option<&'a [u8]>
        ensures { option_map (λ text. text.now) result
            ≡ model.text (tables_shown self.now) (bases_shown bases.now) (value_shown value.now) }
    {
        let text = self.find_text(value, bases)?;
        Some(text.bytes())
    }

    /// The same, but its end is looked for only when its bytes are asked for.
    #[tactic(auto, unfolding(dw_model::specs::Text::text))]
    pub fn find_text(&self, value: &Value<'a>, bases: &Bases) -> Option<Text<'a>>
        ensures { option_map text_shown result
            ≡ model.text (tables_shown self.now) (bases_shown bases.now) (value_shown value.now) }
    {
        match *value {
            Value::Inline(text) => Some(Text::Whole(text)),
            Value::Str(offset) => text_at(self.str, offset),
            Value::LineStr(offset) => text_at(self.line_str, offset),
            Value::StrIndex(i) => {
                let base = bases.str_offsets?;
                let entry = entry(self.str_offsets, base, i, bases.width.size() as u64);
                let offset = Cursor::new(entry).offset(bases.width)?;
                text_at(self.str, offset)
            }
            _ => None,
        }
    }

    /// The address to which a value leads: itself, or what is at its index after the unit's
    /// base. `None` where the base is missing, the place isn't in .debug_addr, or the value is no
    /// address.
    #[tactic(auto, unfolding(dw_model::specs::Text::address))]
    pub fn address(&self, value: &Value<'a>, bases: &Bases) -> Option<u64>
        ensures { result ≡ model.address (tables_shown self.now) (bases_shown bases.now) (value_shown value.now) }
    {
        match *value {
            Value::Address(address) => Some(address),
            Value::AddressIndex(i) => {
                let base = bases.addr?;
                let entry = entry(self.addr, base, i, ADDRESS_SIZE as u64);
                Cursor::new(entry).u64()
            }
            _ => None,
        }
    }
}

/// The bytes of a section from an offset on; none past its end.
fn behind(section: &[u8], offset: u64) -> &[u8]
    ensures { result.now ≡ drop offset section.now }
{
    if offset >= section.len() as u64 {
        return &[];
    }
    section.split_at(offset as usize).1
}

/// The bytes of a section from an entry on, of those that begin at a base and have a size; none
/// past its end.
fn entry(section: &[u8], base: u64, index: u64, size: u64) -> &[u8]
    ensures { result.now ≡ drop (base + size * index) section.now }
{
    let Some(passed) = size.checked_mul(index) else {
        return &[];
    };
    let Some(offset) = base.checked_add(passed) else {
        return &[];
    };
    behind(section, offset)
}

/// The text at an offset of a section.
fn text_at(section: &[u8], offset: u64) -> Option<Text<'_>>
    ensures { option_map text_shown result ≡ text_in section.now offset }
{
    Text::first(behind(section, offset))
}
