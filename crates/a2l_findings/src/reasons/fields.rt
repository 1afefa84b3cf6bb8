//! Reading fields one after the other, so that one that isn't there is reported by its name.

use crate::note::Words;
use crate::reasons::reason::{Field, Found, Read, Reason, Spot, Stop, Wanted};
use dw_bytes::{Cursor, Initial, Width};
use dw_forms::{FormFault, Value, read_value};
use dw_model::dwarf::{DW_FORM_sdata, DW_FORM_udata};

/// The first field of a unit or a table.
const LENGTH: &str = "unit_length";

/// Reads the fields of what is at a spot. Offsets are those of a section.
#[derive(Drop)]
pub(super) struct Fields<'a> {
    pub(super) spot: Spot,
    section: Words,
    cursor: Cursor<'a>,
}

impl<'a> Fields<'a> {
    /// Fields of what begins at an offset of a section, whose bytes are given, or at its end.
    pub(super) fn new(what: Words, section: Words, bytes: &'a [u8], offset: u64) -> Self {
        Fields::of(Spot::At(what, offset, section), section, bytes, offset)
    }

    /// Fields of what is at a spot, from an offset of a section on.
    pub(super) fn of(spot: Spot, section: Words, bytes: &'a [u8], offset: u64) -> Self {
        let mut cursor = Cursor::new(bytes);
        let _ = cursor.take(bytes.len().min(offset as usize));
        Fields {
            spot,
            section,
            cursor,
        }
    }

    /// The offset of the next field.
    pub(super) fn at(&self) -> u64 {
        self.cursor.at() as u64
    }

    /// How many bytes are left.
    pub(super) fn left(&self) -> u64 {
        self.cursor.left() as u64
    }

    /// A stop at a field, by what it holds and what was wanted of it.
    pub(super) fn stop(&self, field: Words, found: Found, wanted: Words) -> Stop {
        self.spot.stop(field, found, Wanted::Words(wanted))
    }

    /// A number that has to lie between two, which are allowed; a stop where it doesn't.
    pub(super) fn check(
        &self,
        field: Words,
        n: u64,
        allowed: (u64, u64),
        wanted: Words,
    ) -> Read<()> {
        if allowed.0 <= n && n <= allowed.1 {
            return Ok(());
        }
        Err(self.stop(field, Found::Number(n), wanted))
    }

    /// A field that was read, or a stop at one of `size` bytes that isn't all there.
    fn some<T: Drop>(&self, read: Option<T>, field: Words, size: u64) -> Read<T> {
        let found = Found::Cut(self.left(), self.at(), self.section);
        read.ok_or(self.spot.stop(field, found, Wanted::Bytes(size)))
    }

    /// A number of a byte.
    pub(super) fn u8(&mut self, field: Words) -> Read<u8> {
        let read = self.cursor.u8();
        self.some(read, field, 1)
    }

    /// A number of two bytes.
    pub(super) fn u16(&mut self, field: Words) -> Read<u16> {
        let read = self.cursor.u16();
        self.some(read, field, 2)
    }

    /// A number of eight bytes.
    pub(super) fn u64(&mut self, field: Words) -> Read<u64> {
        let read = self.cursor.u64();
        self.some(read, field, 8)
    }

    /// An offset of a width.
    pub(super) fn offset(&mut self, width: Width, field: Words) -> Read<u64> {
        let read = self.cursor.offset(width);
        self.some(read, field, width.size() as u64)
    }

    /// The next `size` bytes.
    pub(super) fn take(&mut self, size: u64, field: Words) -> Read<&'a [u8]> {
        let read = self.cursor.take(size as usize);
        self.some(read, field, size)
    }

    /// An unsigned LEB128 number.
    pub(super) fn uleb(&mut self, field: Words) -> Read<u64> {
        match self.value(Field::Named(field), DW_FORM_udata, None, Width::Four)? {
            Value::Unsigned(number) => Ok(number),
            _ => Ok(0),
        }
    }

    /// Passes over a signed LEB128 number.
    pub(super) fn pass_sleb(&mut self, field: Words) -> Read<()> {
        let _ = self.value(Field::Named(field), DW_FORM_sdata, None, Width::Four)?;
        Ok(())
    }

    /// The value of a form, where offsets have a width.
    pub(super) fn value(
        &mut self,
        field: Field,
        form: u64,
        implicit: Option<i64>,
        width: Width,
    ) -> Read<Value<'a>> {
        match read_value(&mut self.cursor, form, implicit, width) {
            Ok(value) => Ok(value),
            Err(fault) => Err(self.unreadable(field, fault)),
        }
    }

    /// A stop at a field whose value can't be read, by the fault of its form.
    fn unreadable(&self, field: Field, fault: FormFault) -> Stop {
        let (what, wanted) = match fault {
            FormFault::End => ("cut", "a value that is all there"),
            FormFault::Form => ("of an unknown form", "a form of DWARF 5"),
            FormFault::Wide => ("above 64 bits", "a number of at most 64 bits"),
            FormFault::Memory | FormFault::Code => return Stop::Memory,
        };
        Stop::For(Reason {
            spot: self.spot,
            field,
            found: Found::Unreadable(what, self.at(), self.section),
            wanted: Wanted::Words(wanted),
        })
    }

    /// The length of a unit or a table, which has to be all there, and the width of its offsets.
    pub(super) fn length(&mut self) -> Read<(u64, Width)> {
        let read = self.cursor.initial_length();
        let Initial::Bytes(length, width) = self.some(read, LENGTH, 4)? else {
            let found = Found::Words("0xfffffff0 or above");
            return Err(self.stop(LENGTH, found, "a length that isn't reserved"));
        };
        if length <= self.left() {
            return Ok((length, width));
        }
        let wanted = Wanted::Left(self.left(), self.section);
        Err(self.spot.stop(LENGTH, Found::Number(length), wanted))
    }
}
