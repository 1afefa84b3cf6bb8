//! A place in a piece of bytes, from which numbers, pieces and texts are read.

ghost use Rattle.std.specs.Prelude.{◌≡◌, ◌==◌, length, position};
ghost use Rattle.dw_model.specs.Reading.{Place, start, number_at, bytes_at, text_at};
ghost use Rattle.dw_model.specs.InitialLength.{initial_length};
ghost use Rattle.dw_model.specs.Leb.{uleb_at, sleb_at};
ghost use Rattle.dw_model.specs.Answers.{Reads, ReadsOrTells};
ghost use Rattle.dw_bytes.specs.Leb.{leb_fault};
ghost use Rattle.dw_bytes.specs.Width.{initial_shown, size_of};

use crate::leb::{Leb, last_byte, long_uleb, signed};
use crate::width::{Initial, Width};
use byteorder::{ByteOrder, LittleEndian};
use dw_model::dwarf::{DW_LENGTH_64BIT, DW_LENGTH_RESERVED};
use memchr::memchr;
use std::marker::Model;

/// A place in a piece of bytes. Contracts see it as a `Place`: how many bytes it has passed, and
/// which are left.
///
/// Each call reads what is at the place and moves just past it. A call that returns `None` leaves
/// the place as it was. None of them takes memory.
#[derive(Debug, Drop)]
pub struct Cursor<'a> {
    left: &'a [u8],
    passed: usize,
}

impl<'a> Model for Cursor<'a> {
    ghost use Rattle.std.specs.Prelude.{◌+◌, ◌<◌, ◌^◌, length};
    ghost use Rattle.dw_model.specs.Reading.{Place};

    ghost Value = { Place };

    ghost view = { λ c. record { at = c.passed; left = c.left.now } };

    ghost invariant = { λ c. c.passed + length c.left.now < 2 ^ 64 };
}

impl<'a> Cursor<'a> {
    /// The place before the first of the bytes.
    pub fn new(bytes: &'a [u8]) -> Self
        ensures { result ≡ start bytes.now }
    {
        Cursor {
            left: bytes,
            passed: 0,
        }
    }

    /// How many bytes it has passed: the offset of the next byte from the first of those that
    /// `new` was given.
    pub fn at(&self) -> usize
        ensures { result ≡ self.now.at }
    {
        self.passed
    }

    /// How many bytes are left.
    pub fn left(&self) -> usize
        ensures { result ≡ length self.now.left }
    {
        self.left.len()
    }

    /// Another cursor at the same place.
    pub fn fork(&self) -> Self
        ensures { result ≡ self.now }
    {
        Cursor {
            left: self.left,
            passed: self.passed,
        }
    }

    /// An unsigned number of one byte. `None` where no byte is left.
    #[inline(always)]
    pub fn u8(&mut self) -> Option<u8>
        ensures { Reads (λ x. x) result (number_at 1 self.old) self.old self.new }
    {
        let byte = self.take(1)?;
        Some(byte[0])
    }

    /// An unsigned number of two bytes, the lowest first. `None` where fewer are left.
    #[inline(always)]
    pub fn u16(&mut self) -> Option<u16>
        ensures { Reads (λ x. x) result (number_at 2 self.old) self.old self.new }
    {
        let bytes = self.take(2)?;
        Some(LittleEndian::read_u16(bytes))
    }

    /// An unsigned number of three bytes, the lowest first. `None` where fewer are left.
    #[inline(always)]
    pub fn u24(&mut self) -> Option<u32>
        ensures { Reads (λ x. x) result (number_at 3 self.old) self.old self.new }
    {
        let bytes = self.take(3)?;
        Some(LittleEndian::read_u24(bytes))
    }

    /// An unsigned number of four bytes, the lowest first. `None` where fewer are left.
    #[inline(always)]
    pub fn u32(&mut self) -> Option<u32>
        ensures { Reads (λ x. x) result (number_at 4 self.old) self.old self.new }
    {
        let bytes = self.take(4)?;
        Some(LittleEndian::read_u32(bytes))
    }

    /// An unsigned number of eight bytes, the lowest first. `None` where fewer are left.
    #[inline(always)]
    pub fn u64(&mut self) -> Option<u64>
        ensures { Reads (λ x. x) result (number_at 8 self.old) self.old self.new }
    {
        let bytes = self.take(8)?;
        Some(LittleEndian::read_u64(bytes))
    }

    /// An offset of a width. `None` where fewer bytes are left.
    #[inline(always)]
    pub fn offset(&mut self, width: Width) -> Option<u64>
        ensures { Reads (λ x. x) result (number_at (size_of width) self.old) self.old self.new }
    {
        match width {
            Width::Four => Some(self.u32()? as u64),
            Width::Eight => self.u64(),
        }
    }

    /// An initial length (section 7.4): four bytes, and eight more where they are the escape of the
    /// 64-bit format. `None` where fewer are left.
    #[tactic(auto, unfolding(dw_model::specs::InitialLength::initial_length))]
    pub fn initial_length(&mut self) -> Option<Initial>
        ensures { Reads initial_shown result (initial_length self.old) self.old self.new }
    {
        let mut ahead = self.fork();
        let length = ahead.u32()?;
        if length == DW_LENGTH_64BIT {
            let length = ahead.u64()?;
            *self = ahead;
            return Some(Initial::Bytes(length, Width::Eight));
        }
        *self = ahead;
        if length >= DW_LENGTH_RESERVED {
            return Some(Initial::Reserved);
        }
        Some(Initial::Bytes(length as u64, Width::Four))
    }

    /// The next `n` bytes, as a slice of those that `new` was given. `None` where fewer are left.
    #[inline(always)]
    pub fn take(&mut self, n: usize) -> Option<&'a [u8]>
        ensures { Reads (λ bytes. bytes.now) result (bytes_at n self.old) self.old self.new }
    {
        let Cursor { left, passed } = self;
        if left.len() < n {
            return None;
        }
        let (front, rest) = left.split_at(n);
        *left = rest;
        *passed += n;
        Some(front)
    }

    /// The bytes before the next zero byte, which is passed. `None` where no zero byte is left.
    pub fn text(&mut self) -> Option<&'a [u8]>
        ensures { Reads (λ bytes. bytes.now) result (text_at self.old) self.old self.new }
    {
        let len = zero_position(self.left)?;
        let text = self.take(len + 1)?;
        Some(&text[..len])
    }

    /// An unsigned LEB128 number (section 7.6), in any spelling. `End` where the bytes stop before
    /// it does, else `Wide` where it doesn't fit 64 bits.
    #[tactic(auto, unfolding(dw_model::specs::Leb::uleb_at))]
    #[inline(always)]
    pub fn uleb(&mut self) -> Result<u64, Leb>
        ensures { ReadsOrTells (λ x. x) leb_fault result (uleb_at self.old) self.old self.new }
    {
        let Cursor { left, passed } = self;
        // Most numbers have one byte.
        if left.is_empty() || left[0] >= 128 {
            let (value, size) = long_uleb(left)?;
            let (_, rest) = left.split_at(size);
            *left = rest;
            *passed += size;
            return Ok(value);
        }
        let (front, rest) = left.split_at(1);
        let value = (front[0] % 128) as u64;
        *left = rest;
        *passed += 1;
        Ok(value)
    }

    /// A signed LEB128 number (section 7.6), in any spelling. `End` where the bytes stop before it
    /// does, else `Wide` where it doesn't fit 64 bits.
    #[tactic(auto, unfolding(dw_model::specs::Leb::sleb_at))]
    #[inline(always)]
    pub fn sleb(&mut self) -> Result<i64, Leb>
        ensures { ReadsOrTells (λ x. x) leb_fault result (sleb_at self.old) self.old self.new }
    {
        let Cursor { left, passed } = self;
        let last = last_byte(left).ok_or(Leb::End)?;
        let (front, rest) = left.split_at(last + 1);
        let value = signed(front).ok_or(Leb::Wide)?;
        *left = rest;
        *passed += last + 1;
        Ok(value)
    }
}

/// The index of the first zero byte. It isn't inlined, so that the reads of other values stay
/// small.
#[tactic(auto, using(crate::proofs::ZeroLemmas::first_zero))]
#[inline(never)]
fn zero_position(bytes: &[u8]) -> Option<usize>
    ensures { result ≡ position (λ byte. byte == 0) bytes.now }
{
    memchr(0, bytes)
}
