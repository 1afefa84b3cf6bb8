//! The units that answer the addresses of a span, from one border to the next.

ghost use Rattle.std.specs.Prelude.{◌≡◌, ◌≤◌, ◌<◌, ℕ, IfOk, IfSome, OnOk, option_map};
ghost use Rattle.dw_model.specs.Section.{sections};
ghost use Rattle.dw_model.specs.Steady.{last_address};
ghost use Rattle.dw_symbols.specs.Owners.{FindsUnits};
ghost use Rattle.dw_symbols.specs.Image.{FindsPlaces};
ghost use Rattle.dw_symbols.specs.ImageUnit.{IsUnitOf, unit_in};
ghost use Rattle.dw_symbols.specs.Parts.{AreFirstParts};

use crate::image::Image;
use crate::image_unit::{Covered, ImageUnit};
use crate::span::Span;
use dw_ranges::{Found, Owners, Window};
use std::alloc::{AllocError, Global};
use std::marker::Model;

/// A part of a span: one unit answers all of its addresses, or none does.
#[derive(Clone, Copy)]
pub(crate) struct Part<'b, 'a> {
    pub(crate) unit: Option<ImageUnit<'b, 'a>>,
    pub(crate) span: Span,
}

/// The lesser of two addresses.
fn lesser(a: u64, b: u64) -> u64
    ensures first { result ≤ a }
    ensures second { result ≤ b }
    ensures above { (c : ℕ) → c < a → c < b → c < result }
{
    if a <= b { a } else { b }
}

/// A walk over the units that answer addresses. Contracts see the bytes of the file.
#[derive(Drop)]
pub(crate) struct UnitWalk<'b, 'a> {
    image: &'b Image<'a>,
    cover: &'b Owners<'a>,
    alloc: Global,
    /// What was found of the units that are held by their lists.
    window: Window,
}

impl<'b, 'a> Model for UnitWalk<'b, 'a> {
    ghost use Rattle.std.specs.Prelude.{List, ℕ};
    ghost use Rattle.dw_symbols.specs.UnitWalk.{file_in, IsWalk};

    ghost Value = { List ℕ };

    ghost view = { file_in };

    ghost invariant = { IsWalk };
}

impl<'b, 'a> UnitWalk<'b, 'a> {
    /// A walk over the units of a file that is open, which are found by this cover.
    pub(crate) fn new(
        alloc: Global,
        image: &'b Image<'a>,
        cover: &'b Owners<'a>,
    ) -> Result<Self, AllocError>
        requires finds { FindsUnits (sections image.now) cover.now }
        requires within { FindsPlaces (sections image.now) cover.now }
        ensures { IfOk result (λ walk. walk ≡ image.now) }
    {
        let window = Window::none(alloc)?;
        Ok(UnitWalk {
            image,
            cover,
            alloc,
            window,
        })
    }

    /// The unit that answers an address, and up to where it answers all addresses, or none does.
    pub(crate) fn next(&mut self, a: u64) -> Result<Covered<'b, 'a>, AllocError>
        requires { a < last_address }
        ensures file { self.new ≡ self.old }
        ensures after { IfOk result (λ found. a < found.until) }
        ensures unit { IfOk result (λ found. IsUnitOf (sections self.old) (option_map unit_in found.unit)
            a found.until) }
        ensures image { IfOk result (λ found. IfSome found.unit (λ unit. unit.image.now ≡ self.old)) }
    {
        let (image, tables) = (self.image, self.image.units().tables());
        let found = self
            .cover
            .find_from(self.alloc, tables, &mut self.window, a)?;
        let Found { owner, until } = found;
        let unit = match owner {
            Some(index) => Some(ImageUnit { image, index }),
            None => None,
        };
        Ok(Covered { unit, until })
    }

    /// Finds the first parts of a span, one after the other: `most` at most, but one at least. They
    /// replace those in `parts`; after an error, `parts` may lack some.
    pub(crate) fn find_parts(
        &mut self,
        span: Span,
        most: usize,
        parts: &mut Vec<Part<'b, 'a>>,
    ) -> Result<(), AllocError>
        requires some { span.low < span.high }
        ensures file { self.new ≡ self.old }
        ensures parts { OnOk result (AreFirstParts self.old span parts.new.items) }
    {
        parts.clear();
        let mut at = span.low;
        while at < span.high {
            let covered = self.next(at)?;
            let high = lesser(covered.until, span.high);
            parts.push(Part {
                unit: covered.unit,
                span: Span { low: at, high },
            })?;
            at = high;
            if parts.len() >= most {
                return Ok(());
            }
        }
        Ok(())
    }
}
