//! One value for a unit of a file that is open.

ghost use Rattle.std.specs.Prelude.{◌<◌, length};
ghost use Rattle.dw_model.specs.Section.{sections};
ghost use Rattle.dw_model.specs.Unit.{units};

use crate::image::Image;
use dw_units::{OpenUnit, Units};
use std::sync::Arc;

/// A unit of a file that is open. Contracts see the sections of the file (`sections_in`) and the
/// unit (`unit_in`).
#[derive(Clone, Copy)]
pub(crate) struct ImageUnit<'b, 'a> {
    pub(crate) image: &'b Image<'a>,
    pub(crate) index: usize,
    ghost within: { index < length (units (sections image.now).info) },
}

/// The unit that answers some addresses, if one does, and where they end.
#[derive(Clone, Copy)]
pub(crate) struct Covered<'b, 'a> {
    pub(crate) unit: Option<ImageUnit<'b, 'a>>,
    pub(crate) until: u64,
}

impl<'b, 'a> ImageUnit<'b, 'a> {
    ghost use Rattle.std.specs.Prelude.{◌≡◌};
    ghost use Rattle.dw_units.specs.OpenUnit.{sections_of, unit_of};
    ghost use Rattle.dw_symbols.specs.ImageUnit.{sections_in, unit_in};

    /// The same unit, from which its entries are read.
    #[inline(always)]
    pub(crate) fn open(self) -> OpenUnit<'b, 'a>
        ensures sections { sections_of result ≡ sections_in self.entry }
        ensures unit { unit_of result ≡ unit_in self.entry }
    {
        self.image.units().at(self.index)
    }

    /// The units of the file, for what is read of them and keeps them.
    pub(crate) fn shared_units(self) -> &'b Arc<Units<'a>>
        ensures { result.now.value ≡ sections_in self.entry }
    {
        self.image.shared_units()
    }

    /// The .debug_line of the file.
    pub(crate) fn line(self) -> &'a [u8]
        ensures { result.now ≡ (sections_in self.entry).line }
    {
        self.image.line()
    }

    /// Where it begins in .debug_info.
    pub(crate) fn offset(self) -> u64
        ensures { result ≡ (unit_in self.entry).offset }
    {
        self.open().unit().offset
    }
}
