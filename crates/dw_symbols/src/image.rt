//! A file that is open: its units, and which of them answers an address.

ghost use Rattle.std.specs.Prelude.{◌≡◌, ◌≤◌, None, OnOk, IfOk, IfErr, IfSome, option_map};
ghost use Rattle.dw_model.specs.Section.{sections, elf_refusal};
ghost use Rattle.dw_model.specs.Answer.{unit_of};
ghost use Rattle.dw_symbols.specs.Owners.{AreEnough, most_kept};
ghost use Rattle.dw_model.specs.Refusal.{refusal};
ghost use Rattle.dw_elf.specs.OpenFault.{RefusesUnlessMemory, HidesNoRefusal};

use crate::image_unit::ImageUnit;
use crate::unit_ranges::{UNITS, unit_ranges};
use crate::unit_walk::UnitWalk;
use dw_elf::{Elf, Name, OpenFault};
use dw_ranges::Owners;
use dw_units::Units;
use std::alloc::{AllocError, Global};
use std::marker::Model;
use std::sync::Arc;

/// A file whose addresses can be asked for. Contracts see its bytes.
#[derive(Drop)]
pub struct Image<'a> {
    file: &'a [u8],
    /// .debug_line
    line: &'a [u8],
    /// What is read of its units keeps them too.
    units: Arc<Units<'a>>,
    /// The places of the units that answer addresses.
    cover: Owners<'a>,
}

impl<'a> Model for Image<'a> {
    ghost use Rattle.std.specs.Prelude.{List, ℕ};
    ghost use Rattle.std.specs.Coded.{coded_list, coded_ℕ};
    ghost use Rattle.dw_symbols.specs.Image.{file_of, IsOpen};

    ghost Value = { List ℕ };

    ghost coded = { coded_list coded_ℕ };

    ghost view = { file_of };

    ghost invariant = { IsOpen };
}

impl<'a> Image<'a> {
    ghost use Rattle.dw_symbols.specs.ImageUnit.{unit_in};

    /// Opens a file: tests its sections, cuts it into units, reads their first entries and the
    /// ranges of these. Nothing of the file is copied.
    ///
    /// The error is the first condition that fails, or `Memory` where an allocation was refused;
    /// that is told only of a file whose header, sections and their compression fail no condition.
    #[tactic(auto, unfolding(dw_model::specs::Refusal::refusal))]
    pub fn open(alloc: Global, file: &'a [u8]) -> Result<Self, OpenFault>
        ensures file { IfOk result (λ image. image ≡ file.now) }
        ensures accepted { OnOk result (refusal file.now ≡ None) }
        ensures refused { IfErr result (λ fault. RefusesUnlessMemory fault (refusal file.now)) }
        ensures memory { IfErr result (λ fault. HidesNoRefusal fault (elf_refusal file.now)) }
    {
        let elf = Elf::open(file)?;
        let units = Units::read(alloc, &elf)?;
        let claims = unit_ranges(alloc, &units)?;
        let cover = Owners::build(alloc, claims)?;
        let shared = Arc::new(alloc, units)?;
        Ok(Image {
            file,
            line: elf.section(Name::DebugLine),
            units: shared,
            cover,
        })
    }

    /// Its units.
    pub(crate) fn units(&self) -> &Units<'a>
        ensures { result.now ≡ sections self.now }
    {
        &self.units
    }

    /// The same, for what is read of them and keeps them.
    pub(crate) fn shared_units(&self) -> &Arc<Units<'a>>
        ensures { result.now.value ≡ sections self.now }
    {
        &self.units
    }

    /// Its .debug_line.
    pub(crate) fn line(&self) -> &'a [u8]
        ensures { result.now ≡ (sections self.now).line }
    {
        self.line
    }

    /// The unit that answers an address: of those that cover it, the first.
    pub(crate) fn unit_at(&self, a: u64) -> Option<ImageUnit<'_, 'a>>
        ensures unit { option_map unit_in result ≡ unit_of (sections self.now) a }
        ensures image { IfSome result (λ unit. unit.image.now ≡ self.now) }
    {
        let index = self.cover.find(self.units.tables(), UNITS, a)?;
        Some(ImageUnit { image: self, index })
    }

    /// A walk over the units that answer addresses, from one border to the next.
    pub(crate) fn walk(&self, alloc: Global) -> Result<UnitWalk<'_, 'a>, AllocError>
        ensures { IfOk result (λ walk. walk ≡ self.now) }
    {
        UnitWalk::new(alloc, self, &self.cover)
    }

    /// How many ranges are kept, and lists of ranges are held, to find the unit of an address:
    /// ranges of lists at most a third of the bytes of .debug_rnglists, and a range or a list of
    /// each other unit. So memory stays in proportion to the file, however many units name one
    /// list.
    pub fn kept(&self) -> usize
        ensures few { result ≤ most_kept (sections self.now) }
        ensures enough { AreEnough (sections self.now) result }
    {
        self.cover.size()
    }

    /// The bytes of the file.
    pub fn bytes(&self) -> &'a [u8]
        ensures { result.now ≡ self.now }
    {
        self.file
    }
}
