//! Which unit answers an address, as far as the index tells it.

ghost use Rattle.std.specs.Prelude.{◌≡◌, ◌-◌, ◌<◌, Some, IfSome, length, option_and_then, option_map, slice_get};
ghost use Rattle.dw_model.specs.Section.{sections};
ghost use Rattle.dw_model.specs.Unit.{units};
ghost use Rattle.dw_model.specs.Answer.{unit_of};
ghost use Rattle.dw_symbols.specs.ImageUnit.{sections_in, unit_in};

use crate::image::Image;
use crate::image_unit::ImageUnit;

/// A unit that answers an address.
#[derive(Clone, Copy, Debug, PartialEq, Eq)]
pub struct UnitPlace {
    /// Its place among the units of the file, which are in order of offset.
    pub place: usize,
    /// How many bytes of .debug_info it has, its header among them.
    pub size: u64,
}

/// The place of a unit.
fn place_of(unit: ImageUnit<'_, '_>) -> UnitPlace
    ensures place { result.place < length (units (sections_in unit.entry).info) }
    ensures unit { slice_get (units (sections_in unit.entry).info) result.place ≡ Some (unit_in unit.entry) }
    ensures size { result.size ≡ (unit_in unit.entry).end - (unit_in unit.entry).offset }
{
    let here = unit.open().unit();
    UnitPlace {
        place: unit.index,
        size: here.end.saturating_sub(here.offset),
    }
}

impl<'a> Image<'a> {
    /// How many units the file has.
    pub fn unit_count(&self) -> usize
        ensures { result ≡ length (units (sections self.now).info) }
    {
        self.units().len()
    }

    /// The unit that answers an address: of those that cover it, the first. `None` where no unit
    /// covers it. Nothing of the unit is read.
    pub fn unit_place(&self, a: u64) -> Option<UnitPlace>
        ensures unit { option_and_then (slice_get (units (sections self.now).info))
            (option_map (λ found. found.place) result) ≡ unit_of (sections self.now) a }
        ensures within { IfSome result (λ found. found.place < length (units (sections self.now).info)) }
        ensures size { IfSome result (λ found. IfSome (slice_get (units (sections self.now).info) found.place)
            (λ unit. found.size ≡ unit.end - unit.offset)) }
    {
        let unit = self.unit_at(a)?;
        Some(place_of(unit))
    }
}
