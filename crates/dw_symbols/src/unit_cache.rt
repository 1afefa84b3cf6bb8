//! The functions of units that were used last.

ghost use Rattle.std.specs.Prelude.{◌≡◌, false, IfOk, MatchResult};
ghost use Rattle.dw_model.specs.Section.{Sections};
ghost use Rattle.dw_model.specs.Unit.{DwarfUnit, is_skipped};
ghost use Rattle.dw_symbols.specs.ImageUnit.{sections_in, unit_in};
ghost use Rattle.dw_symbols.specs.Kept.{AreTrees, IsTreeAt};
ghost use Rattle.dw_symbols.specs.UnitParts.{AreFunctionsAt, HasTree, HasTreeFault};

use crate::answer::UnitFault;
use crate::image_unit::ImageUnit;
use crate::unit_parts::{UnitTree, read_tree_with};
use dw_frames::Described;
use dw_ranges::ListIndexes;
use lru::LruCache;
use std::alloc::{AllocError, Global};

/// The functions of units by their places, the last used first.
pub(crate) type Trees<'a> = LruCache<usize, UnitTree<'a>>;

/// The functions of a unit that hold an address, innermost first, or why they can't be read.
pub(crate) type UnitFunctions<'a> = Result<Vec<Described<'a>>, UnitFault>;

/// Those of a unit that was read.
fn functions_in<'a>(
    tree: &mut UnitTree<'a>,
    alloc: Global,
    a: u64,
) -> Result<UnitFunctions<'a>, AllocError>
    ensures functions { (s : Sections) (unit : DwarfUnit) → HasTree s unit tree.old → IfOk result (λ found.
        MatchResult found (λ functions. AreFunctionsAt s unit a functions.items) (HasTreeFault s unit)) }
    ensures tree { tree.new ≡ tree.old }
{
    match tree {
        Ok(tree) => Ok(Ok(tree.functions(alloc, a)?)),
        Err(fault) => Ok(Err(*fault)),
    }
}

/// Keeps the functions of the unit at a place.
fn keep<'a>(kept: &mut Trees<'a>, place: usize, tree: UnitTree<'a>) -> Result<(), AllocError>
    ensures { (s : Sections) → AreTrees s kept.old.entries → IsTreeAt s place tree.entry → AreTrees s kept.new.entries }
{
    match kept.put(place, tree) {
        Ok(_) => Ok(()),
        Err(_) => Err(AllocError),
    }
}

/// The functions of a unit, which isn't skipped, that hold an address. They are read where they
/// aren't kept.
pub(crate) fn functions_at<'a>(
    kept: &mut Trees<'a>,
    indexes: &mut ListIndexes<'a>,
    alloc: Global,
    unit: ImageUnit<'_, 'a>,
    a: u64,
) -> Result<UnitFunctions<'a>, AllocError>
    requires kind { is_skipped (unit_in unit).kind ≡ false }
    requires kept { AreTrees (sections_in unit) kept.old.entries }
    requires tables { indexes.old ≡ (sections_in unit).tables }
    ensures tables { indexes.new ≡ indexes.old }
    ensures kept { AreTrees (sections_in unit.entry) kept.new.entries }
    ensures functions { IfOk result (λ found. MatchResult found
        (λ functions. AreFunctionsAt (sections_in unit.entry) (unit_in unit.entry) a functions.items)
        (HasTreeFault (sections_in unit.entry) (unit_in unit.entry))) }
{
    if let Some(tree) = kept.get_mut(&unit.index) {
        return functions_in(tree, alloc, a);
    }
    let mut tree = read_tree_with(alloc, unit.shared_units(), unit.index, indexes)?;
    let found = functions_in(&mut tree, alloc, a)?;
    keep(kept, unit.index, tree)?;
    Ok(found)
}
