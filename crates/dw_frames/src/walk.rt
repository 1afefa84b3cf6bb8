//! All entries of a unit, of which the functions are kept.

ghost use Rattle.std.specs.Prelude.{◌≡◌, List, Some, OnOk, IfOk, length};
ghost use Rattle.dw_model.specs.Tree.{Node};
ghost use Rattle.dw_units.specs.Entries.{WalksFrom};
ghost use Rattle.dw_units.specs.OpenUnit.{sections_of, unit_of};
ghost use Rattle.dw_frames.specs.Drafts.{no_drafts};
ghost use Rattle.dw_frames.specs.Known.{Knows};
ghost use Rattle.dw_frames.specs.Placed.{Follows};
ghost use Rattle.dw_frames.specs.Reader.{nodes_on, read_into, FollowsOn, FollowsAll};
ghost use Rattle.dw_frames.specs.UnitIn.{unit_in};

use crate::drafts::Drafts;
use crate::fault::TreeFault;
use crate::reader::Reader;
use dw_ranges::ListIndexes;
use dw_units::{Entries, Next, OpenUnit};
use std::alloc::Global;
use std::mem;

/// Reads entries until the list below the unit's first one has ended, or the unit has.
fn read_below<'b, 'a>(
    reader: &mut Reader<'b, 'a>,
    entries: &mut Entries<'b, 'a>,
    drafts: &mut Drafts<'b, 'a>,
) -> Result<(), TreeFault>
    requires { Knows reader.now drafts.now }
    ensures declarations { OnOk result (entries.new.declarations ≡ entries.old.declarations) }
    ensures reader { reader.new.of ≡ reader.old.of }
    ensures of { OnOk result (drafts.new.of ≡ reader.old.of) }
    ensures follows { (before : List Node)
        → Follows reader.old.of.sections reader.old.of.unit before drafts.old entries.old.place.at → FollowsOn
        reader.old.of before (nodes_on reader.old.of entries.old (length drafts.old.lists)) result drafts.new }
{
    while drafts.depth() > 0 && !entries.is_done() {
        let next = entries.next_function()?;
        reader.keep(next, entries, drafts)?;
    }
    Ok(())
}

/// Reads the first entry, which is no null entry, and those below it, into drafts that have none.
fn read_from_first<'b, 'a>(
    reader: &mut Reader<'b, 'a>,
    entries: &mut Entries<'b, 'a>,
    drafts: &mut Drafts<'b, 'a>,
) -> Result<(), TreeFault>
    requires knows { Knows reader.now drafts.now }
    requires none { drafts.now ≡ no_drafts reader.now.of }
    requires walk { WalksFrom reader.now.of.sections reader.now.of.unit (Some entries.now) }
    ensures declarations { OnOk result (entries.new.declarations ≡ entries.old.declarations) }
    ensures reader { reader.new.of ≡ reader.old.of }
    ensures of { OnOk result (drafts.new.of ≡ reader.old.of) }
    ensures follows { FollowsAll reader.old.of (read_into result drafts.new) }
{
    let first = entries.next_function()?;
    if let Next::Null = first {
        return Err(TreeFault::Entry);
    }
    reader.keep(first, entries, drafts)?;
    read_below(reader, entries, drafts)
}

/// Reads the entries of a unit by a walk that begins at its first one, and keeps its functions.
pub(crate) fn read_all<'b, 'a>(
    alloc: Global,
    unit: OpenUnit<'b, 'a>,
    entries: &mut Entries<'b, 'a>,
    indexes: &mut ListIndexes<'a>,
) -> Result<Drafts<'b, 'a>, TreeFault>
    requires walk { WalksFrom (sections_of unit) (unit_of unit) (Some entries.old) }
    requires tables { indexes.old ≡ (sections_of unit).tables }
    ensures tables { indexes.new ≡ indexes.old }
    ensures declarations { OnOk result (entries.new.declarations ≡ entries.old.declarations) }
    ensures of { IfOk result (λ drafts. drafts.of ≡ unit_in unit.entry) }
    ensures follows { FollowsAll (unit_in unit.entry) result }
{
    let none = ListIndexes::new(alloc, unit.units().tables());
    let mut reader = Reader::new(alloc, unit, mem::replace(indexes, none));
    let mut drafts = Drafts::new(alloc, unit);
    let read = read_from_first(&mut reader, entries, &mut drafts);
    *indexes = reader.into_indexes();
    read?;
    Ok(drafts)
}
