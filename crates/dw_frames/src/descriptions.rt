//! What was told of functions, kept for the next time that they are asked for.

ghost use Rattle.std.specs.Prelude.{◌≡◌, [], IfSome};
ghost use Rattle.dw_frames.specs.Told.{described_shown};
ghost use Rattle.dw_frames.specs.Tree.{told_at};
ghost use Rattle.dw_frames.specs.Descriptions.{AreTold, id_in};
ghost use Rattle.dw_frames.specs.UnitIn.{UnitIn};

use crate::function::Described;
use std::alloc::Global;

/// What was told of the functions of a unit that were asked for, each with the offset of its entry
/// in .debug_info.
#[derive(Drop)]
pub(crate) struct Descriptions<'a> {
    /// Where what was told of each function is in the list, at the numbers of their order.
    places: Vec<u32>,
    pub(crate) list: Vec<(u64, Described<'a>)>,
}

impl<'a> Descriptions<'a> {
    /// Nothing was told yet.
    pub(crate) fn new(alloc: Global) -> Self
        ensures { result.list.items ≡ [] }
    {
        Descriptions {
            places: Vec::new(alloc),
            list: Vec::new(alloc),
        }
    }

    /// Makes room for so many functions, unless it is there. Where an allocation is refused nothing
    /// is kept.
    pub(crate) fn make_room(&mut self, functions: usize)
        ensures { self.new.list ≡ self.old.list }
    {
        if !self.places.is_empty() {
            return;
        }
        match self.places.resize(functions, 0) {
            Ok(()) => {}
            Err(_) => {}
        }
    }

    /// What was told of the function of a number, where its entry is at this offset.
    pub(crate) fn get(&self, number: usize, offset: u64) -> Option<Described<'a>>
        ensures { (of : UnitIn) → AreTold of self.now.list.items
            → IfSome result (λ told. described_shown told ≡ told_at of (id_in of offset)) }
    {
        let place = self.places.get(number)?;
        let kept = self.list.get(*place as usize)?;
        let (at, told) = *kept;
        if at == offset {
            return Some(told);
        }
        None
    }

    /// Keeps what is told of the function of a number, where there is room.
    pub(crate) fn put(&mut self, number: usize, offset: u64, told: Described<'a>)
        ensures { (of : UnitIn) → AreTold of self.old.list.items
            → described_shown told.entry ≡ told_at of (id_in of offset) → AreTold of self.new.list.items }
    {
        let Ok(place) = u32::try_from(self.list.len()) else {
            return;
        };
        let Some(slot) = self.places.get_mut(number) else {
            return;
        };
        match self.list.push((offset, told)) {
            Ok(()) => *slot = place,
            Err(_) => {}
        }
    }
}
