//! The pieces of parts of a span that were found before their turn.

ghost use Rattle.std.specs.Prelude.{◌<◌, List, ℕ, IfOk, IfSome, OnOk};
ghost use Rattle.dw_symbols.specs.Parts.{AreFound, ArePiecesOf};
ghost use Rattle.dw_symbols.specs.declared.unit_walk.Part.{Part};

use crate::answer::Piece;
use crate::unit_walk::Part;
use std::alloc::{AllocError, Global};

/// How many bytes a part takes with one piece, but for the text of a path.
const SIZE: usize = 192;

/// The pieces of a part.
#[derive(Debug, Drop)]
pub(crate) struct PartPieces {
    pub(crate) pieces: Vec<Piece>,
}

/// The pieces of parts that were found before their turn, by the parts' indexes.
#[derive(Debug, Drop)]
pub(crate) struct Early {
    found: Vec<Option<PartPieces>>,
    /// For each part the next one of its unit, as far as that is known. No promise rests on it.
    followers: Vec<usize>,
    /// For how many bytes more there is room. No promise rests on it.
    room: usize,
}

/// For each part the index of the next one of its unit; where there is none, 0. A single part has
/// no list.
fn followers_of(
    alloc: Global,
    units: usize,
    parts: &[Part<'_, '_>],
) -> Result<Vec<usize>, AllocError> {
    if parts.len() <= 1 {
        return Ok(Vec::new(alloc));
    }
    let mut followers = vec![in alloc; 0; parts.len()]?;
    let mut last = vec![in alloc; usize::MAX; units]?;
    for (i, part) in parts.iter().enumerate() {
        let Some(unit) = part.unit else {
            continue;
        };
        if let Some(seen) = last.get_mut(unit.index) {
            if let Some(follower) = followers.get_mut(*seen) {
                *follower = i;
            }
            *seen = i;
        }
    }
    Ok(followers)
}

/// How many bytes some pieces take.
fn size_of(pieces: &[Piece]) -> usize {
    let mut size = 0usize;
    for piece in pieces {
        let path = match &piece.location.path {
            Some(path) => path.len(),
            None => 0,
        };
        size = size.saturating_add(path).saturating_add(SIZE);
    }
    size
}

/// How many parts may wait at one time, with a piece each, where there is room for so many bytes.
pub(crate) fn most_parts(room: usize) -> usize {
    room / SIZE
}

impl Early {
    /// No pieces of these parts are found yet. The file has `units` units, and there is room for
    /// `room` bytes of pieces.
    pub(crate) fn new(
        alloc: Global,
        room: usize,
        units: usize,
        parts: &[Part<'_, '_>],
    ) -> Result<Self, AllocError>
        ensures { IfOk result (λ early. (file : List ℕ) (parts : List Part) → AreFound file parts early) }
    {
        let followers = followers_of(alloc, units, parts)?;
        Ok(Early {
            found: Vec::new(alloc),
            followers,
            room,
        })
    }

    /// The next part of the unit of the one at an index, where there is room for its pieces.
    pub(crate) fn follower(&self, i: usize) -> Option<usize>
        ensures { IfSome result (λ next. i < next) }
    {
        let next = *self.followers.get(i)?;
        (next > i && self.room > 0).then_some(next)
    }

    /// Makes room for the pieces of the part at an index.
    fn reach(&mut self, i: usize) -> Result<(), AllocError>
        ensures { OnOk result ((file : List ℕ) (parts : List Part) → AreFound file parts self.old
            → AreFound file parts self.new) }
    {
        while self.found.len() <= i {
            self.found.push(None)?;
        }
        Ok(())
    }

    /// Keeps the pieces of the part at an index.
    pub(crate) fn put(&mut self, i: usize, part: PartPieces) -> Result<(), AllocError>
        ensures { OnOk result ((file : List ℕ) (parts : List Part) → AreFound file parts self.old
            → ArePiecesOf file parts i part → AreFound file parts self.new) }
    {
        self.reach(i)?;
        self.room = self.room.saturating_sub(size_of(&part.pieces));
        if i < self.found.len() {
            self.found[i] = Some(part);
        }
        Ok(())
    }

    /// Takes the pieces of the part at an index, where they were found.
    pub(crate) fn take(&mut self, i: usize) -> Option<PartPieces>
        ensures found { (file : List ℕ) (parts : List Part) → AreFound file parts self.old
            → AreFound file parts self.new }
        ensures part { (file : List ℕ) (parts : List Part) → AreFound file parts self.old
            → IfSome result (ArePiecesOf file parts i) }
    {
        if i >= self.found.len() {
            return None;
        }
        self.found[i].take()
    }
}
