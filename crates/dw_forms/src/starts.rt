//! Where each declaration begins that was read of .debug_abbrev.

ghost use Rattle.std.specs.Prelude.{◌≡◌, ◌≤◌, ◌+◌, ℕ, [], IfOk, OnOk, OnErr, length, vec_capacity, vec_len};
ghost use Rattle.dw_forms.specs.Starts.{start_at, AreAdded, AreApart, AreBelow, AreGrouped};
ghost use Rattle.dw_forms.specs.Starts.{AreGrown, AreLinked, AreRising};

use crate::run::{Run, Start};
use std::alloc::{AllocError, Global};
use std::marker::Model;

/// How many bytes of .debug_abbrev a group has. Declarations of compilers have some twenty.
const GROUP: usize = 32;

/// How many groups there are up to the last offset of a run.
fn groups_of(read: &Run<'_>) -> usize
    requires { AreRising read.now.offsets }
    ensures enough { AreGrouped result read.now.offsets }
    ensures least { (groups : ℕ) → AreGrouped groups read.now.offsets → result ≤ groups }
{
    match read.len().checked_sub(1) {
        None => 0,
        Some(last) => read.offset(last) / GROUP + 1,
    }
}

/// Makes room for so many groups.
fn make_room(heads: &mut Vec<usize>, groups: usize) -> Result<(), AllocError>
    ensures grown { AreGrown heads.old.items heads.new.items }
    ensures room { OnOk result (groups ≤ length heads.new.items) }
{
    if groups > heads.len() {
        heads.resize(groups, 0)?;
    }
    Ok(())
}

/// Adds where each declaration of a run begins.
fn append(
    list: &mut Vec<(usize, Start)>,
    heads: &mut Vec<usize>,
    before: &mut Vec<usize>,
    read: &Run<'_>,
    run: usize,
)
    requires apart { AreApart list.now.items read.now.offsets }
    requires rising { AreRising read.now.offsets }
    requires grouped { AreGrouped (length heads.now.items) read.now.offsets }
    requires room { vec_len list.now + length read.now.offsets ≤ vec_capacity list.now }
    requires links { vec_len before.now + length read.now.offsets ≤ vec_capacity before.now }
    requires linked { AreLinked heads.now.items before.now.items list.now.items }
    ensures added { AreAdded run (length read.now.offsets) read.now.offsets list.old.items list.new.items }
    ensures linked { AreLinked heads.new.items before.new.items list.new.items }
{
    for index in 0..read.len() {
        let offset = read.offset(index);
        let group = offset / GROUP;
        before.push_reserved(heads[group]);
        list.push_reserved((offset, Start { run, index }));
        heads[group] = list.len();
    }
}

/// The offsets at which declarations begin. Contracts see a list of these, each with its start.
#[derive(Drop)]
pub(crate) struct Starts {
    list: Vec<(usize, Start)>,
    /// For each group of offsets, the place in the list of its last start, from 1 on; 0 for none.
    heads: Vec<usize>,
    /// For each start, the place of the one before it in its group, from 1 on; 0 for none.
    before: Vec<usize>,
}

impl Model for Starts {
    ghost use Rattle.dw_forms.specs.Starts.{AreLinked, StartList};

    ghost Value = { StartList };

    ghost view = { λ starts. starts.list.items };

    ghost invariant = { λ starts. AreLinked starts.heads.items starts.before.items starts.list.items };
}

impl Starts {
    /// There are none yet.
    pub(crate) fn new(alloc: Global) -> Self
        ensures { result ≡ [] }
    {
        Starts {
            list: Vec::new(alloc),
            heads: Vec::new(alloc),
            before: Vec::new(alloc),
        }
    }

    /// The start at an offset.
    pub(crate) fn get(&self, offset: usize) -> Option<Start>
        ensures { result ≡ start_at self.now offset }
    {
        let mut place = *self.heads.get(offset / GROUP)?;
        while let Some(index) = place.checked_sub(1) {
            let (key, start) = self.list[index];
            if key == offset {
                return Some(start);
            }
            place = self.before[index];
        }
        None
    }

    /// How many there are. If all are below an end, there are at most as many as the end says.
    pub(crate) fn len(&self) -> usize
        ensures count { result ≡ length self.now }
        ensures bound { (end : ℕ) → AreBelow end self.now → result ≤ end }
    {
        self.list.len()
    }

    /// Adds where each declaration of a run begins; after an error nothing was added.
    pub(crate) fn add(&mut self, read: &Run<'_>, run: usize) -> Result<(), AllocError>
        requires apart { AreApart self.now read.now.offsets }
        requires rising { AreRising read.now.offsets }
        ensures added { OnOk result (AreAdded run (length read.now.offsets) read.now.offsets self.old self.new) }
        ensures undone { OnErr result (self.new ≡ self.old) }
    {
        let count = read.len();
        make_room(&mut self.heads, groups_of(read))?;
        self.list.reserve(count)?;
        self.before.reserve(count)?;
        append(&mut self.list, &mut self.heads, &mut self.before, read, run);
        Ok(())
    }
}
