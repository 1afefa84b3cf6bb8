//! A list of directories or of files, as it is kept.

ghost use Rattle.std.specs.Prelude.{◌≡◌, length, slice_get, option_map};
ghost use Rattle.dw_model.specs.Text as model;
ghost use Rattle.dw_line.specs.Header.{entries_shown, entry_shown, long_list_shown, placed};

use crate::entries::{Format, LineEntry, entry_in};
use dw_bytes::{Cursor, Width};

/// A long list: what is in each entry, and where each one is.
#[derive(Debug, Drop)]
pub(crate) struct LongList<'a> {
    pub(crate) formats: Vec<Format>,
    /// That of offsets.
    pub(crate) width: Width,
    /// The place of the first entry.
    pub(crate) begin: Cursor<'a>,
    /// How many bytes of the header are before each entry.
    pub(crate) places: Vec<usize>,
}

impl<'a> LongList<'a> {
    /// The place of the entry with so many bytes before it.
    fn place(&self, at: usize) -> Cursor<'a>
        ensures { result ≡ placed self.now.begin at }
    {
        let mut place = self.begin.fork();
        let _passed = place.take(at.saturating_sub(self.begin.at()));
        place
    }

    /// The entry of a number, from 0 on; `None` where the list has none.
    #[inline(never)]
    fn get(&self, n: u64) -> Option<LineEntry<'a>>
        ensures { (tables : model.Tables) (bases : model.Bases)
            → option_map (entry_shown tables bases) result ≡ slice_get (long_list_shown tables bases self.now) n }
    {
        let at = self.places.get(n as usize)?;
        Some(entry_in(&self.place(*at), &self.formats, self.width))
    }
}

/// A list. Entries that take no bytes are all the same, so one of them is kept with their number:
/// a list takes no more memory than the bytes that spell it, however many entries it counts.
#[derive(Debug, Drop)]
pub(crate) enum EntryList<'a> {
    Each(Vec<LineEntry<'a>>),
    Long(LongList<'a>),
    Same(LineEntry<'a>, u64),
}

impl<'a> EntryList<'a> {
    /// The entry of a number, from 0 on; `None` where the list has none.
    #[inline(always)]
    pub(crate) fn get(&self, n: u64) -> Option<LineEntry<'a>>
        ensures { (tables : model.Tables) (bases : model.Bases)
            → option_map (entry_shown tables bases) result ≡ slice_get (entries_shown tables bases self.now) n }
    {
        match self {
            EntryList::Each(entries) => match entries.get(n as usize) {
                Some(entry) => Some(*entry),
                None => None,
            },
            EntryList::Long(list) => list.get(n),
            EntryList::Same(entry, count) => { if n < *count { Some(*entry) } else { None } }
        }
    }

    /// How many entries the list has.
    pub(crate) fn len(&self) -> usize
        ensures { (tables : model.Tables) (bases : model.Bases)
            → result ≡ length (entries_shown tables bases self.now) }
    {
        match self {
            EntryList::Each(entries) => entries.len(),
            EntryList::Long(list) => list.places.len(),
            EntryList::Same(_, count) => *count as usize,
        }
    }
}
