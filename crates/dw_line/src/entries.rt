//! The lists of directories and of files, by section 6.2.4.1 of DWARF 5.

ghost use Rattle.std.specs.Prelude.{◌≡◌, ◌∷◌, [], ℕ, None, Ok, IfOk, IfSome, map, option_map, replicate};
ghost use Rattle.std.specs.Option.{option_map_or};
ghost use Rattle.dw_model.specs.LineHeader.{formats_at, contents_at, entries_at, entry_list, as_directory};
ghost use Rattle.dw_model.specs.Reading.{Place};
ghost use Rattle.dw_model.specs.Text as model;
ghost use Rattle.dw_model.specs.Answers.{ReadsOn, ReadsUnlessMemory};
ghost use Rattle.dw_bytes.specs.Width.{size_of};
ghost use Rattle.dw_forms.specs.Value.{value_shown};
ghost use Rattle.dw_line.specs.Fault.{line_fault};
ghost use Rattle.dw_line.specs.Header.{format_shown, contents_shown, used_of, used_at, entry_in, entry_shown};
ghost use Rattle.dw_line.specs.Header.{entries_shown, long_list_shown, place_behind, placed};

use crate::entry_list::{EntryList, LongList};
use crate::fault::LineFault;
use crate::numbers::{uleb, value};
use dw_bytes::{Cursor, Width};
use dw_forms::Value;
use dw_model::dwarf::{DW_FORM_flag_present, DW_LNCT_directory_index, DW_LNCT_path};
use smallvec::SmallVec;
use std::alloc::{AllocError, Global};

/// How many values a list may have whose entries are kept as they are read. Of a longer list, which
/// compilers hardly make, only the places are kept, which takes a tenth of the time.
const MANY: u64 = 8192;

/// What is in each entry of a list: a content type, a DW_LNCT code, in a form, a DW_FORM code.
#[derive(Clone, Copy, Debug, Default, PartialEq, Eq)]
pub(crate) struct Format {
    pub(crate) content: u64,
    pub(crate) form: u64,
}

/// The values of an entry that are used: the first of each of their content types.
#[derive(Clone, Copy, Debug, Default)]
pub(crate) struct Contents<'a> {
    pub(crate) path: Option<Value<'a>>,
    pub(crate) directory: Option<Value<'a>>,
}

/// A directory or a file. Its path is a value, whose text is looked up when it is asked for, so
/// that reading a list takes no more time than the list is long.
#[derive(Clone, Copy, Debug, Default)]
pub(crate) struct LineEntry<'a> {
    pub(crate) path: Option<Value<'a>>,
    /// The number of its directory.
    pub(crate) directory: u64,
}

/// The next `count` formats.
fn formats_of(
    alloc: Global,
    cursor: &mut Cursor<'_>,
    count: u8,
) -> Result<SmallVec<Format, 8>, LineFault>
    ensures { ReadsUnlessMemory (λ formats. map format_shown formats.items) line_fault result
        (formats_at count cursor.old) cursor.new }
{
    let mut formats = SmallVec::new(alloc);
    for _ in 0..count {
        let content = uleb(cursor)?;
        let form = uleb(cursor)?;
        formats.push(Format { content, form })?;
    }
    Ok(formats)
}

impl<'a> Contents<'a> {
    /// With one more value of the entry.
    #[inline(always)]
    fn with(self, content: u64, value: Value<'a>) -> Self
        ensures { contents_shown result ≡ used_of (contents_shown self.entry)
            ((content, value_shown value.entry) ∷ []) }
    {
        match content {
            DW_LNCT_path => Contents {
                path: self.path.or(Some(value)),
                directory: self.directory,
            },
            DW_LNCT_directory_index => Contents {
                path: self.path,
                directory: self.directory.or(Some(value)),
            },
            _ => self,
        }
    }
}

/// The values that these formats ask for, where offsets have a width.
#[inline(always)]
fn contents_of<'a>(
    cursor: &mut Cursor<'a>,
    formats: &[Format],
    width: Width,
) -> Result<Contents<'a>, LineFault>
    ensures { ReadsOn contents_shown line_fault result
        (used_at (record { path = None; directory = None })
        (contents_at (size_of width) (map format_shown formats.now) cursor.old)) cursor.new }
{
    let mut contents = Contents {
        path: None,
        directory: None,
    };
    for format in formats {
        let value = value(cursor, format.form, width)?;
        contents = contents.with(format.content, value);
    }
    Ok(contents)
}

/// The number of a directory that a value is; 0 where it is no unsigned number.
fn directory_of(value: Option<Value<'_>>) -> u64
    ensures { result ≡ option_map_or as_directory (option_map value_shown value.entry) 0 }
{
    match value {
        Some(Value::Unsigned(number)) => number,
        _ => 0,
    }
}

/// The next `count` entries of a list.
fn entries_of<'a>(
    alloc: Global,
    cursor: &mut Cursor<'a>,
    formats: &[Format],
    count: u64,
    width: Width,
) -> Result<Vec<LineEntry<'a>>, LineFault>
    ensures { (tables : model.Tables) (bases : model.Bases)
        → ReadsUnlessMemory (λ entries. map (entry_shown tables bases) entries.items) line_fault result
        (entries_at tables bases (size_of width) (map format_shown formats.now) count cursor.old) cursor.new }
{
    let mut entries = Vec::new(alloc);
    for _ in 0..count {
        let contents = contents_of(cursor, formats, width)?;
        entries.push(LineEntry {
            path: contents.path,
            directory: directory_of(contents.directory),
        })?;
    }
    Ok(entries)
}

/// The formats whose values take bytes: the others needn't be passed over.
fn formats_with_bytes(alloc: Global, formats: &[Format]) -> Result<SmallVec<Format, 8>, AllocError>
    ensures { IfOk result (λ kept. (size : ℕ) (p : Place)
        → place_behind (contents_at size (map format_shown kept.items) p)
        ≡ place_behind (contents_at size (map format_shown formats.now) p)) }
{
    let mut kept = SmallVec::new(alloc);
    for format in formats {
        if format.form != DW_FORM_flag_present {
            kept.push(*format)?;
        }
    }
    Ok(kept)
}

/// Passes over the values that these formats ask for, where offsets have a width.
#[inline(always)]
fn pass_contents(cursor: &mut Cursor<'_>, formats: &[Format], width: Width) -> Result<(), LineFault>
    ensures { ReadsOn (λ done. done) line_fault result
        (place_behind (contents_at (size_of width) (map format_shown formats.now) cursor.old)) cursor.new }
{
    for format in formats {
        value(cursor, format.form, width)?;
    }
    Ok(())
}

/// How many bytes are before each of the next `count` entries of a list, all of which can be read.
fn places_of(
    alloc: Global,
    cursor: &mut Cursor<'_>,
    formats: &[Format],
    count: u64,
    width: Width,
) -> Result<Vec<usize>, LineFault>
    ensures { (tables : model.Tables) (bases : model.Bases)
        → ReadsUnlessMemory (λ places. map (λ at. entry_in tables bases (size_of width)
        (map format_shown formats.now) (placed cursor.old at)) places.items) line_fault result
        (entries_at tables bases (size_of width) (map format_shown formats.now) count cursor.old) cursor.new }
{
    let kept = formats_with_bytes(alloc, formats)?;
    let passed = kept.as_slice();
    let mut places = Vec::with_capacity(alloc, count as usize)?;
    for _ in 0..count {
        let at = cursor.at();
        pass_contents(cursor, passed, width)?;
        places.push(at)?;
    }
    Ok(places)
}

/// The next `count` entries, by their places.
fn long_list_of<'a>(
    alloc: Global,
    cursor: &mut Cursor<'a>,
    formats: &[Format],
    count: u64,
    width: Width,
) -> Result<LongList<'a>, LineFault>
    ensures { (tables : model.Tables) (bases : model.Bases)
        → ReadsUnlessMemory (long_list_shown tables bases) line_fault result
        (entries_at tables bases (size_of width) (map format_shown formats.now) count cursor.old) cursor.new }
{
    let mut kept = Vec::with_capacity(alloc, formats.len())?;
    kept.extend_from_slice(formats)?;
    let begin = cursor.fork();
    let places = places_of(alloc, cursor, formats, count, width)?;
    Ok(LongList {
        formats: kept,
        width,
        begin,
        places,
    })
}

/// The entry at a place; one without a path where it can't be read.
pub(crate) fn entry_in<'a>(place: &Cursor<'a>, formats: &[Format], width: Width) -> LineEntry<'a>
    ensures { (tables : model.Tables) (bases : model.Bases) → entry_shown tables bases result
        ≡ entry_in tables bases (size_of width) (map format_shown formats.now) place.now }
{
    let mut ahead = place.fork();
    match contents_of(&mut ahead, formats, width) {
        Ok(contents) => LineEntry {
            path: contents.path,
            directory: directory_of(contents.directory),
        },
        Err(_) => LineEntry {
            path: None,
            directory: 0,
        },
    }
}

/// The entry of which a list consists whose entries take no bytes; `None` where they take some, or
/// can't be read.
fn empty_entry<'a>(cursor: &Cursor<'a>, formats: &[Format], width: Width) -> Option<LineEntry<'a>>
    ensures { IfSome result (λ entry. (tables : model.Tables) (bases : model.Bases) (count : ℕ)
        → entries_at tables bases (size_of width) (map format_shown formats.now) count cursor.now
        ≡ Ok (replicate count (entry_shown tables bases entry), cursor.now)) }
{
    let mut ahead = cursor.fork();
    let Ok(contents) = contents_of(&mut ahead, formats, width) else {
        return None;
    };
    if ahead.left() != cursor.left() {
        return None;
    }
    Some(LineEntry {
        path: contents.path,
        directory: directory_of(contents.directory),
    })
}

/// A list: the number of formats, the formats, the number of entries, and the entries. A list with
/// more entries than bytes are left is bad, so that the file bounds entries that take no bytes.
/// Offsets have a width.
#[tactic(auto, unfolding(dw_model::specs::LineHeader::entry_list))]
pub(crate) fn entry_list_of<'a>(
    alloc: Global,
    cursor: &mut Cursor<'a>,
    width: Width,
) -> Result<EntryList<'a>, LineFault>
    ensures { (tables : model.Tables) (bases : model.Bases)
        → ReadsUnlessMemory (entries_shown tables bases) line_fault result
        (entry_list tables bases (size_of width) cursor.old) cursor.new }
{
    let format_count = cursor.u8().ok_or(LineFault::Bad)?;
    let formats = formats_of(alloc, cursor, format_count)?;
    let count = uleb(cursor)?;
    if count > cursor.left() as u64 {
        return Err(LineFault::Bad);
    }
    if let Some(entry) = empty_entry(cursor, formats.as_slice(), width) {
        return Ok(EntryList::Same(entry, count));
    }
    if count.saturating_mul(formats.len() as u64) > MANY {
        let list = long_list_of(alloc, cursor, formats.as_slice(), count, width)?;
        return Ok(EntryList::Long(list));
    }
    let entries = entries_of(alloc, cursor, formats.as_slice(), count, width)?;
    Ok(EntryList::Each(entries))
}
