//! Paths of source files, by section 6.2.4 of DWARF 5.

ghost use Rattle.std.specs.Prelude.{◌≡◌, ◌==◌, [], OnOk, option_map, option_and_then, unwrap_or, None};
ghost use Rattle.std.specs.Option.{option_or};
ghost use Rattle.dw_model.specs.Path.{ends_in_slash, joined};
ghost use Rattle.dw_model.specs.Path as model;
ghost use Rattle.dw_model.specs.Text.{text};
ghost use Rattle.dw_forms.specs.Tables.{tables_shown, bases_shown};
ghost use Rattle.dw_forms.specs.Value.{value_shown};
ghost use Rattle.dw_line.specs.Path.{joined_some, header_for, file_directory};

use crate::entries::LineEntry;
use crate::header::Header;
use dw_forms::{Bases, Tables};
use std::alloc::AllocError;

/// The path ends in a slash.
fn is_closed(path: &[u8]) -> bool
    ensures { result ≡ ends_in_slash path.now }
{
    !path.is_empty() && path[path.len() - 1] == b'/'
}

/// Puts a part after a path: it replaces the path where it begins with a slash, else one slash
/// is between, unless there is nothing before it or a slash already.
#[tactic(auto, unfolding(dw_model::specs::Path::joined))]
pub(crate) fn join(path: &mut Vec<u8>, part: &[u8]) -> Result<(), AllocError>
    ensures { OnOk result (path.new.items ≡ joined path.old.items part.now) }
{
    if !part.is_empty() && part[0] == b'/' {
        path.clear();
        return path.extend_from_slice(part);
    }
    if path.is_empty() || is_closed(path) {
        return path.extend_from_slice(part);
    }
    path.push(b'/')?;
    path.extend_from_slice(part)
}

/// The same as `join`, with a part that may be absent.
pub(crate) fn join_some(path: &mut Vec<u8>, part: Option<&[u8]>) -> Result<(), AllocError>
    ensures { OnOk result (path.new.items ≡ joined_some path.old.items (option_map (λ part. part.now) part.entry)) }
{
    match part {
        Some(part) => join(path, part),
        None => Ok(()),
    }
}

/// What the unit that asks for a path says of it: where its texts are, and the directory in which
/// it was compiled.
#[derive(Clone, Copy, Debug)]
pub(crate) struct AskingUnit<'a> {
    pub(crate) tables: Tables<'a>,
    pub(crate) bases: Bases,
    pub(crate) comp_dir: Option<&'a [u8]>,
}

impl<'a> AskingUnit<'a> {
    /// The text to which an entry's path leads.
    pub(crate) fn text_of(&self, entry: &LineEntry<'a>) -> Option<&'a [u8]>
        ensures { option_map (λ text. text.now) result
            ≡ option_and_then (text (tables_shown self.now.tables) (bases_shown self.now.bases))
            (option_map value_shown entry.now.path) }
    {
        let value = entry.path?;
        self.tables.text(&value, &self.bases)
    }

    /// The path of a numbered directory, from 0 on, where it is there and can be read.
    #[inline(always)]
    fn directory_path(&self, header: &Header<'a>, n: u64) -> Option<&'a [u8]>
        ensures { option_map (λ text. text.now) result ≡ model.directory_path (header_for self.now header.now) n }
    {
        let directory = header.directories.get(n)?;
        self.text_of(&directory)
    }

    /// Where relative paths begin: at directory 0, else at the directory in which the unit was
    /// compiled, else nowhere.
    pub(crate) fn top(&self, header: &Header<'a>) -> &'a [u8]
        ensures { result.now ≡ unwrap_or (option_or (model.directory_path (header_for self.now header.now) 0)
            (option_map (λ text. text.now) self.now.comp_dir)) [] }
    {
        if let Some(directory) = self.directory_path(header, 0) {
            return directory;
        }
        match self.comp_dir {
            Some(directory) => directory,
            None => &[],
        }
    }

    /// The directory of a file, unless it is directory 0.
    pub(crate) fn file_directory(
        &self,
        header: &Header<'a>,
        file: &LineEntry<'a>,
    ) -> Option<&'a [u8]>
        ensures { option_map (λ text. text.now) result
            ≡ file_directory (header_for self.now header.now) file.now.directory }
    {
        if file.directory == 0 {
            return None;
        }
        self.directory_path(header, file.directory)
    }
}
