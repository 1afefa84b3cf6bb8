//! The indexes of range lists that many name.

ghost use Rattle.std.specs.Prelude.{◌≡◌, IfOk, IfSome};
ghost use Rattle.dw_forms.specs.Tables.{tables_shown};
ghost use Rattle.dw_ranges.specs.Claims.{held_ranges};
ghost use Rattle.dw_ranges.specs.Held.{listed};
ghost use Rattle.dw_ranges.specs.ListIndex.{IsOfList};

use crate::held::Listed;
use crate::list_index::ListIndex;
use crate::range_list::RangeList;
use dw_forms::Tables;
use std::alloc::{AllocError, Global};
use std::collections::BTreeMap;
use std::marker::Model;
use std::sync::Arc;

/// The indexes of range lists of a file, by where the lists begin and their places of addresses.
/// The lists have together no more bytes than .debug_rnglists, as lists that lie apart have; those
/// beyond get no index. Contracts see the tables of the file.
#[derive(Drop)]
pub struct ListIndexes<'a> {
    tables: Tables<'a>,
    indexes: BTreeMap<(u64, Option<u64>), Arc<ListIndex<'a>>>,
    /// How many bytes further lists may have.
    left: usize,
    alloc: Global,
}

impl<'a> Model for ListIndexes<'a> {
    ghost use Rattle.dw_model.specs.Text.{Tables};
    ghost use Rattle.dw_ranges.specs.ListIndexesInside.{AreOfTables, tables_of};

    ghost Value = { Tables };

    ghost view = { tables_of };

    ghost invariant = { AreOfTables };
}

impl<'a> ListIndexes<'a> {
    /// None yet.
    pub fn new(alloc: Global, tables: &Tables<'a>) -> Self
        ensures { result ≡ tables_shown tables.now }
    {
        ListIndexes {
            tables: *tables,
            indexes: BTreeMap::new(alloc),
            left: tables.rnglists.len(),
            alloc,
        }
    }

    /// The index of a list, where there is one.
    pub fn get(&self, list: RangeList) -> Result<Option<Arc<ListIndex<'a>>>, AllocError>
        ensures { IfOk result (λ found. IfSome found (λ index. IsOfList self.now list index.value)) }
    {
        let Some(index) = self.indexes.get(&(list.begin, list.addr)) else {
            return Ok(None);
        };
        if !index.is_of(list) {
            return Ok(None);
        }
        Ok(Some(Arc::try_clone(index)?))
    }

    /// Reads a list for its index; by name where it has more bytes than are left.
    fn read(&mut self, list: RangeList) -> Result<Listed<'a>, AllocError>
        ensures tables { self.new ≡ self.old }
        ensures ranges { IfOk result (λ held. held_ranges self.old held ≡ listed self.old list) }
    {
        let Some(index) = ListIndex::read(self.alloc, list, &self.tables, self.left)? else {
            self.left = 0;
            return Ok(Listed::Named(list));
        };
        let left = self.left.saturating_sub(index.size);
        let index = Arc::new(self.alloc, index)?;
        let shared = Arc::try_clone(&index)?;
        self.indexes.insert((list.begin, list.addr), shared)?;
        self.left = left;
        Ok(Listed::Indexed(index, list.base))
    }

    /// A list by its index, which is made where there is none yet; by name where there is no room
    /// for it.
    pub fn make(&mut self, list: RangeList) -> Result<Listed<'a>, AllocError>
        ensures tables { self.new ≡ self.old }
        ensures ranges { IfOk result (λ held. held_ranges self.old held ≡ listed self.old list) }
    {
        if let Some(index) = self.get(list)? {
            return Ok(Listed::Indexed(index, list.base));
        }
        if self.left == 0 {
            return Ok(Listed::Named(list));
        }
        self.read(list)
    }
}
