//! The functions of a unit that have ranges, and which of them hold an address.

ghost use Rattle.std.specs.Prelude.{◌≡◌, IfOk};
ghost use Rattle.dw_forms.specs.Tables.{tables_shown};
ghost use Rattle.dw_frames.specs.Tree.{chain_at};

use crate::drafts::OUTERMOST;
use crate::function::EntryId;
use dw_forms::Tables;
use dw_ranges::Owners;
use std::alloc::{AllocError, Global};

/// The functions of a unit that have ranges. Their numbers are those of their order. Whoever asks
/// for those at an address passes the tables of the file.
#[derive(Drop)]
pub(crate) struct Chains<'a> {
    /// The index of the unit.
    pub(crate) unit: usize,
    /// The offsets of all functions, in order.
    pub(crate) functions: Vec<u64>,
    /// Their numbers, by their ranges.
    pub(crate) owners: Owners<'a>,
}

impl<'a> Chains<'a> {
    /// The functions at an address, outermost first.
    pub(crate) fn at(
        &self,
        alloc: Global,
        tables: &Tables<'_>,
        a: u64,
    ) -> Result<Vec<EntryId>, AllocError>
        ensures { IfOk result (λ ids. ids.items ≡ chain_at (tables_shown tables.now) self.now a) }
    {
        let mut ids = Vec::new(alloc);
        let mut number = self.owners.find(tables, OUTERMOST, a);
        for _ in 0..self.functions.len() {
            let Some(k) = number else {
                return Ok(ids);
            };
            let Some(offset) = self.functions.get(k) else {
                return Ok(ids);
            };
            ids.push(EntryId {
                unit: self.unit,
                offset: *offset,
            })?;
            number = self.owners.find(tables, k + 2, a);
        }
        Ok(ids)
    }
}
