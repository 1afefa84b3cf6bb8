//! The ranges of addresses that entries have; with them the index of the least owner of an address,
//! of `dw_index`.
#![tactic(auto)]

mod at_address;
mod claims;
mod fault;
mod held;
mod linked;
mod links;
mod list;
mod list_index;
mod list_indexes;
mod new_ranges;
mod next_outcome;
mod owners;
mod range_entry;
mod range_list;
mod ranges;
mod read_lists;
mod step;
mod window;

pub use claims::Claims;
pub use dw_index::{Found, Index, Range, law_of_least_owner};
pub use fault::RangeFault;
pub use held::{HeldList, Listed};
pub use list_index::ListIndex;
pub use list_indexes::ListIndexes;
pub use new_ranges::read_new;
pub use owners::Owners;
pub use range_list::{RangeList, list_of, read_list};
pub use ranges::{ranges_of, read_ranges};
pub use read_lists::ReadLists;
pub use window::Window;
