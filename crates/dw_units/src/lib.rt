//! The units of .debug_info.
#![tactic(auto)]

mod attributes;
mod bases;
mod class;
mod counted;
mod entries;
mod entry;
mod header;
mod layouts;
mod named_ranges;
mod open_unit;
mod sections;
mod unit;
mod units;
mod values;
mod view;

pub use attributes::{Attribute, Attributes};
pub use entries::{Entries, Next};
pub use entry::Entry;
pub use header::Kind;
pub use layouts::Layouts;
pub use named_ranges::NamedRanges;
pub use open_unit::OpenUnit;
pub use sections::Sections;
pub use unit::Unit;
pub use units::Units;
pub use view::EntryView;
