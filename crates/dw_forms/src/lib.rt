//! Abbreviations, the values of attributes, and the texts and addresses to which they lead.
#![tactic(auto)]

mod abbrevs;
mod declaration;
mod fault;
mod first_value;
mod form;
mod layout;
mod names;
mod needed;
mod pairs;
mod places;
mod ranged;
mod run;
mod shape;
mod size;
mod starts;
mod steps;
mod store;
mod table;
mod tables;
mod text;
mod value;

pub use abbrevs::Abbrevs;
pub use declaration::{Decl, Spec};
pub use fault::FormFault;
pub use layout::Layout;
pub use names::NAMES;
pub use pairs::Specs;
pub use run::Start;
pub use shape::Shape;
pub use store::AbbrevStore;
pub use table::AbbrevTable;
pub use tables::{Bases, Tables};
pub use text::Text;
pub use value::{Value, read_value};
