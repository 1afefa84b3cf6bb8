//! What abbreviations mean, by section 7.5.3 of DWARF 5.

ghost use Rattle.dw_forms.specs.Needed.{AreAlike, AreListed};

mod reader;

use crate::pairs::Specs;
pub(crate) use reader::{next_decl, next_spec};

/// An attribute's name and form, and its number where that is in the declaration.
#[derive(Clone, Copy, Debug, Default, PartialEq, Eq)]
pub struct Spec {
    /// A DW_AT code.
    pub name: u64,
    /// A DW_FORM code.
    pub form: u64,
    /// The number after DW_FORM_implicit_const.
    pub implicit: Option<i64>,
}

/// What an abbreviation means: an entry's tag, whether a list of children follows it, and its
/// attributes in order.
#[derive(Drop)]
pub struct Decl<'a> {
    /// Where it begins in .debug_abbrev.
    pub(crate) offset: usize,
    /// The abbreviation, which isn't 0.
    pub code: u64,
    /// A DW_TAG code.
    pub tag: u64,
    pub children: bool,
    pub specs: Specs<'a>,
    /// Those of the attributes that entries need, where it has many.
    pub(crate) few: Option<Box<Vec<Spec>>>,
    ghost alike: { AreListed few specs },
}

impl<'a> Decl<'a> {
    /// Attributes by which entries are read as by all: those that entries need, where they are
    /// listed, else all.
    #[inline(always)]
    pub fn needed(&self) -> Specs<'_>
        ensures { AreAlike result self.now.specs }
    {
        let Some(few) = &self.few else {
            return self.specs.fork();
        };
        Specs::listed(few.as_slice())
    }
}
