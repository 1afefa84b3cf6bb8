//! One table of abbreviation declarations, by section 7.5.3 of DWARF 5.

ghost use Rattle.std.specs.Prelude.{◌≡◌, IfErr, option_map};
ghost use Rattle.dw_model.specs.Abbrev.{abbreviations, declared};
ghost use Rattle.dw_model.specs.Answers.{GivesUnlessMemory};
ghost use Rattle.dw_forms.specs.Fault.{form_fault, HidesNoFault};
ghost use Rattle.dw_forms.specs.Declaration.{declaration_shown};

use crate::declaration::Decl;
use crate::fault::FormFault;
use crate::run::Start;
use crate::store::AbbrevStore;
use std::alloc::Global;
use std::marker::Model;

/// The declarations of a table. Contracts see them as a list, in order.
#[derive(Drop)]
pub struct Abbrevs<'a> {
    store: AbbrevStore<'a>,
    start: Start,
}

impl<'a> Model for Abbrevs<'a> {
    ghost use Rattle.std.specs.Prelude.{List};
    ghost use Rattle.dw_model.specs.Abbrev.{Declaration};
    ghost use Rattle.dw_forms.specs.AbbrevsInside.{declarations_in, BeginsWithin};

    ghost Value = { List Declaration };

    ghost view = { declarations_in };

    ghost invariant = { BeginsWithin };
}

impl<'a> Abbrevs<'a> {
    /// Reads the table at an offset of .debug_abbrev. An offset past the section's end is `End`.
    /// `Memory` comes only where an allocation was refused, and the table can be read.
    pub fn read(alloc: Global, section: &'a [u8], offset: u64) -> Result<Self, FormFault>
        ensures read { GivesUnlessMemory (λ abbrevs. abbrevs) form_fault result (abbreviations section.now offset) }
        ensures memory { IfErr result (λ fault. HidesNoFault fault (abbreviations section.now offset)) }
    {
        let mut store = AbbrevStore::new(alloc, section);
        let start = store.start(alloc, offset)?;
        Ok(Abbrevs { store, start })
    }

    /// The first declaration of a code, where there is one.
    #[inline(always)]
    pub fn get(&self, code: u64) -> Option<&Decl<'a>>
        ensures { option_map (λ declaration. declaration_shown declaration.now) result ≡ declared self.now code }
    {
        self.store.find(self.start, code)
    }
}
