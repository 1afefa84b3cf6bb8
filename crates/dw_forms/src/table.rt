//! A table of abbreviation declarations, by section 7.5.3 of DWARF 5.

ghost use Rattle.dw_forms.specs.Store.{size_of_run};
ghost use Rattle.std.specs.Prelude.{◌≤◌};

use crate::declaration::Decl;
use crate::run::Start;
use crate::store::AbbrevStore;

/// A table of declarations among those that were read. Contracts see it as a list, in order
/// (`declarations_of`).
#[derive(Clone, Copy)]
pub struct AbbrevTable<'b, 'a> {
    store: &'b AbbrevStore<'a>,
    start: Start,
    ghost within: { start.index ≤ size_of_run store.now start.run },
}

impl<'a> AbbrevStore<'a> {
    ghost use Rattle.std.specs.Prelude.{◌≡◌};
    ghost use Rattle.dw_forms.specs.Store.{table_from, IsWithin};
    ghost use Rattle.dw_forms.specs.Table.{declarations_of};

    /// The table that begins at a start.
    #[inline(always)]
    pub fn table(&self, start: Start) -> AbbrevTable<'_, 'a>
        requires { IsWithin self.now start }
        ensures { declarations_of result ≡ table_from self.now start }
    {
        AbbrevTable { store: self, start }
    }
}

impl<'b, 'a> AbbrevTable<'b, 'a> {
    ghost use Rattle.std.specs.Prelude.{◌≡◌, option_map};
    ghost use Rattle.dw_model.specs.Abbrev.{declared};
    ghost use Rattle.dw_forms.specs.Declaration.{declaration_shown};
    ghost use Rattle.dw_forms.specs.Table.{declarations_of};

    /// The first declaration of a code, where there is one.
    #[inline(always)]
    pub fn get(self, code: u64) -> Option<&'b Decl<'a>>
        ensures { option_map (λ declaration. declaration_shown declaration.now) result
            ≡ declared (declarations_of self.entry) code }
    {
        self.store.find(self.start, code)
    }
}
