//! What is known of the declarations of a unit that were met.

ghost use Rattle.std.specs.Prelude.{◌≡◌, ◌≤◌, ◌<◌, ℕ, List, Option, None, Some};
ghost use Rattle.std.specs.Prelude.{true, IfOk, IfSome, OnOk, length, slice_get};
ghost use Rattle.dw_model.specs.Abbrev.{Declaration, declared};
ghost use Rattle.dw_bytes.specs.Width.{size_of};
ghost use Rattle.dw_forms.specs.Declaration.{declaration_shown};
ghost use Rattle.dw_forms.specs.Table.{declarations_of};
ghost use Rattle.dw_units.specs.Layouts.{AreOf, IsKept, IsKnown, MeansWhat, is_function_tag};
ghost use Rattle.dw_units.specs.declared.layouts.Met.{Met};

use dw_bytes::Width;
use dw_forms::{AbbrevTable, Decl, Layout, Shape};
use dw_model::dwarf::{DW_TAG_inlined_subroutine, DW_TAG_subprogram};
use std::alloc::{AllocError, Global};

/// A declaration that has a layout.
#[derive(Clone, Copy)]
pub(crate) struct Laid {
    pub(crate) tag: u64,
    pub(crate) children: bool,
    /// How many bytes the values of an entry take, where the forms fix it.
    pub(crate) size: Option<usize>,
    /// Where its layout is in the list.
    pub(crate) place: usize,
}

/// A declaration that was met. It is small, so that those of a unit stay near the processor.
#[derive(Clone, Copy)]
pub(crate) enum Met {
    /// Its entries are no functions, and the values of each take so many bytes: so they are passed
    /// in one step, without a layout.
    Plain { children: bool, size: usize },
    Laid(Laid),
}

/// Declarations of a unit that were met. Those of functions, and those whose values have no fixed
/// size, have a layout, which has places of names for functions. Those that aren't kept, because
/// memory was refused or they would take more than the unit, are read pair by pair.
#[derive(Drop)]
pub struct Layouts<'a> {
    /// How many bytes the unit's entries have.
    bytes: usize,
    /// That of the unit's offsets.
    pub(crate) width: Width,
    /// By their codes.
    pub(crate) met: Vec<Option<Met>>,
    pub(crate) list: Vec<Layout<'a>>,
}

/// What an abbreviation means, as far as entries are read by it.
#[derive(Clone, Copy)]
pub(crate) struct Meaning<'b, 'a> {
    pub(crate) tag: u64,
    pub(crate) children: bool,
    /// How many bytes the values of an entry take, where that is known.
    pub(crate) size: Option<usize>,
    pub(crate) shape: Shape<'b, 'a>,
}

/// What is known of the entries of a declaration that was met.
#[derive(Clone, Copy)]
pub(crate) enum Known<'b, 'a> {
    /// They are no functions, and the values of each take so many bytes.
    Plain { children: bool, size: usize },
    Meant(Meaning<'b, 'a>),
}

/// Declarations with codes below this are kept.
const CODES: u64 = 0x4000;

/// Declarations with so many attributes are kept. Of those with more, `Decl::needed` lists what
/// entries need.
const ATTRIBUTES: usize = 64;

/// Of how many bytes of its unit's entries one is kept.
const BYTES: usize = 32;

/// Of how many bytes of its unit's entries there is a place for a code.
const PLACE_BYTES: usize = 8;

/// For how many declarations there is room at first.
const FIRST: usize = 128;

/// Only functions have addresses and names that are asked for.
pub(crate) fn is_function(tag: u64) -> bool
    ensures { result ≡ is_function_tag tag }
{
    tag == DW_TAG_subprogram || tag == DW_TAG_inlined_subroutine
}

impl<'a> Layouts<'a> {
    /// No declaration was met yet of a unit whose entries have so many bytes.
    pub(crate) fn new(alloc: Global, width: Width, bytes: usize) -> Self
        ensures list { (declarations : List Declaration) → AreOf declarations result }
        ensures width { result.width ≡ width }
    {
        Layouts {
            bytes,
            width,
            met: Vec::new(alloc),
            list: Vec::new(alloc),
        }
    }

    /// What is known of the entries of a code, where its declaration was met.
    #[inline(always)]
    pub(crate) fn get(&self, code: u64) -> Option<Known<'_, 'a>>
        ensures { (declarations : List Declaration) → AreOf declarations self.now
            → IfSome result (IsKnown (size_of self.now.width) (declared declarations code)) }
    {
        let met = self.met.get(code as usize)?.as_ref()?;
        match *met {
            Met::Plain { children, size } => Some(Known::Plain { children, size }),
            Met::Laid(laid) => {
                let layout = self.list.get(laid.place)?;
                Some(Known::Meant(Meaning {
                    tag: laid.tag,
                    children: laid.children,
                    size: laid.size,
                    shape: Shape::Laid(layout),
                }))
            }
        }
    }

    /// Makes room for so many codes, and at first for as many as most units have.
    fn make_room(&mut self, codes: usize) -> Result<(), AllocError>
        ensures list { self.new.list.items ≡ self.old.list.items }
        ensures width { self.new.width ≡ self.old.width }
        ensures met { (code : ℕ) (met : Met) → slice_get self.new.met.items code ≡ Some (Some met)
            → slice_get self.old.met.items code ≡ Some (Some met) }
        ensures room { OnOk result (codes ≤ length self.new.met.items) }
    {
        if self.met.is_empty() {
            let most = FIRST.min(self.bytes / BYTES);
            self.met.reserve(most)?;
            self.list.reserve(most)?;
        }
        if codes > self.met.len() {
            self.met.resize(codes, None)?;
        }
        Ok(())
    }

    /// One more may be kept of a code, so that what is kept stays in proportion to the unit.
    fn has_room(&self, code: u64) -> bool
        ensures { result ≡ true → code < CODES }
    {
        let has_place = code < CODES && code < (self.bytes / PLACE_BYTES) as u64;
        has_place && self.list.len() < self.bytes / BYTES
    }

    /// What is kept of a declaration. It gets a layout where its entries aren't all passed in one
    /// step.
    fn meet(&mut self, declaration: &Decl<'a>) -> Result<Met, AllocError>
        ensures width { self.new.width ≡ self.old.width }
        ensures met { self.new.met ≡ self.old.met }
        ensures list { (declarations : List Declaration) (code : ℕ) (met : Met)
            → IsKept declarations self.old code met → IsKept declarations self.new code met }
        ensures kept { (declarations : List Declaration) (code : ℕ)
            → declared declarations code ≡ Some (declaration_shown declaration.now)
            → IfOk result (IsKept declarations self.new code) }
    {
        let (tag, children) = (declaration.tag, declaration.children);
        let size = declaration.specs.size(self.width);
        if let Some(size) = size {
            if !is_function(tag) {
                return Ok(Met::Plain { children, size });
            }
        }
        let alloc = *self.list.allocator();
        let layout = Layout::of(alloc, &declaration.specs, is_function(tag))?;
        let place = self.list.len();
        self.list.push(layout)?;
        Ok(Met::Laid(Laid {
            tag,
            children,
            size,
            place,
        }))
    }

    /// Keeps what is needed of the declaration of a code.
    fn keep(&mut self, abbrevs: AbbrevTable<'_, 'a>, code: u64) -> Result<(), AllocError>
        ensures list { AreOf (declarations_of abbrevs.entry) self.old → AreOf (declarations_of abbrevs.entry) self.new }
        ensures width { self.new.width ≡ self.old.width }
    {
        if !self.has_room(code) {
            return Ok(());
        }
        let Some(declaration) = abbrevs.get(code) else {
            return Ok(());
        };
        if declaration.specs.len() > ATTRIBUTES {
            return Ok(());
        }
        self.make_room(code as usize + 1)?;
        let met = self.meet(declaration)?;
        self.met[code as usize] = Some(met);
        Ok(())
    }

    /// Lays out the declaration of a code and keeps it, where there is room and memory for it.
    pub(crate) fn lay_out(&mut self, abbrevs: AbbrevTable<'_, 'a>, code: u64)
        ensures list { AreOf (declarations_of abbrevs.entry) self.old → AreOf (declarations_of abbrevs.entry) self.new }
        ensures width { self.new.width ≡ self.old.width }
    {
        match self.keep(abbrevs, code) {
            Ok(()) => {}
            Err(AllocError) => {}
        }
    }
}

/// What the declaration of a code says.
pub(crate) fn declared_meaning<'b, 'a>(
    abbrevs: AbbrevTable<'b, 'a>,
    code: u64,
) -> Option<Meaning<'b, 'a>>
    ensures means { MeansWhat result (declared (declarations_of abbrevs.entry) code) }
    ensures size { IfSome result (λ meaning. meaning.size ≡ None) }
{
    let declaration = abbrevs.get(code)?;
    Some(Meaning {
        tag: declaration.tag,
        children: declaration.children,
        size: None,
        shape: Shape::Declared(declaration),
    })
}

/// What a code means in a unit, by the layouts of its declarations that were met; `None` where none
/// is declared.
#[inline(always)]
pub(crate) fn meaning_of<'b, 'a>(
    layouts: Option<&'b Layouts<'a>>,
    abbrevs: AbbrevTable<'b, 'a>,
    code: u64,
) -> Option<Meaning<'b, 'a>>
    ensures { IfSome layouts.entry (λ layouts. AreOf (declarations_of abbrevs.entry) layouts.now)
        → MeansWhat result (declared (declarations_of abbrevs.entry) code) }
{
    let Some(layouts) = layouts else {
        return declared_meaning(abbrevs, code);
    };
    match layouts.get(code) {
        Some(Known::Meant(meaning)) => Some(meaning),
        _ => declared_meaning(abbrevs, code),
    }
}
