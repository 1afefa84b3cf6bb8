//! Declarations that were read one after the other, by section 7.5.3 of DWARF 5.

ghost use Rattle.std.specs.Prelude.{◌≡◌, ◌≤◌, ◌<◌, ◌+◌, ◌&&◌, ℕ, drop, IfOk, Some, map, length, slice_get};
ghost use Rattle.std.specs.Prelude.{nat_le, nat_lt, option_map};
ghost use Rattle.dw_model.specs.Abbrev.{declared};
ghost use Rattle.dw_forms.specs.Declaration.{declaration_shown};
ghost use Rattle.dw_forms.specs.Run.{code_at, ArePlaces, IsFirstPlace};

use crate::declaration::Decl;
use std::alloc::{AllocError, Global};
use std::collections::BTreeSet;
use std::marker::Model;

/// Where a table begins among the declarations that were read.
#[derive(Clone, Copy, Debug, PartialEq, Eq)]
pub struct Start {
    /// The run of its first declaration.
    pub(crate) run: usize,
    /// How many declarations of the run are before that.
    pub(crate) index: usize,
}

/// How many of the first declarations have the codes 1, 2 and so on.
fn count_in_order(declarations: &[Decl<'_>]) -> usize
    ensures within { result ≤ length declarations.now }
    ensures codes { (k : ℕ) → k < result → code_at declarations.now k ≡ Some (k + 1) }
{
    for i in 0..declarations.len() {
        if declarations[i].code != i as u64 + 1 {
            return i;
        }
    }
    declarations.len()
}

/// The codes of the declarations from a place on, each with its place.
fn places_of(
    alloc: Global,
    declarations: &[Decl<'_>],
    from: usize,
) -> Result<BTreeSet<(u64, usize)>, AllocError>
    ensures { IfOk result (λ places. ArePlaces from (length declarations.now) declarations.now places) }
{
    let mut places = BTreeSet::new(alloc);
    for i in from..declarations.len() {
        let code = declarations[i].code;
        places.insert((code, i))?;
    }
    Ok(places)
}

/// The code is one of those in order, and its place isn't before another one.
fn is_in_order(code: u64, from: usize, in_order: usize) -> bool
    ensures { result ≡ (nat_lt from code && nat_le code in_order) }
{
    (from as u64) < code && code <= in_order as u64
}

/// The first place of a code, of those from one on.
fn first_place(places: &BTreeSet<(u64, usize)>, from: usize, code: u64) -> Option<usize>
    ensures { IsFirstPlace places.now from code result }
{
    let (other, place) = places.range((code, from)..).next()?;
    if *other != code {
        return None;
    }
    Some(*place)
}

/// Declarations that were read one after the other. Contracts see them in order, with where their
/// table goes on after them.
#[derive(Drop)]
pub(crate) struct Run<'a> {
    declarations: Vec<Decl<'a>>,
    /// How many of the first have the codes 1, 2 and so on: those are found by their code alone, as
    /// all are in the tables of real compilers.
    in_order: usize,
    /// The codes of those after these, each with its place.
    others: BTreeSet<(u64, usize)>,
    /// Where the table goes on; `None` where it ends.
    rest: Option<Start>,
}

impl<'a> Model for Run<'a> {
    ghost use Rattle.dw_forms.specs.Run.{ReadRun};
    ghost use Rattle.dw_forms.specs.RunInside.{run_in, IsIndexed};

    ghost Value = { ReadRun };

    ghost view = { run_in };

    ghost invariant = { IsIndexed };
}

impl<'a> Run<'a> {
    /// The run of these declarations, after which the table goes on or ends.
    pub(crate) fn new(
        alloc: Global,
        declarations: Vec<Decl<'a>>,
        rest: Option<Start>,
    ) -> Result<Self, AllocError>
        ensures declarations { IfOk result (λ run. run.declarations ≡ map declaration_shown declarations.entry.items) }
        ensures offsets { IfOk result (λ run. run.offsets
            ≡ map (λ declaration. declaration.offset) declarations.entry.items) }
        ensures rest { IfOk result (λ run. run.rest ≡ rest) }
    {
        let mut declarations = declarations;
        declarations.shrink_to_fit();
        let in_order = count_in_order(&declarations);
        let others = places_of(alloc, &declarations, in_order)?;
        Ok(Run {
            declarations,
            in_order,
            others,
            rest,
        })
    }

    /// How many declarations there are.
    pub(crate) fn len(&self) -> usize
        ensures declarations { result ≡ length self.now.declarations }
        ensures offsets { result ≡ length self.now.offsets }
    {
        self.declarations.len()
    }

    /// Where a declaration begins in .debug_abbrev.
    pub(crate) fn offset(&self, index: usize) -> usize
        requires { index < length self.now.offsets }
        ensures { slice_get self.now.offsets index ≡ Some result }
    {
        self.declarations[index].offset
    }

    /// Where the table goes on after them; `None` where it ends.
    pub(crate) fn rest(&self) -> Option<Start>
        ensures { result ≡ self.now.rest }
    {
        self.rest
    }

    /// The first declaration of a code, of those from a place on.
    #[inline(always)]
    pub(crate) fn find(&self, from: usize, code: u64) -> Option<&Decl<'a>>
        ensures { option_map (λ declaration. declaration_shown declaration.now) result
            ≡ declared (drop from self.now.declarations) code }
    {
        if is_in_order(code, from, self.in_order) {
            return Some(&self.declarations[(code - 1) as usize]);
        }
        let place = first_place(&self.others, from, code)?;
        Some(&self.declarations[place])
    }
}
