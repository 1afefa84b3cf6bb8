//! Abbreviation declarations are read, by section 7.5.3 of DWARF 5.

ghost use Rattle.std.specs.Prelude.{◌≡◌, IfOk, IfSome, option_map};
ghost use Rattle.dw_model.specs.Reading.{items};
ghost use Rattle.dw_model.specs.Abbrev.{next_specification, declaration_behind, next_declaration};
ghost use Rattle.dw_model.specs.Answers.{ReadsOn};
ghost use Rattle.dw_forms.specs.Fault.{form_fault};
ghost use Rattle.dw_forms.specs.Declaration.{spec_shown, declaration_shown};
ghost use Rattle.dw_forms.specs.Pairs.{ReadsCount, ReadsShortPair};

use crate::declaration::{Decl, Spec};
use crate::fault::FormFault;
use crate::needed::needed_of;
use crate::pairs::Specs;
use dw_bytes::Cursor;
use dw_model::dwarf::DW_FORM_implicit_const;
use std::alloc::{AllocError, Global};

/// Of a declaration with more attributes than this, those are listed that entries need.
const FEW: usize = 64;

impl<'a> Decl<'a> {
    /// The same declaration; where it has many attributes, those that entries need are listed, if
    /// there is room for them. So units with one long declaration don't each read all of it.
    pub(crate) fn listed(self, alloc: Global, room: &mut usize) -> Result<Self, AllocError>
        ensures same { IfOk result (λ listed. declaration_shown listed ≡ declaration_shown self.entry) }
        ensures offset { IfOk result (λ listed. listed.offset ≡ self.entry.offset) }
    {
        if self.specs.len() <= FEW {
            return Ok(self);
        }
        let Some(few) = needed_of(alloc, &self.specs, *room)? else {
            return Ok(self);
        };
        *room -= few.len();
        let few = Box::new(alloc, few)?;
        let Decl {
            offset,
            code,
            tag,
            children,
            specs,
            few: _,
        } = self;
        Ok(Decl {
            offset,
            code,
            tag,
            children,
            specs,
            few: Some(few),
        })
    }
}

/// The next name and form where each is spelled by one byte, as most are.
#[tactic(auto, using(crate::proofs::PairsLemmas::short_pair))]
#[inline(always)]
fn short_pair(cursor: &mut Cursor<'_>) -> Option<(u64, u64)>
    ensures { ReadsShortPair result cursor.old cursor.new }
{
    let mut ahead = cursor.fork();
    let pair = ahead.take(2)?;
    if pair[0] >= 128 || pair[1] >= 128 {
        return None;
    }
    *cursor = ahead;
    Some((pair[0] as u64, pair[1] as u64))
}

/// The next pair of a declaration; `None` for the pair 0, 0, which ends them.
#[tactic(auto, unfolding(dw_model::specs::Abbrev::next_specification))]
#[inline(always)]
pub(crate) fn next_spec(cursor: &mut Cursor<'_>) -> Result<Option<Spec>, FormFault>
    ensures { ReadsOn (option_map spec_shown) form_fault result (next_specification cursor.old) cursor.new }
{
    let (name, form) = match short_pair(cursor) {
        Some(pair) => pair,
        None => (cursor.uleb()?, cursor.uleb()?),
    };
    if name == 0 && form == 0 {
        return Ok(None);
    }
    if form == DW_FORM_implicit_const {
        let number = cursor.sleb()?;
        return Ok(Some(Spec {
            name,
            form,
            implicit: Some(number),
        }));
    }
    Ok(Some(Spec {
        name,
        form,
        implicit: None,
    }))
}

/// How many pairs a declaration has.
#[inline(never)]
fn count_specs(cursor: &mut Cursor<'_>) -> Result<usize, FormFault>
    ensures { ReadsCount result (items (λ p. p.left) next_specification cursor.old) cursor.new }
{
    let most = cursor.left();
    let mut ahead = cursor.fork();
    let mut count: usize = 0;
    loop {
        let Some(_) = next_spec(&mut ahead)? else {
            *cursor = ahead;
            return Ok(count);
        };
        prove!(count < most);
        count += 1;
    }
}

/// The declaration of a code, which begins at an offset of .debug_abbrev.
#[tactic(auto, unfolding(dw_model::specs::Abbrev::declaration_behind))]
fn declaration_of<'a>(
    cursor: &mut Cursor<'a>,
    offset: usize,
    code: u64,
) -> Result<Decl<'a>, FormFault>
    ensures read { ReadsOn declaration_shown form_fault result (declaration_behind code cursor.old) cursor.new }
    ensures offset { IfOk result (λ declaration. declaration.offset ≡ offset) }
{
    let tag = cursor.uleb()?;
    let children = cursor.u8().ok_or(FormFault::End)?;
    let pairs = cursor.fork();
    let count = count_specs(cursor)?;
    Ok(Decl {
        offset,
        code,
        tag,
        children: children != 0,
        specs: Specs::new(pairs, count),
        few: None,
    })
}

/// The next declaration of a table; `None` at the code 0 and at the section's end, which end it.
/// This takes no memory.
#[tactic(auto, unfolding(dw_model::specs::Abbrev::next_declaration))]
pub(crate) fn next_decl<'a>(cursor: &mut Cursor<'a>) -> Result<Option<Decl<'a>>, FormFault>
    ensures read { ReadsOn (option_map declaration_shown) form_fault result (next_declaration cursor.old) cursor.new }
    ensures offset { IfOk result (λ found. IfSome found (λ declaration. declaration.offset ≡ cursor.old.at)) }
{
    if cursor.left() == 0 {
        return Ok(None);
    }
    let offset = cursor.at();
    let code = cursor.uleb()?;
    if code == 0 {
        return Ok(None);
    }
    let declaration = declaration_of(cursor, offset, code)?;
    Ok(Some(declaration))
}
