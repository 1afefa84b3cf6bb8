//! The entries of a unit, one after the other.

ghost use Rattle.std.specs.Prelude.{◌≡◌, ◌==◌, List, None, IfOk, length, OnErr};
ghost use Rattle.dw_model.specs.Abbrev.{Declaration, declared};
ghost use Rattle.dw_model.specs.Entry.{entry_at};
ghost use Rattle.dw_model.specs.Reading.{Place};
ghost use Rattle.dw_bytes.specs.Width.{size_of};
ghost use Rattle.dw_forms.specs.Table.{declarations_of};
ghost use Rattle.dw_units.specs.Entries.{KeepsLast, ReadsNext, ranged_at};
ghost use Rattle.dw_units.specs.EntriesInside.{last_in, IsHead, IsMet, IsReadable};
ghost use Rattle.dw_units.specs.Layouts.{AreOf, IsKnown};

use crate::layouts::{Known, Layouts, Meaning, declared_meaning, is_function, meaning_of};
use crate::values::{pass_bytes, pass_meant};
use crate::view::EntryView;
use dw_bytes::{Cursor, Width};
use dw_forms::{AbbrevTable, FormFault};
use std::alloc::Global;
use std::marker::Model;

/// The next entry of a unit.
#[derive(Clone, Copy, Debug, PartialEq, Eq)]
pub enum Next {
    /// A null entry, which ends a list of children.
    Null,
    /// A subprogram or an inlined subroutine that may have ranges, as its declaration says: the
    /// entry that `Entries::function` gives.
    Function,
    /// A subprogram or an inlined subroutine that has none: its attributes were passed over.
    Unranged {
        /// A list of children follows it.
        children: bool,
    },
    /// Any other entry: its attributes were passed over.
    Passed {
        /// A list of children follows it.
        children: bool,
    },
}

/// A function that was passed.
#[derive(Drop)]
pub(crate) struct Last<'a> {
    pub(crate) code: u64,
    pub(crate) offset: u64,
    /// Where its values begin.
    pub(crate) values: Cursor<'a>,
}

/// A walk over the entries of a unit. Contracts see the unit's declarations, how many bytes its
/// offsets have, the place of the next entry, whose offset counts from the first byte of
/// .debug_info, and the last function that may have ranges.
#[derive(Drop)]
pub struct Entries<'b, 'a> {
    abbrevs: AbbrevTable<'b, 'a>,
    cursor: Cursor<'a>,
    layouts: Layouts<'a>,
    last: Option<Last<'a>>,
}

impl<'b, 'a> Model for Entries<'b, 'a> {
    ghost use Rattle.dw_units.specs.Entries.{Walk};
    ghost use Rattle.dw_units.specs.EntriesInside.{walk_in, IsWalk};

    ghost Value = { Walk };

    ghost view = { walk_in };

    ghost invariant = { IsWalk };
}

/// Where an entry begins, and its code.
#[derive(Clone, Copy)]
pub(crate) struct Head {
    pub(crate) offset: u64,
    pub(crate) code: u64,
}

/// The entry whose values begin at the cursor, which goes just past them. After a refusal the
/// cursor may be anywhere.
#[inline(always)]
fn next_by<'a>(
    cursor: &mut Cursor<'a>,
    head: Head,
    meant: Meaning<'_, 'a>,
    width: Width,
    last: &mut Option<Last<'a>>,
) -> Result<Next, FormFault>
    ensures next { (declarations : List Declaration) (p : Place)
        → IsMet declarations (size_of width) head meant.entry p cursor.old
        → ReadsNext (ranged_at declarations p) result (entry_at (size_of width) declarations p) cursor.new
        (last_in declarations (size_of width) last.new) }
    ensures stays { OnErr result (last.new ≡ last.old) }
    ensures kept { (declarations : List Declaration) → IfOk result (λ next. KeepsLast next
        (last_in declarations (size_of width) last.old) (last_in declarations (size_of width) last.new)) }
    ensures last { (declarations : List Declaration) (p : Place)
        → IsMet declarations (size_of width) head meant.entry p cursor.old
        → IsReadable declarations (size_of width) last.old → IsReadable declarations (size_of width) last.new }
{
    let values = cursor.fork();
    pass_meant(cursor, meant, width)?;
    let children = meant.children;
    if !is_function(meant.tag) {
        return Ok(Next::Passed { children });
    }
    if !meant.shape.may_have_ranges() {
        return Ok(Next::Unranged { children });
    }
    *last = Some(Last {
        code: head.code,
        offset: head.offset,
        values,
    });
    Ok(Next::Function)
}

/// The entry whose values begin at the cursor, of a declaration that was met; the cursor goes just
/// past it. After a refusal the cursor may be anywhere.
#[inline(always)]
fn next_known<'a>(
    cursor: &mut Cursor<'a>,
    head: Head,
    known: Known<'_, 'a>,
    width: Width,
    last: &mut Option<Last<'a>>,
) -> Result<Next, FormFault>
    ensures next { (declarations : List Declaration) (p : Place) → IsHead head p cursor.old
        → IsKnown (size_of width) (declared declarations head.code) known.entry
        → ReadsNext (ranged_at declarations p) result (entry_at (size_of width) declarations p) cursor.new
        (last_in declarations (size_of width) last.new) }
    ensures stays { OnErr result (last.new ≡ last.old) }
    ensures kept { (declarations : List Declaration) → IfOk result (λ next. KeepsLast next
        (last_in declarations (size_of width) last.old) (last_in declarations (size_of width) last.new)) }
    ensures last { (declarations : List Declaration) (p : Place) → IsHead head p cursor.old
        → IsKnown (size_of width) (declared declarations head.code) known.entry
        → IsReadable declarations (size_of width) last.old → IsReadable declarations (size_of width) last.new }
{
    match known {
        Known::Plain { children, size } => {
            pass_bytes(cursor, size)?;
            Ok(Next::Passed { children })
        }
        Known::Meant(meant) => next_by(cursor, head, meant, width, last),
    }
}

/// The entry whose values begin at the cursor, of a declaration that is met for the first time; the
/// cursor goes just past it. After a refusal the cursor may be anywhere.
#[inline(never)]
fn next_first<'a>(
    cursor: &mut Cursor<'a>,
    head: Head,
    abbrevs: AbbrevTable<'_, 'a>,
    layouts: &mut Layouts<'a>,
    last: &mut Option<Last<'a>>,
) -> Result<Next, FormFault>
    ensures layouts { AreOf (declarations_of abbrevs.entry) layouts.old
        → AreOf (declarations_of abbrevs.entry) layouts.new }
    ensures width { layouts.new.width ≡ layouts.old.width }
    ensures next { AreOf (declarations_of abbrevs.entry) layouts.old
        → (p : Place) → IsHead head p cursor.old
        → ReadsNext (ranged_at (declarations_of abbrevs.entry) p) result
        (entry_at (size_of layouts.old.width) (declarations_of abbrevs.entry) p) cursor.new
        (last_in (declarations_of abbrevs.entry) (size_of layouts.old.width) last.new) }
    ensures stays { OnErr result (last.new ≡ last.old) }
    ensures kept { IfOk result (λ next. KeepsLast next
        (last_in (declarations_of abbrevs.entry) (size_of layouts.old.width) last.old)
        (last_in (declarations_of abbrevs.entry) (size_of layouts.old.width) last.new)) }
    ensures last { AreOf (declarations_of abbrevs.entry) layouts.old
        → (p : Place) → IsHead head p cursor.old
        → IsReadable (declarations_of abbrevs.entry) (size_of layouts.old.width) last.old
        → IsReadable (declarations_of abbrevs.entry) (size_of layouts.old.width) last.new }
{
    layouts.lay_out(abbrevs, head.code);
    let Some(known) = layouts.get(head.code) else {
        let meant = declared_meaning(abbrevs, head.code).ok_or(FormFault::Code)?;
        return next_by(cursor, head, meant, layouts.width, last);
    };
    next_known(cursor, head, known, layouts.width, last)
}

/// The entry at the cursor, which goes just past it. After a refusal the cursor may be anywhere.
#[tactic(auto, unfolding(dw_model::specs::Entry::entry_at))]
#[inline(always)]
fn next_of<'a>(
    cursor: &mut Cursor<'a>,
    abbrevs: AbbrevTable<'_, 'a>,
    layouts: &mut Layouts<'a>,
    last: &mut Option<Last<'a>>,
) -> Result<Next, FormFault>
    ensures layouts { AreOf (declarations_of abbrevs.entry) layouts.old
        → AreOf (declarations_of abbrevs.entry) layouts.new }
    ensures width { layouts.new.width ≡ layouts.old.width }
    ensures next { AreOf (declarations_of abbrevs.entry) layouts.old
        → ReadsNext (ranged_at (declarations_of abbrevs.entry) cursor.old) result
        (entry_at (size_of layouts.old.width) (declarations_of abbrevs.entry) cursor.old) cursor.new
        (last_in (declarations_of abbrevs.entry) (size_of layouts.old.width) last.new) }
    ensures stays { OnErr result (last.new ≡ last.old) }
    ensures kept { IfOk result (λ next. KeepsLast next
        (last_in (declarations_of abbrevs.entry) (size_of layouts.old.width) last.old)
        (last_in (declarations_of abbrevs.entry) (size_of layouts.old.width) last.new)) }
    ensures last { AreOf (declarations_of abbrevs.entry) layouts.old
        → IsReadable (declarations_of abbrevs.entry) (size_of layouts.old.width) last.old
        → IsReadable (declarations_of abbrevs.entry) (size_of layouts.old.width) last.new }
{
    let offset = cursor.at() as u64;
    let code = cursor.uleb()?;
    if code == 0 {
        return Ok(Next::Null);
    }
    let head = Head { offset, code };
    let Some(known) = layouts.get(code) else {
        // A cursor that is lent lies in memory; the caller's own stays in registers.
        let mut place = cursor.fork();
        let next = next_first(&mut place, head, abbrevs, layouts, last)?;
        *cursor = place;
        return Ok(next);
    };
    next_known(cursor, head, known, layouts.width, last)
}

impl<'b, 'a> Entries<'b, 'a> {
    ghost use Rattle.std.specs.Prelude.{option_map};

    /// A walk that begins at a cursor, in a unit of a width.
    pub(crate) fn new(
        alloc: Global,
        abbrevs: AbbrevTable<'b, 'a>,
        width: Width,
        cursor: Cursor<'a>,
    ) -> Self
        ensures declarations { result.declarations ≡ declarations_of abbrevs.entry }
        ensures offset_size { result.offset_size ≡ size_of width }
        ensures place { result.place ≡ cursor.entry }
        ensures last { result.last ≡ None }
    {
        Entries {
            abbrevs,
            layouts: Layouts::new(alloc, width, cursor.left()),
            last: None,
            cursor,
        }
    }

    /// No byte of the unit is left.
    pub fn is_done(&self) -> bool
        ensures { result ≡ (length self.now.place.left == 0) }
    {
        self.cursor.left() == 0
    }

    /// The next entry; of functions those alone are given that may have ranges, as their
    /// declarations say it (`Layout::may_have_ranges`). Layouts of declarations are kept where
    /// there is room and memory for them. The error is the first fault of the entry; then the walk
    /// stays where it was.
    #[inline(always)]
    pub fn next_function(&mut self) -> Result<Next, FormFault>
        ensures declarations { self.new.declarations ≡ self.old.declarations }
        ensures offset_size { self.new.offset_size ≡ self.old.offset_size }
        ensures next { ReadsNext (ranged_at self.old.declarations self.old.place) result
            (entry_at self.old.offset_size self.old.declarations self.old.place) self.new.place self.new.last }
        ensures stays { OnErr result ((self.new.place ≡ self.old.place) × (self.new.last ≡ self.old.last)) }
        ensures kept { IfOk result (λ next. KeepsLast next self.old.last self.new.last) }
    {
        let mut place = self.cursor.fork();
        let next = next_of(&mut place, self.abbrevs, &mut self.layouts, &mut self.last)?;
        self.cursor = place;
        Ok(next)
    }

    /// The last function that may have ranges, if there was one.
    #[inline(always)]
    pub fn function(&self) -> Option<EntryView<'_, 'a>>
        ensures { result ≡ self.now.last }
    {
        let last = self.last.as_ref()?;
        let meant = meaning_of(Some(&self.layouts), self.abbrevs, last.code)?;
        Some(EntryView {
            tag: meant.tag,
            children: meant.children,
            shape: meant.shape,
            width: self.layouts.width,
            offset: last.offset,
            values: last.values.fork(),
        })
    }

    /// The layouts that were kept.
    pub fn into_layouts(self) -> Layouts<'a>
        ensures { AreOf self.entry.declarations result }
    {
        self.layouts
    }
}
