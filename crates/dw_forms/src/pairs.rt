//! The attributes of a declaration, decoded in place, by section 7.5.3 of DWARF 5.

ghost use Rattle.std.specs.Prelude.{◌≡◌, length, map};
ghost use Rattle.dw_forms.specs.Pairs.{specs_at, AreAt, TakesFirst};
ghost use Rattle.dw_forms.specs.Spec.{spec_shown};

use crate::declaration::{Spec, next_spec};
use dw_bytes::Cursor;
use std::marker::Model;

/// Pairs of names and forms in .debug_abbrev.
#[derive(Drop)]
pub(crate) struct Pairs<'a> {
    /// Where the first one begins.
    place: Cursor<'a>,
    /// How many there are.
    count: usize,
}

/// Where attributes are.
#[derive(Drop)]
pub(crate) enum Source<'a> {
    Pairs(Pairs<'a>),
    List(&'a [Spec]),
}

/// Takes the first pair away, where there is one.
#[inline(always)]
fn take_pair(pairs: &mut Pairs<'_>) -> Option<Spec>
    requires { AreAt pairs.old.place pairs.old.count }
    ensures left { AreAt pairs.new.place pairs.new.count }
    ensures taken { TakesFirst result (specs_at pairs.old.place) (specs_at pairs.new.place) }
{
    let Pairs { place, count } = pairs;
    if *count == 0 {
        return None;
    }
    let Ok(found) = next_spec(place) else {
        return None;
    };
    let Some(spec) = found else {
        return None;
    };
    *count -= 1;
    Some(spec)
}

/// Takes the first one of a list away, where there is one.
#[inline(always)]
fn take_listed(list: &mut &[Spec]) -> Option<Spec>
    ensures { TakesFirst result (map spec_shown list.old.now) (map spec_shown list.new.now) }
{
    let (first, rest) = list.split_first()?;
    *list = rest;
    Some(*first)
}

/// Attributes of a declaration, in order. Each is decoded where it is in .debug_abbrev when it is
/// asked for; that can't fail, since all of them were read once. Contracts see them as a list.
#[derive(Drop)]
pub struct Specs<'a> {
    source: Source<'a>,
}

impl<'a> Model for Specs<'a> {
    ghost use Rattle.std.specs.Prelude.{List};
    ghost use Rattle.dw_model.specs.Abbrev.{Specification};
    ghost use Rattle.dw_forms.specs.PairsInside.{specs_in, AreRead};

    ghost Value = { List Specification };

    ghost view = { specs_in };

    ghost invariant = { AreRead };
}

impl<'a> Specs<'a> {
    /// The pairs at a cursor, of which so many were read.
    pub(crate) fn new(place: Cursor<'a>, count: usize) -> Self
        requires { AreAt place count }
        ensures { result ≡ specs_at place.entry }
    {
        Specs {
            source: Source::Pairs(Pairs { place, count }),
        }
    }

    /// Those of a list.
    pub(crate) fn listed(list: &'a [Spec]) -> Self
        ensures { result ≡ map spec_shown list.now }
    {
        Specs {
            source: Source::List(list),
        }
    }

    /// How many there are.
    pub fn len(&self) -> usize
        ensures { result ≡ length self.now }
    {
        match &self.source {
            Source::Pairs(pairs) => pairs.count,
            Source::List(list) => list.len(),
        }
    }

    /// The same ones once more, to go through.
    pub fn fork(&self) -> Self
        ensures { result ≡ self.now }
    {
        match &self.source {
            Source::Pairs(pairs) => Specs::new(pairs.place.fork(), pairs.count),
            Source::List(list) => Specs::listed(list),
        }
    }

    /// Takes the first one away; `None` where none is left.
    #[inline(always)]
    pub fn take_first(&mut self) -> Option<Spec>
        ensures { TakesFirst result self.old self.new }
    {
        match &mut self.source {
            Source::Pairs(pairs) => take_pair(pairs),
            Source::List(list) => take_listed(list),
        }
    }
}
