//! The items of a group, by the links that lead from each to the one before it.

ghost use Rattle.std.specs.Iterator.{YieldsFirstRef, item_count};

use super::Link;
use std::marker::Model;

/// The items of a group that are left, from the last one on.
#[derive(Drop)]
pub(crate) struct Members<'b, T> {
    pub(super) links: &'b Vec<Link<T>>,
    pub(super) group: usize,
    /// The place of the first of them.
    pub(super) next: Option<usize>,
}

impl<'b, T> Model for Members<'b, T> {
    ghost use Rattle.std.specs.Prelude.{List};
    ghost use Rattle.dw_ranges.specs.LinksInside.{AreLinked, IsNext, members_to, shown};

    ghost Value = { List T };

    ghost view = { λ it. members_to it.group it.next (shown it.links.now.items) };

    ghost invariant = { λ it. AreLinked it.links.now.items × IsNext it.group it.next (shown it.links.now.items) };
}

impl<'b, T> Iterator for Members<'b, T> {
    type Item = &'b T;

    ghost next_gives = { YieldsFirstRef (λ rest. rest) };

    ghost remaining = { item_count (λ rest. rest) };

    fn next(&mut self) -> Option<&'b T> {
        let place = self.next?;
        let link = &self.links[place];
        self.next = link.before;
        Some(&link.one.item)
    }
}
