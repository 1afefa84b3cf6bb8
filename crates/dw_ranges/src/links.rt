//! Items in groups, linked by their groups.

ghost use Rattle.std.specs.Prelude.{◌≡◌, ◌<◌, ◌≤◌, ◌+◌, ◌^◌, ◌++◌, ◌∷◌, ℕ, [], IfOk, OnOk, length, reverse};
ghost use Rattle.dw_ranges.specs.Claims.{in_group};
ghost use Rattle.dw_ranges.specs.LinksInside.{last_of, noted};

mod members;

use members::Members;
use std::alloc::{AllocError, Global};
use std::marker::Model;

/// An item in a group.
#[derive(Drop)]
pub struct Grouped<T> {
    pub group: usize,
    pub item: T,
}

/// An item that leads to the one before it in its group.
#[derive(Drop)]
pub(crate) struct Link<T> {
    one: Grouped<T>,
    /// The place of the link before this one that has the same group.
    before: Option<usize>,
}

/// Items in groups. They take one list, however many groups there are, and whoever asks one group
/// passes no item of another. Contracts see the list.
#[derive(Drop)]
pub(crate) struct Links<T> {
    links: Vec<Link<T>>,
    /// For each group the place of the last link in it.
    lasts: Vec<Option<usize>>,
}

impl<T> Model for Links<T> {
    ghost use Rattle.std.specs.Prelude.{List};
    ghost use Rattle.dw_ranges.specs.declared.links.Grouped.{Grouped};
    ghost use Rattle.dw_ranges.specs.LinksInside.{shown, AreLinked, AreLasts};

    ghost Value = { List (Grouped T) };

    ghost view = { λ links. shown links.links.items };

    ghost invariant = { λ links. AreLinked links.links.items × AreLasts links.lasts.items (shown links.links.items) };
}

/// Makes room for what is noted of a group.
fn reach(lasts: &mut Vec<Option<usize>>, group: usize) -> Result<(), AllocError>
    ensures noted { (number : ℕ) → noted number lasts.new.items ≡ noted number lasts.old.items }
    ensures there { OnOk result (group < length lasts.new.items) }
{
    while lasts.len() <= group {
        lasts.push(None)?;
    }
    Ok(())
}

impl<T: Drop> Links<T> {
    /// There is no item.
    #[tactic(auto, unfolding(crate::specs::LinksInside::last_of))]
    pub(crate) fn new(alloc: Global) -> Self
        ensures { result ≡ [] }
    {
        Links {
            links: Vec::new(alloc),
            lasts: Vec::new(alloc),
        }
    }

    /// How many items there are.
    pub(crate) fn len(&self) -> usize
        ensures count { result ≡ length self.now }
        ensures small { result < 2 ^ 63 }
    {
        self.links.len()
    }

    /// How many groups there are of which a last link may be noted.
    pub(crate) fn count(&self) -> usize {
        self.lasts.len()
    }

    /// More than so many items are in a group.
    pub(crate) fn is_more(&self, group: usize, most: usize) -> bool {
        self.back(group).nth(most).is_some()
    }

    /// The place of the last link in a group.
    fn last(&self, group: usize) -> Option<usize>
        ensures { result ≡ last_of group self.now }
    {
        let place = self.lasts.get(group)?;
        *place
    }

    /// Adds an item.
    pub(crate) fn push(&mut self, one: Grouped<T>) -> Result<(), AllocError>
        ensures pushed { OnOk result (self.new ≡ self.old ++ one ∷ []) }
        ensures few { length self.new ≤ length self.old + 1 }
    {
        let group = one.group;
        reach(&mut self.lasts, group)?;
        let place = self.links.len();
        let before = self.last(group);
        self.links.push(Link { one, before })?;
        self.lasts[group] = Some(place);
        Ok(())
    }

    /// Links items from the last one on, so that they are gone through in order.
    pub(crate) fn of(alloc: Global, items: Vec<Grouped<T>>) -> Result<Self, AllocError>
        ensures { IfOk result (λ links. links ≡ reverse items.items) }
    {
        let mut items = items;
        let mut links = Links::new(alloc);
        while let Some(one) = items.pop() {
            links.push(one)?;
        }
        Ok(links)
    }

    /// The items of a group, from the one that was linked last on.
    pub(crate) fn back(&self, group: usize) -> Members<'_, T>
        ensures { result ≡ reverse (in_group group self.now) }
    {
        Members {
            links: &self.links,
            group,
            next: self.last(group),
        }
    }
}
