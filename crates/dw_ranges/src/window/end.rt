//! Where a window may end.

ghost use Rattle.std.specs.Prelude.{◌<◌};
ghost use Rattle.dw_model.specs.Steady.{last_address};

use crate::held::{HeldList, Listed};
use crate::links::Links;

/// How many borders the lists with indexes have in group 0, above one address and up to another.
fn borders(held: &Links<HeldList<'_>>, from: u64, until: u64) -> usize {
    let mut count = 0usize;
    for one in held.back(0) {
        if let Listed::Indexed(index, base) = &one.list {
            count = count.saturating_add(index.borders(*base, from, until));
        }
    }
    count
}

/// What is known of the end of a window: that it is after one address, and before another or there.
#[derive(Clone, Copy)]
struct Between {
    few: u64,
    many: u64,
}

impl Between {
    /// The address to try after one: twice as far from the begin, or else in the middle.
    fn next(self, from: u64, tried: u64) -> u64 {
        let far = tried.saturating_add(tried.saturating_sub(from));
        if self.few == tried && far < self.many {
            return far;
        }
        self.few
            .saturating_add(self.many.saturating_sub(self.few) / 2)
    }
}

/// Where the lists with indexes have no more borders than `most` after an address, and a quarter of
/// them at least, where they have as many. So many addresses behind it are tried first.
fn with_borders(held: &Links<HeldList<'_>>, most: usize, from: u64, width: u64) -> u64 {
    if borders(held, from, u64::MAX) <= most {
        return u64::MAX;
    }
    let mut end = Between {
        few: from,
        many: u64::MAX,
    };
    let mut until = from.saturating_add(width.max(1));
    for _ in 0..128 {
        let count = borders(held, from, until);
        if count > most {
            end.many = until;
        } else if count < most / 4 {
            end.few = until;
        } else {
            return until;
        }
        until = end.next(from, until);
    }
    end.many
}

/// Where a window may end that begins at an address, after one of so many addresses. Any end would
/// do; by this one a window costs no more than its lists and its pieces, and windows are often as
/// wide as the one before.
pub(super) fn end_of(held: &Links<HeldList<'_>>, most: usize, from: u64, width: u64) -> u64
    ensures { from < last_address → from < result }
{
    let until = with_borders(held, most, from, width);
    if until <= from {
        return u64::MAX;
    }
    until
}
