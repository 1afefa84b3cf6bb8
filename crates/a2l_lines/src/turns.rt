//! When each query is asked, so that workers share the units. No promise rests on it.

use crate::contexts::KEPT_UNITS;
use crate::survey::Survey;
use crate::waves::{Share, shares_of};
use std::alloc::{AllocError, Global};

/// How many queries of one worker are asked in a row, so that it answers as many before it waits.
const ROW: u64 = 4;

/// How many turns of a wave come after those of the first queries of its units.
const LATER: u64 = u32::MAX as u64 - 1 - KEPT_UNITS as u64;

/// When a query is asked: its wave, and its turn in that.
pub type Turn = (u32, u32);

/// The turn of a query without a unit.
const LAST: Turn = (u32::MAX, u32::MAX);

/// How many queries a worker gets in a wave, and how many of these have a turn.
#[derive(Clone, Copy, Debug)]
struct Progress {
    count: u64,
    seen: u64,
}

impl Progress {
    /// The turn of the next query: rows of queries are evenly spread over the wave.
    fn next(&mut self) -> u32 {
        let row = self.seen.checked_div(ROW).unwrap_or(0).wrapping_mul(ROW);
        self.seen = self.seen.wrapping_add(1);
        let part = row.wrapping_mul(LATER).checked_div(self.count).unwrap_or(0);
        u32::try_from(part.wrapping_add(KEPT_UNITS as u64)).unwrap_or(u32::MAX)
    }
}

/// The turns of queries, one after the other.
#[derive(Debug, Drop)]
pub struct Turns<'s> {
    survey: &'s Survey,
    /// How many workers share the units.
    sharers: usize,
    /// For each unit its wave and its worker.
    shares: Vec<Share>,
    /// For each unit whether one of its queries has a turn.
    begun: Vec<bool>,
    /// For each wave and each worker how far its queries are.
    progress: Vec<Progress>,
}

impl<'s> Turns<'s> {
    /// No query has a turn yet. So many workers share the units.
    pub fn new(alloc: Global, survey: &'s Survey, sharers: usize) -> Result<Self, AllocError> {
        let shares = shares_of(alloc, &survey.loads, sharers)?;
        let waves = shares.iter().map(|share| share.wave).max().unwrap_or(0);
        let none = Progress { count: 0, seen: 0 };
        let mut turns = Turns {
            survey,
            sharers,
            shares,
            begun: vec![in alloc; false; survey.loads.len()]?,
            progress: vec![in alloc; none; waves.wrapping_add(1).wrapping_mul(sharers)]?,
        };
        turns.count();
        Ok(turns)
    }

    /// Counts the queries of each worker in each wave.
    fn count(&mut self) {
        let Turns {
            survey,
            sharers,
            shares,
            progress,
            ..
        } = self;
        for (share, load) in shares.iter().zip(survey.loads.iter()) {
            let place = share.wave.wrapping_mul(*sharers).wrapping_add(share.worker);
            if let Some(progress) = progress.get_mut(place) {
                progress.count = progress.count.wrapping_add(load.count);
            }
        }
    }

    /// The share of the unit of the query at an index.
    pub fn share(&self, index: usize) -> Option<Share> {
        let unit = self.survey.units.get(index)?;
        let share = self.shares.get(*unit)?;
        Some(*share)
    }

    /// The turn of the query at an index: the first query of a unit comes before the later ones of
    /// its wave, one of each worker at a time, and a query without a unit comes last.
    pub fn next(&mut self, index: usize) -> Turn {
        let (Some(unit), Some(share)) = (self.survey.units.get(index), self.share(index)) else {
            return LAST;
        };
        let wave = u32::try_from(share.wave).unwrap_or(u32::MAX);
        let Some(begun) = self.begun.get_mut(*unit) else {
            return LAST;
        };
        if !*begun {
            *begun = true;
            return (wave, u32::try_from(share.rank).unwrap_or(0));
        }
        let place = share
            .wave
            .wrapping_mul(self.sharers)
            .wrapping_add(share.worker);
        match self.progress.get_mut(place) {
            Some(progress) => (wave, progress.next()),
            None => LAST,
        }
    }
}
