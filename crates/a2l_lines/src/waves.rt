//! Which worker reads each unit, and when, so that each is read by one worker. No promise rests on
//! it.

use crate::contexts::KEPT_UNITS;
use crate::survey::Load;
use std::alloc::{AllocError, Global};

/// The wave in which a unit is asked, its worker, and how many units of the wave this worker has
/// before it.
#[derive(Clone, Copy, Debug)]
pub struct Share {
    pub wave: usize,
    pub worker: usize,
    pub rank: usize,
}

/// What a worker has to do in a wave.
#[derive(Clone, Copy, Debug)]
struct Part {
    units: usize,
    work: u64,
}

/// How many units are asked at a time: as many as all workers that share them keep. One worker
/// reads one after the other: where two waves meet, it would drop units that are asked again.
fn wave_of(sharers: usize) -> usize {
    if sharers > 1 {
        return KEPT_UNITS.saturating_mul(sharers);
    }
    1
}

/// The units by size, the largest first.
fn by_size(alloc: Global, loads: &[Load]) -> Result<Vec<(u64, usize)>, AllocError> {
    let mut sizes = Vec::with_capacity(alloc, loads.len())?;
    for (unit, load) in loads.iter().enumerate() {
        sizes.push((u64::MAX - load.size, unit))?;
    }
    sizes.sort_unstable();
    Ok(sizes)
}

/// The worker that has least to do, of those that can keep a unit more.
fn least_busy(parts: &[Part]) -> usize {
    let least = parts
        .iter()
        .enumerate()
        .min_by_key(|(_, part)| (part.units >= KEPT_UNITS, part.work));
    least.map_or(0, |(worker, _)| worker)
}

/// Gives a unit of a wave to a worker.
fn give(parts: &mut [Part], wave: usize, load: Load) -> Share {
    let worker = least_busy(parts);
    let mut rank = 0;
    if let Some(part) = parts.get_mut(worker) {
        rank = part.units;
        part.units = part.units.wrapping_add(1);
        part.work = part
            .work
            .wrapping_add(load.size)
            .wrapping_add(load.answering());
    }
    Share { wave, worker, rank }
}

/// The share that each unit is. The largest units come first; in a wave, each next one goes to the
/// worker that has least to do, of so many that share them.
pub fn shares_of(alloc: Global, loads: &[Load], sharers: usize) -> Result<Vec<Share>, AllocError> {
    let size = wave_of(sharers);
    let nothing = Part { units: 0, work: 0 };
    let mut parts = vec![in alloc; nothing; sharers]?;
    let none = Share {
        wave: 0,
        worker: 0,
        rank: 0,
    };
    let mut shares = vec![in alloc; none; loads.len()]?;
    for (place, (_, unit)) in by_size(alloc, loads)?.iter().enumerate() {
        let wave = place.checked_div(size).unwrap_or(0);
        if place == wave.wrapping_mul(size) {
            parts.fill(nothing);
        }
        if let (Some(share), Some(load)) = (shares.get_mut(*unit), loads.get(*unit)) {
            *share = give(&mut parts, wave, *load);
        }
    }
    Ok(shares)
}
