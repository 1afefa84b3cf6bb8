//! What is known of the units that some queries ask, before one of them is read.

use dw_symbols::{Image, UnitPlace};
use std::alloc::{AllocError, Global};
use ticket_core::{Query, QueryKind};

/// How many bytes of a unit are read in the time of one answer.
const ANSWER: u64 = 512;

/// What is asked of a unit.
#[derive(Clone, Copy, Debug)]
pub struct Load {
    /// How many bytes the unit has.
    pub size: u64,
    /// How many queries are asked of it.
    pub count: u64,
}

impl Load {
    /// In the time of its answers, so many bytes of a unit are read.
    pub fn answering(&self) -> u64 {
        self.count.wrapping_mul(ANSWER)
    }
}

/// The units of some queries.
#[derive(Debug, Drop)]
pub struct Survey {
    /// For each query the index of its unit among the units of the file; `usize::MAX` where it has
    /// none.
    pub units: Vec<usize>,
    /// For each unit of the file what is asked of it.
    pub loads: Vec<Load>,
}

/// One query more is asked of a unit.
fn count(loads: &mut [Load], unit: UnitPlace) {
    if let Some(load) = loads.get_mut(unit.place) {
        load.size = unit.size;
        load.count = load.count.wrapping_add(1);
    }
}

/// The unit with which a query goes: the one that answers its address, or the first address of its
/// span.
fn unit_of(image: &Image<'_>, query: Query) -> Option<UnitPlace> {
    match query.kind() {
        QueryKind::Address(a) => image.unit_place(a),
        QueryKind::Span(low, _) => image.unit_place(low),
    }
}

/// The index of the unit of a query, which is counted.
fn counted(image: &Image<'_>, loads: &mut [Load], query: Query) -> usize {
    let Some(unit) = unit_of(image, query) else {
        return usize::MAX;
    };
    count(loads, unit);
    unit.place
}

/// The units of some queries, by the index of a file.
pub fn survey_of(
    alloc: Global,
    image: &Image<'_>,
    queries: &[Query],
) -> Result<Survey, AllocError> {
    let mut loads = vec![in alloc; Load { size: 0, count: 0 }; image.unit_count()]?;
    let mut units = Vec::new(alloc);
    for query in queries {
        units.push(counted(image, &mut loads, *query))?;
    }
    Ok(Survey { units, loads })
}
