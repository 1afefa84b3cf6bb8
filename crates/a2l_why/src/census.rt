//! How many units a file has, by what is done with them.

ghost use Rattle.std.specs.Prelude.{◌≡◌, ◌+◌, ◌<◌, length};
ghost use Rattle.dw_model.specs.Unit as cut;
ghost use Rattle.dw_units.specs.Header.{kind_shown};
ghost use Rattle.a2l_why.specs.Census.{count_of, is_kind, saturated, IsCensus};

use dw_units::{Kind, Units};

/// How many units a file has of each kind, as a listing of its units shows them.
#[derive(Clone, Copy, Debug, PartialEq, Eq)]
pub struct Census {
    pub compile: usize,
    pub partial: usize,
    pub skeleton: usize,
    pub skipped: usize,
}

impl Census {
    /// How many units answer addresses.
    pub fn answering(&self) -> usize
        ensures { result ≡ saturated (self.now.compile + self.now.skeleton) }
    {
        self.compile.saturating_add(self.skeleton)
    }

    /// How many units there are.
    pub fn all(&self) -> usize
        ensures { result ≡ saturated (self.now.compile + self.now.skeleton + self.now.partial + self.now.skipped) }
    {
        self.answering()
            .saturating_add(self.partial)
            .saturating_add(self.skipped)
    }
}

/// Whether two kinds are the same.
fn is_kind(wanted: Kind, kind: Kind) -> bool
    ensures { result ≡ is_kind (kind_shown wanted) (kind_shown kind) }
{
    match wanted {
        Kind::Compile => matches!(kind, Kind::Compile),
        Kind::Partial => matches!(kind, Kind::Partial),
        Kind::Skeleton => matches!(kind, Kind::Skeleton),
        Kind::Skipped => matches!(kind, Kind::Skipped),
    }
}

/// How many units are of a kind.
fn count_of(units: &Units<'_>, wanted: Kind) -> usize
    ensures { result ≡ count_of (kind_shown wanted) (cut.units units.now.info) }
{
    let mut count = 0;
    for i in 0..units.len() {
        if !is_kind(wanted, units.unit(i).kind) {
            continue;
        }
        count += 1;
    }
    count
}

/// The census of the units of a file.
pub fn census_of(units: &Units<'_>) -> Census
    ensures { IsCensus (cut.units units.now.info) result }
{
    Census {
        compile: count_of(units, Kind::Compile),
        partial: count_of(units, Kind::Partial),
        skeleton: count_of(units, Kind::Skeleton),
        skipped: count_of(units, Kind::Skipped),
    }
}
