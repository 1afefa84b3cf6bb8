//! Ranges of addresses, by section 2.17.3 of DWARF 5.

/// The addresses from `begin` on and below `end`; none where `begin` isn't below `end`.
#[derive(Clone, Copy, Debug, Default, PartialEq, Eq)]
pub struct Range {
    pub begin: u64,
    pub end: u64,
}
