//! Tests of the crates `ticket_core` and `ticket_board`, through their public calls alone. They are
//! here so that those crates are proved once, and not once more with their tests.
#![tactic(auto)]

#[cfg(test)]
mod board;
#[cfg(test)]
mod board_desk;
#[cfg(test)]
mod core_desk;
#[cfg(test)]
mod faults;
#[cfg(test)]
mod gates;
#[cfg(test)]
mod machine;
#[cfg(test)]
mod pool;
#[cfg(test)]
mod queries;
#[cfg(test)]
mod ring_ends;
#[cfg(test)]
mod ring_threads;
#[cfg(test)]
mod runs;
#[cfg(test)]
mod shapes;
#[cfg(test)]
mod solver;
