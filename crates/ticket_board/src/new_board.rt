//! A new board: a client for each sender's end of its ring, and a worker for each worker's end.

ghost use Rattle.std.specs.Prelude.{◌≡◌, false, IfOk, IfErr, OnOk, map};
ghost use Rattle.std.specs.List.{AllByRecursion};
ghost use Rattle.ticket_core.specs.Shape.{Fits};
ghost use Rattle.ticket_board.specs.Ring.Takers.{HasEmptyHand};
ghost use Rattle.ticket_board.specs.Ring.Opened.{IsRingOf};
ghost use Rattle.ticket_board.specs.Seats.{client_shown, worker_shown, new_clients, new_workers, IsClientOf};
ghost use Rattle.ticket_board.specs.Seats.{IsWorkerOf};
ghost use Rattle.ticket_board.specs.Faults.{RefusesShape};

use crate::board::Board;
use crate::client::Client;
use crate::fault::BoardFault;
use crate::ring::{Asker, Ring, Taker};
use crate::worker::Worker;
use std::alloc::{AllocError, Global};
use ticket_core::{Shape, Solver};

/// A client for each sender's end, not closed.
fn clients_of<S: Solver>(alloc: Global, askers: Vec<Asker<S>>) -> Result<Vec<Client<S>>, AllocError>
    ensures { IfOk result (λ clients. clients.items ≡ map (client_shown false) askers.items) }
{
    let mut clients = Vec::with_capacity(alloc, askers.len())?;
    for asker in askers {
        clients.push_reserved(Client {
            asker,
            closed: false,
        });
    }
    Ok(clients)
}

/// A worker for each worker's end, whose hands are empty.
fn workers_of<S: Solver>(alloc: Global, takers: Vec<Taker<S>>) -> Result<Vec<Worker<S>>, AllocError>
    requires { AllByRecursion HasEmptyHand takers.items }
    ensures { IfOk result (λ workers. workers.items ≡ map worker_shown takers.items) }
{
    let mut workers = Vec::with_capacity(alloc, takers.len())?;
    for taker in takers {
        workers.push_reserved(Worker { taker });
    }
    Ok(workers)
}

/// A board of this shape, a client for each sender and a worker for each worker of the shape, in
/// order. They share nothing but the board, on whatever threads they are.
///
/// The error is `BadShape` for a shape past its limits, else `Memory` where an allocation was
/// refused.
#[tactic(auto, using(crate::proofs::OpeningLemmas::all_clients, crate::proofs::OpeningLemmas::all_workers))]
pub fn open<'a, S: Solver>(
    alloc: Global,
    shape: Shape,
    key: &'a [u8],
) -> Result<(Board<'a, S>, Vec<Client<S>>, Vec<Worker<S>>), BoardFault>
    ensures board { IfOk result (λ made. IsRingOf shape key.now made.0) }
    ensures clients { IfOk result (λ made. made.1.items ≡ new_clients made.0) }
    ensures workers { IfOk result (λ made. made.2.items ≡ new_workers made.0) }
    ensures client_seats { IfOk result (λ made. AllByRecursion (IsClientOf made.0) made.1.items) }
    ensures worker_seats { IfOk result (λ made. AllByRecursion (IsWorkerOf made.0) made.2.items) }
    ensures fits { OnOk result (Fits shape) }
    ensures refusal { IfErr result (λ fault. RefusesShape fault shape) }
{
    let (ring, askers, takers) = Ring::open(alloc, shape, key)?;
    let clients = clients_of(alloc, askers)?;
    let workers = workers_of(alloc, takers)?;
    Ok((Board { ring }, clients, workers))
}
