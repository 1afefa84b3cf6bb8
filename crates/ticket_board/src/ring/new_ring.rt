//! A new ring: its words, and the seats of senders and workers, which are cut off one by one.

ghost use Rattle.std.specs.Prelude.{◌≡◌, ◌+◌, ◌<◌, [], IfOk, IfErr, OnOk};
ghost use Rattle.ticket_core.specs.Shape.{Fits};
ghost use Rattle.ticket_board.specs.Faults.{RefusesShape};
ghost use Rattle.ticket_board.specs.Ring.Views.{stamped};
ghost use Rattle.ticket_board.specs.Ring.Opening.{AreFree, next_seat};
ghost use Rattle.ticket_board.specs.Ring.Moves.{Occurs};
ghost use Rattle.ticket_board.specs.Ring.Rule.{cut_of};
ghost use Rattle.ticket_board.specs.Ring.Opened.{IsDesk, IsRingOf, new_askers, new_takers};

use crate::fault::BoardFault;
use crate::ring::asker::Asker;
use crate::ring::board::Ring;
use crate::ring::layout::CELL_WORDS;
use crate::ring::plays::CutOff;
use crate::ring::rule::{Place, Terms};
use crate::ring::taker::Taker;
use atomic_table::Table;
use std::alloc::{AllocError, Global};
use ticket_core::{Shape, Solver};

/// The words of a ring in which nothing was asked: each cell is free for the first number that uses
/// it.
fn free_words(alloc: Global, shape: &Shape) -> Result<Vec<u64>, AllocError>
    requires { Fits shape.now }
    ensures { IfOk result (λ words. AreFree shape.now words.items) }
{
    let cells = shape.senders * shape.window;
    let mut words = Vec::with_capacity(alloc, cells * CELL_WORDS)?;
    for cell in 0..cells {
        let turn = cell % shape.window;
        words.push_reserved(8 * turn as u64);
        words.push_reserved(0);
        words.push_reserved(0);
    }
    Ok(words)
}

/// The table of a ring, and the seat from which all others are cut off.
fn lay<'a, S: Solver>(
    alloc: Global,
    shape: Shape,
    key: &'a [u8],
) -> Result<(Ring<'a, S>, Place<S>), AllocError>
    requires { Fits shape }
    ensures ring { IfOk result (λ made. IsRingOf shape key.now made.0) }
    ensures desk { IfOk result (λ made. IsDesk S.meaning made.0 0 made.1.table_id made.1.me) }
{
    let words = free_words(alloc, &shape)?;
    let terms = Terms { shape, key };
    let (table, desk) = Table::vacant(
        alloc,
        words.as_slice(),
        shape.senders * shape.window,
        &terms,
    )?;
    Ok((Ring { table, shape }, desk))
}

/// The seat of the next sender or worker.
fn cut_off<'a, S: Solver>(ring: &Ring<'a, S>, desk: &mut Place<S>) -> Place<S>
    requires desk { IsDesk S.meaning ring.now (cut_of desk.old.me.0.view.role) desk.old.table_id desk.old.me }
    requires left { cut_of desk.old.me.0.view.role < ring.now.shape.senders + ring.now.shape.workers }
    ensures desk { IsDesk S.meaning ring.now (cut_of desk.old.me.0.view.role + 1) desk.new.table_id desk.new.me }
    ensures table { result.table_id ≡ ring.now.table }
    ensures seat { result.me
        ≡ (stamped (next_seat ring.now.shape ring.now.key (cut_of desk.old.me.0.view.role)) 0, []) }
    ensures occurs { Occurs S.meaning result.me.0.view }
{
    ring.table.shared.split_seat::<CutOff>(desk)
}

/// The ends of the senders, in order.
fn open_askers<'a, S: Solver>(
    alloc: Global,
    shape: Shape,
    ring: &Ring<'a, S>,
    desk: &mut Place<S>,
) -> Result<Vec<Asker<S>>, AllocError>
    requires shape { ring.now.shape ≡ shape }
    requires fits { Fits shape }
    requires desk { IsDesk S.meaning ring.now 0 desk.old.table_id desk.old.me }
    ensures desk { OnOk result (IsDesk S.meaning ring.now shape.senders desk.new.table_id desk.new.me) }
    ensures askers { IfOk result (λ askers. askers.items ≡ new_askers ring.now) }
{
    let mut askers = Vec::with_capacity(alloc, shape.senders)?;
    for sender in 0..shape.senders {
        let seat = cut_off(ring, desk);
        askers.push_reserved(Asker {
            seat,
            shape,
            sender,
            asked: 0,
            received: 0,
            found: false,
        });
    }
    Ok(askers)
}

/// The ends of the workers, in order.
fn open_takers<'a, S: Solver>(
    alloc: Global,
    shape: Shape,
    ring: &Ring<'a, S>,
    desk: &mut Place<S>,
) -> Result<Vec<Taker<S>>, AllocError>
    requires shape { ring.now.shape ≡ shape }
    requires fits { Fits shape }
    requires desk { IsDesk S.meaning ring.now shape.senders desk.old.table_id desk.old.me }
    ensures takers { IfOk result (λ takers. takers.items ≡ new_takers ring.now) }
{
    let mut takers = Vec::with_capacity(alloc, shape.workers)?;
    for _ in 0..shape.workers {
        let seat = cut_off(ring, desk);
        takers.push_reserved(Taker {
            seat,
            shape,
            hand: None,
            begin: 0,
        });
    }
    Ok(takers)
}

impl<'a, S: Solver> Ring<'a, S> {
    /// A ring of this shape, with an end for each sender and each worker, in order. It shows the
    /// opening state of the core, by `law_of_opening`: nothing was asked.
    ///
    /// The error is `BadShape` for a shape past its limits, else `Memory` where an allocation was
    /// refused.
    pub fn open(
        alloc: Global,
        shape: Shape,
        key: &'a [u8],
    ) -> Result<(Ring<'a, S>, Vec<Asker<S>>, Vec<Taker<S>>), BoardFault>
        ensures ring { IfOk result (λ made. IsRingOf shape key.now made.0) }
        ensures askers { IfOk result (λ made. made.1.items ≡ new_askers made.0) }
        ensures takers { IfOk result (λ made. made.2.items ≡ new_takers made.0) }
        ensures fits { OnOk result (Fits shape) }
        ensures refusal { IfErr result (λ fault. RefusesShape fault shape) }
    {
        if !shape.fits() {
            return Err(BoardFault::BadShape);
        }
        let (ring, mut desk) = lay(alloc, shape, key)?;
        let askers = open_askers(alloc, shape, &ring, &mut desk)?;
        let takers = open_takers(alloc, shape, &ring, &mut desk)?;
        Ok((ring, askers, takers))
    }
}
