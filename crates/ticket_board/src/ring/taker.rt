//! A worker's end of the ring.

ghost use Rattle.std.specs.Prelude.{◌≡◌, ◌+◌, ◌-◌, ◌*◌, ◌≤◌, ◌<◌, None, Some, IsSome, IsTrue, IfSome};
ghost use Rattle.std.specs.Prelude.{MatchBool};
ghost use Rattle.ticket_board.specs.Ring.Layout.{cells_in};
ghost use Rattle.ticket_board.specs.Ring.Takers.{IsTakerOf, TakerOccurs, HasSought, HoldsRead, IsMeaning};
ghost use Rattle.ticket_board.specs.Ring.Takers.{MissedEach, MissedAll, Between};
ghost use Rattle.ticket_board.specs.Ring.Takers.{knowing, answers_one, gives_one};

use crate::ring::board::Ring;
use crate::ring::laws::law_of_board;
use crate::ring::layout::{CELL_WORDS, FIRST, SECOND, STATE, cell_at};
use crate::ring::rule::Place;
use crate::ring::slots::put_in;
use crate::ring::steps::{finish, give_back, look_at, read_first, read_second, try_take};
use dw_bytes::Steps;
use std::marker::Model;
use std::sync::ledger::Ledger;
use ticket_core::{Query, Shape, Solver};

/// A worker's end of the ring: it takes numbers that wait. Contracts see what its seat knows.
#[derive(Drop)]
pub struct Taker<S: Solver> {
    pub(crate) seat: Place<S>,
    pub(crate) shape: Shape,
    pub(crate) hand: Option<(usize, u64)>,
    pub(crate) begin: usize,
}

impl<S: Solver> Model for Taker<S> {
    ghost use Rattle.ticket_board.specs.Ring.Takers.{TakerState, taker_shown, IsTaker};

    ghost Value = { TakerState };

    ghost view = { λ taker. taker_shown taker.seat.table_id taker.seat.me };

    ghost invariant = { λ taker. IsTaker S.meaning taker.hand taker.shape taker.seat.me };
}

impl<S: Solver> Taker<S> {
    /// Looks at a cell, and tries to take its number where that waits.
    fn try_cell<'a, L: Ledger>(
        &mut self,
        ring: &Ring<'a, S>,
        cell: usize,
        steps: &mut Steps<L>,
    ) -> bool
        requires ring { IsTakerOf ring.now self.old }
        requires empty { self.old.working.hand ≡ None }
        requires within { cell < cells_in ring.now.shape }
        ensures sought { HasSought self.old self.new }
        ensures found { MatchBool result (IsSome self.new.working.hand)
            (MissedEach 1 (λ other. other ≡ cell) self.old.working self.new.working) }
        ensures counted { steps.new ≤ steps.old + 2 }
    {
        let shelf = &ring.table.shared;
        let word = look_at(shelf, &mut self.seat, cell, steps);
        if word % 8 != 1 {
            return false;
        }
        let sender = cell / self.shape.window;
        let place = cell * CELL_WORDS + STATE;
        let found = try_take(shelf, &mut self.seat, place, word, word + 1, steps);
        if found != word {
            return false;
        }
        self.hand = Some((sender, word / 8));
        true
    }

    /// Tries each of these cells, as far as one gives a number.
    fn try_cells<'a, L: Ledger>(
        &mut self,
        ring: &Ring<'a, S>,
        from: usize,
        to: usize,
        steps: &mut Steps<L>,
    ) -> bool
        requires ring { IsTakerOf ring.now self.old }
        requires empty { self.old.working.hand ≡ None }
        requires order { from ≤ to }
        requires within { to ≤ cells_in ring.now.shape }
        ensures sought { HasSought self.old self.new }
        ensures found { MatchBool result (IsSome self.new.working.hand)
            (MissedEach (to - from) (Between from to) self.old.working self.new.working) }
        ensures counted { steps.new + 2 * from ≤ steps.old + 2 * to }
    {
        for cell in from..to {
            if self.try_cell(ring, cell, steps) {
                return true;
            }
        }
        false
    }

    /// Tries all cells once, from the one on at which this worker begins.
    fn seek<'a, L: Ledger>(&mut self, ring: &Ring<'a, S>, steps: &mut Steps<L>) -> bool
        requires ring { IsTakerOf ring.now self.old }
        requires empty { self.old.working.hand ≡ None }
        ensures sought { HasSought self.old self.new }
        ensures found { MatchBool result (IsSome self.new.working.hand)
            (MissedAll ring.now.shape self.old.working self.new.working) }
        ensures counted { steps.new ≤ steps.old + 2 * cells_in ring.now.shape }
    {
        let cells = self.shape.senders * self.shape.window;
        let begin = if self.begin < cells { self.begin } else { 0 };
        if self.try_cells(ring, begin, cells, steps) {
            return true;
        }
        self.try_cells(ring, 0, begin, steps)
    }

    /// Reads the query of the number in the hand.
    fn read<'a, L: Ledger>(
        &mut self,
        ring: &Ring<'a, S>,
        steps: &mut Steps<L>,
    ) -> (usize, u64, Query)
        requires ring { IsTakerOf ring.now self.old }
        requires held { IsSome self.old.working.hand }
        ensures sought { HasSought self.old self.new }
        ensures held { HoldsRead result self.new.working × (result.0 < ring.now.shape.senders) }
        ensures same { self.new.working.hand ≡ self.old.working.hand }
        ensures counted { steps.new ≡ steps.old + 2 }
    {
        let Some((sender, number)) = self.hand else {
            unreachable!()
        };
        let words = cell_at(&self.shape, sender, number) * CELL_WORDS;
        let shelf = &ring.table.shared;
        let first = read_first(shelf, &mut self.seat, words + FIRST, steps);
        let second = read_second(shelf, &mut self.seat, words + SECOND, steps);
        (sender, number, Query::of_words(first, second))
    }

    /// Takes a number that waits, and returns its sender, the number and its query; or `None`,
    /// where no cell gave it one in one pass over all cells. It waits for nobody and takes no
    /// memory. A step is one load or compare-exchange of a word: there are at most two for each
    /// cell, and two more.
    pub fn take<'a, L: Ledger>(
        &mut self,
        ring: &Ring<'a, S>,
        steps: &mut Steps<L>,
    ) -> Option<(usize, u64, Query)>
        requires ring { IsTakerOf ring.now self.old }
        requires empty { self.old.working.hand ≡ None }
        ensures sought { HasSought self.old self.new }
        ensures taken { IfSome result (λ found. HoldsRead found self.new.working × (found.0 < ring.now.shape.senders)) }
        ensures none { result ≡ None → MissedAll ring.now.shape self.old.working self.new.working }
        ensures counted { steps.new ≤ steps.old + 2 * cells_in ring.now.shape + 2 }
    {
        if !self.seek(ring, steps) {
            return None;
        }
        Some(self.read(ring, steps))
    }

    /// Answers the number in the hand, and returns its sender and the number. It waits for nobody
    /// and takes no memory.
    pub fn answer<'a, L: Ledger>(
        &mut self,
        ring: &Ring<'a, S>,
        answer: S::Answer,
        steps: &mut Steps<L>,
    ) -> (usize, u64)
        requires ring { IsTakerOf ring.now self.old }
        requires right { IsMeaning S.shown S.meaning answer self.old }
        ensures ticket { self.old.working.hand ≡ Some result }
        ensures answered { self.new ≡ knowing (answers_one result self.old.working) self.old }
        ensures counted { steps.new ≡ steps.old + 1 }
    {
        let Some((sender, number)) = self.hand else {
            unreachable!()
        };
        let cell = cell_at(&self.shape, sender, number);
        let shelf = &ring.table.shared;
        put_in(shelf, &mut self.seat, cell, answer);
        finish(
            shelf,
            &mut self.seat,
            cell * CELL_WORDS + STATE,
            8 * number + 3,
            steps,
        );
        self.hand = None;
        (sender, number)
    }

    /// Gives the number in the hand back, which waits again, and returns its sender and the number.
    /// It waits for nobody and takes no memory.
    pub fn give_back<'a, L: Ledger>(
        &mut self,
        ring: &Ring<'a, S>,
        steps: &mut Steps<L>,
    ) -> (usize, u64)
        requires ring { IsTakerOf ring.now self.old }
        requires held { IsSome self.old.working.hand }
        ensures ticket { self.old.working.hand ≡ Some result }
        ensures given { self.new ≡ knowing (gives_one result self.old.working) self.old }
        ensures counted { steps.new ≡ steps.old + 1 }
    {
        let Some((sender, number)) = self.hand else {
            unreachable!()
        };
        let cell = cell_at(&self.shape, sender, number);
        let shelf = &ring.table.shared;
        give_back(
            shelf,
            &mut self.seat,
            cell * CELL_WORDS + STATE,
            8 * number + 1,
            steps,
        );
        self.hand = None;
        (sender, number)
    }

    /// Whatever was called before, some moves make a ring on which a worker knows what this one
    /// knows; and by `law_of_board`, what it has done is what its own moves answered, in their
    /// order, and each of these numbers was answered by just one of all the moves. It does nothing.
    pub fn law_of_taker(&self)
        ensures occurs { TakerOccurs S.meaning self.now }
    {
        let _ = &self.begin;
        law_of_board();
    }

    /// Has `take` begin at this cell, and go round from there. It makes no step.
    pub fn begin_at(&mut self, cell: usize)
        ensures stays { self.new ≡ self.old }
    {
        self.begin = cell;
    }
}
