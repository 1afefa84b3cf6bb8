//! A sender's end of the ring.

ghost use Rattle.std.specs.Prelude.{◌≡◌, ◌<◌, true, None, Some, IfOk, OnOk, OnErr, MatchResult, nat_eq};
ghost use Rattle.ticket_board.specs.Ring.Views.{next_asked, next_received};
ghost use Rattle.ticket_board.specs.Ring.Laws.{IsServed};
ghost use Rattle.ticket_board.specs.Ring.Ends.{IsAskerOf, AskerOccurs, asking_refusal, asked_at, asks_one, looks};
ghost use Rattle.ticket_board.specs.Ring.Ends.{receives_one};

use crate::fault::AskFault;
use crate::ring::board::Ring;
use crate::ring::laws::law_of_board;
use crate::ring::layout::{CELL_WORDS, FIRST, SECOND, STATE, cell_at};
use crate::ring::rule::Place;
use crate::ring::slots::take_out;
use crate::ring::steps::{bring_out, look_next, publish, receive, write_first, write_second};
use std::marker::Model;
use ticket_core::{Query, Shape, Solver};

/// A sender's end of the ring: it asks. Contracts see what its seat knows.
#[derive(Drop)]
pub struct Asker<S: Solver> {
    pub(crate) seat: Place<S>,
    pub(crate) shape: Shape,
    pub(crate) sender: usize,
    pub(crate) asked: u64,
    pub(crate) received: u64,
    pub(crate) found: bool,
}

impl<S: Solver> Model for Asker<S> {
    ghost use Rattle.ticket_board.specs.Ring.Ends.{AskerState, asker_shown, IsAsker};

    ghost Value = { AskerState };

    ghost view = { λ asker. asker_shown asker.sender asker.seat.table_id asker.seat.me };

    ghost invariant = { λ asker. IsAsker S.meaning asker.sender asker.asked asker.received asker.found asker.shape
        asker.seat.me };
}

impl<S: Solver> Asker<S> {
    /// Asks a query, and returns its number, counted from 0. It waits for nobody and takes no
    /// memory.
    ///
    /// The errors, tested in this order: `Exhausted` where as many were asked as the shape allows;
    /// `Full` where as many are outstanding as the window allows. They change nothing.
    pub fn ask<'a>(&mut self, ring: &Ring<'a, S>, query: Query) -> Result<u64, AskFault>
        requires ring { IsAskerOf ring.now self.old }
        ensures number { IfOk result (λ n. n ≡ next_asked self.old.asking) }
        ensures asked { OnOk result (self.new ≡ record self.old { asking = asks_one query self.old.asking }) }
        ensures refused { OnErr result (self.new ≡ self.old) }
        ensures refusal { MatchResult result (λ _. asking_refusal self.old.shape self.old.asking ≡ None)
            (λ fault. asking_refusal self.old.shape self.old.asking ≡ Some fault) }
    {
        if self.asked >= self.shape.most {
            return Err(AskFault::Exhausted);
        }
        if self.asked - self.received >= self.shape.window as u64 {
            return Err(AskFault::Full);
        }
        let number = self.asked;
        let words = cell_at(&self.shape, self.sender, number) * CELL_WORDS;
        let shelf = &ring.table.shared;
        write_first(shelf, &mut self.seat, words + FIRST, query.first());
        write_second(shelf, &mut self.seat, words + SECOND, query);
        publish(shelf, &mut self.seat, words + STATE, 8 * number + 1);
        self.asked = number + 1;
        Ok(number)
    }

    /// Whether the next number was found answered, as `collect` asks. It waits for nobody and takes
    /// no memory.
    pub fn ready<'a>(&mut self, ring: &Ring<'a, S>) -> bool
        requires ring { IsAskerOf ring.now self.old }
        ensures found { self.old.asking.found ≡ true → result ≡ true }
        ensures outstanding { result ≡ true → next_received self.old.asking < next_asked self.old.asking }
        ensures looked { self.new ≡ record self.old { asking = looks result self.old.asking } }
    {
        if self.found {
            return true;
        }
        let cell = cell_at(&self.shape, self.sender, self.received);
        let word = look_next(
            &ring.table.shared,
            &mut self.seat,
            cell * CELL_WORDS + STATE,
        );
        self.found = word == 8 * self.received + 3;
        self.found
    }

    /// Receives the answer of the next number, which was found answered, and returns that number
    /// and its answer. It waits for nobody and takes no memory.
    pub fn collect<'a>(&mut self, ring: &Ring<'a, S>) -> (u64, S::Answer)
        requires ring { IsAskerOf ring.now self.old }
        requires found { self.old.asking.found ≡ true }
        ensures number { (result.0 ≡ next_received self.old.asking) × (result.0 < next_asked self.old.asking) }
        ensures answer { S.shown result.1 ≡ S.meaning self.old.key (asked_at self.old.asking result.0) }
        ensures received { self.new ≡ record self.old { asking = receives_one (S.shown result.1) self.old.asking } }
    {
        let number = self.received;
        let cell = cell_at(&self.shape, self.sender, number);
        let word = cell * CELL_WORDS + STATE;
        let free = 8 * (number + self.shape.window as u64);
        let shelf = &ring.table.shared;
        bring_out(shelf, &mut self.seat, word, 8 * number + 4);
        let answer = take_out(shelf, &mut self.seat, cell);
        receive(shelf, &mut self.seat, word, free);
        self.received = number + 1;
        self.found = false;
        (number, answer)
    }

    /// Whether everything that was asked is received.
    pub fn has_all(&self) -> bool
        ensures { result ≡ nat_eq (next_received self.now.asking) (next_asked self.now.asking) }
    {
        self.received == self.asked
    }

    /// Whatever was called before, some moves make a ring on which a sender knows what this one
    /// knows. So `law_of_board` holds of it: what was received is a beginning of the meanings of
    /// what was asked, in its order. It does nothing.
    pub fn law_of_asker(&self)
        ensures occurs { AskerOccurs S.meaning self.now }
        ensures right { IsServed S.meaning self.now.shape self.now.key self.now.asking.asked self.now.asking.received }
    {
        let _ = &self.received;
        law_of_board();
    }
}
