//! A sender's client: it asks, and receives the answers in the order of its queries.

ghost use Rattle.std.specs.Prelude.{◌≡◌, ◌<◌, ◌↔◌, true, false, None, Some, IfOk, OnOk, OnErr, MatchResult, length};
ghost use Rattle.ticket_board.specs.Ring.Laws.{IsServed};
ghost use Rattle.ticket_board.specs.Seats.{IsClientOf, ClientOccurs, HasEnded, asks, closes, finds, receives};
ghost use Rattle.ticket_board.specs.Seats.{ask_refusal};
ghost use Rattle.ticket_board.specs.Outcome.{query_of, IsEnded, IfEnded, IfPending, OnAnswer};
ghost use Rattle.ticket_board.specs.Calls.{Ask, Ready, Close, IsCall, EndIsFinal, next_call};

use crate::board::Board;
use crate::fault::AskFault;
use crate::outcome::Next;
use crate::ring::Asker;
use std::marker::Model;
use ticket_core::{Query, Solver};

/// A sender's client. Contracts see what it asked and received, by number, whether it is closed,
/// whether the next number was found answered, and which numbers weren't when it looked.
#[derive(Drop)]
pub struct Client<S: Solver> {
    pub(crate) asker: Asker<S>,
    pub(crate) closed: bool,
}

impl<S: Solver> Model for Client<S> {
    ghost use Rattle.ticket_board.specs.Seats.{ClientState, client_shown};

    ghost Value = { ClientState };

    ghost view = { λ client. client_shown client.closed client.asker };
}

impl<S: Solver> Client<S> {
    /// Asks a query, and returns its number, counted from 0. It waits for nobody and takes no
    /// memory.
    ///
    /// The errors, tested in this order: `Closed` after `close`; `Exhausted` where as many were
    /// asked as the shape allows; `Full` where as many are outstanding as the window allows.
    pub fn ask<'a>(&mut self, board: &Board<'a, S>, query: Query) -> Result<u64, AskFault>
        requires board { IsClientOf board.now self.old }
        ensures seat { self.new.seat ≡ self.old.seat }
        ensures number { IfOk result (λ n. n ≡ length self.old.asked) }
        ensures asked { OnOk result (self.new ≡ asks query self.old) }
        ensures refused { OnErr result (self.new ≡ self.old) }
        ensures refusal { MatchResult result (λ _. ask_refusal self.old ≡ None)
            (λ fault. ask_refusal self.old ≡ Some fault) }
        ensures call { MatchResult result (λ _. IsCall (Ask query None) self.old self.new)
            (λ fault. IsCall (Ask query (Some fault)) self.old self.new) }
    {
        if self.closed {
            return Err(AskFault::Closed);
        }
        self.asker.ask(&board.ring, query)
    }

    /// Whether the next number was found answered. Then `next` returns it. It waits for nobody and
    /// takes no memory.
    pub fn ready<'a>(&mut self, board: &Board<'a, S>) -> bool
        requires board { IsClientOf board.now self.old }
        ensures found { self.old.found ≡ true → result ≡ true }
        ensures outstanding { result ≡ true → length self.old.received < length self.old.asked }
        ensures looked { self.new ≡ finds result self.old }
        ensures call { IsCall (Ready result) self.old self.new }
    {
        self.asker.ready(&board.ring)
    }

    /// The next number and its answer, in the order in which they were asked, each once; or that
    /// there is none yet; or, exactly where the client is closed and received everything, the end.
    /// It waits for nobody and takes no memory.
    pub fn next<'a>(&mut self, board: &Board<'a, S>) -> Next<S::Answer>
        requires board { IsClientOf board.now self.old }
        ensures seat { self.new.seat ≡ self.old.seat }
        ensures ended { IsEnded result ↔ HasEnded self.old }
        ensures number { OnAnswer result (λ n answer. (n ≡ length self.old.received) × (n < length self.old.asked)) }
        ensures answer { OnAnswer result (λ n answer. S.shown answer
            ≡ S.meaning self.old.seat.key (query_of self.old n)) }
        ensures received { OnAnswer result (λ n answer. self.new ≡ receives (S.shown answer) self.old) }
        ensures pending { IfPending result ((self.old.found ≡ false) × (self.new ≡ finds false self.old)) }
        ensures stays { IfEnded result (self.new ≡ self.old) }
        ensures call { IsCall (next_call S.shown result) self.old self.new }
    {
        if self.closed && self.asker.has_all() {
            return Next::Ended;
        }
        if !self.ready(board) {
            return Next::Pending;
        }
        let (number, answer) = self.asker.collect(&board.ring);
        Next::Answer(number, answer)
    }

    /// Whatever was called before, some moves make a board on which a sender's lists are those of
    /// this client. So `law_of_board` holds of them: what the client received is a beginning of the
    /// meanings of what it asked, in its order. It does nothing.
    pub fn law_of_client(&self)
        ensures occurs { ClientOccurs S.meaning self.now }
        ensures right { IsServed S.meaning self.now.seat.shape self.now.seat.key self.now.asked self.now.received }
    {
        self.asker.law_of_asker();
    }

    /// Asks no more. What is outstanding is still received. A client that is closed stays as it is.
    /// It makes no step.
    pub fn close(&mut self)
        ensures seat { self.new.seat ≡ self.old.seat }
        ensures closed { self.new ≡ closes self.old }
        ensures call { IsCall Close self.old self.new }
    {
        self.closed = true;
    }
}

#[tactic(auto, using(crate::proofs::EndLemmas::end_is_final))]
/// The end is final: whatever is called of a client that is closed and received everything, each
/// query is refused as `Closed`, `ready` finds nothing, `next` returns the end, and what the client
/// asked and received stays as it is.
pub fn law_of_end()
    ensures end { EndIsFinal }
{}
