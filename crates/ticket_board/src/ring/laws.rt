//! What each move keeps, whichever seat makes it and whatever the other seats did before; and what
//! holds of a ring after any moves.
//!
//! A move is a seat that is cut off, or a step: one store, load or compare-exchange on one word.
//! Where the ring shows a state of the core before a move that may be made, it shows afterwards the
//! same state, or the state after the one event that the move is.
#![tactic(auto, using(crate::proofs::RingMoves::any_move))]

ghost use Rattle.std.specs.Prelude.{ℕ};
ghost use Rattle.ticket_core.specs.declared.query.Query.{Query};
ghost use Rattle.ticket_core.specs.State.{Meaning, Shown};
ghost use Rattle.ticket_board.specs.Ring.Views.{Asking, Working};
ghost use Rattle.ticket_board.specs.Ring.Steps.{WritesFirst, WritesSecond, Publishes, LooksNext, BringsOut};
ghost use Rattle.ticket_board.specs.Ring.Steps.{Receives, LooksAt, Takes, ReadsFirst, ReadsSecond, Answers};
ghost use Rattle.ticket_board.specs.Ring.Steps.{GivesBack};
ghost use Rattle.ticket_board.specs.Ring.Moves.{Move, Cuts, Sends, Works};
ghost use Rattle.ticket_board.specs.Ring.Misses.{MayMiss};
ghost use Rattle.ticket_board.specs.Ring.Laws.{OpeningLaw, MoveLaw, OfAllMoves, ShowsReached, AreServed};
ghost use Rattle.ticket_board.specs.Ring.Laws.{AnsweredOnce, AreDone, EndStays};

use ticket_core::law_of_runs;

#[tactic(auto, using(crate::proofs::RingMoves::any_opening, crate::proofs::RingMoves::any_move))]
/// The opened ring shows the opening state of the core, and cutting off the seat of a sender or of
/// a worker leaves the state that it shows.
pub fn law_of_opening()
    ensures opening { (meaning : Meaning) → OpeningLaw meaning }
    ensures seats { (meaning : Meaning) (cut : ℕ) → MoveLaw meaning (Cuts cut) }
{}

/// A sender stores the first word of a query in the cell of the number that it asks next: no event.
pub fn law_of_k1()
    ensures no_event { (meaning : Meaning) (s word : ℕ) (asking : Asking)
        → MoveLaw meaning (Sends s asking (WritesFirst word)) }
{}

/// A sender stores that this number waits, of whose query both words are in the cell: it is asked.
pub fn law_of_k2()
    ensures asked { (meaning : Meaning) (s : ℕ) (asking : Asking) (query : Query)
        → MoveLaw meaning (Sends s asking (Publishes query)) }
{}

/// A sender or a worker loads a state word: no event.
pub fn law_of_k3()
    ensures sender { (meaning : Meaning) (s : ℕ) (asking : Asking) → MoveLaw meaning (Sends s asking LooksNext) }
    ensures worker { (meaning : Meaning) (w cell : ℕ) (working : Working)
        → MoveLaw meaning (Works w working (LooksAt cell)) }
{}

/// A worker tries to exchange a state word, once: where that succeeds the number is taken, and else
/// it is no event.
pub fn law_of_k4()
    ensures taken { (meaning : Meaning) (w s n : ℕ) (working : Working)
        → MoveLaw meaning (Works w working (Takes s n)) }
{}

/// A worker loads the first word of the query of the number in its hand: no event.
pub fn law_of_k5()
    ensures no_event { (meaning : Meaning) (w s n : ℕ) (working : Working)
        → MoveLaw meaning (Works w working (ReadsFirst s n)) }
{}

/// A worker stores that the number in its hand is answered, of whose query it read both words, with
/// its meaning in the slot: it is finished. Or it stores that the number waits again: it is given
/// back.
pub fn law_of_k6()
    ensures answers { (meaning : Meaning) (w s n : ℕ) (working : Working) (query : Query) (answer : Shown)
        → MoveLaw meaning (Works w working (Answers s n query answer)) }
    ensures gives_back { (meaning : Meaning) (w s n : ℕ) (working : Working)
        → MoveLaw meaning (Works w working (GivesBack s n)) }
{}

/// A sender stores that its next answer is on its way out of the slot: no event.
pub fn law_of_k7()
    ensures no_event { (meaning : Meaning) (s : ℕ) (asking : Asking) → MoveLaw meaning (Sends s asking BringsOut) }
{}

/// A sender stores that the cell is free for the number a window later: the answer is collected.
pub fn law_of_k8()
    ensures collected { (meaning : Meaning) (s : ℕ) (asking : Asking) (answer : Shown)
        → MoveLaw meaning (Sends s asking (Receives answer)) }
{}

/// A sender stores the second word of the query whose first word it wrote ahead: no event.
pub fn law_of_k9()
    ensures no_event { (meaning : Meaning) (s : ℕ) (asking : Asking) (query : Query)
        → MoveLaw meaning (Sends s asking (WritesSecond query)) }
{}

/// A worker loads the second word of the query whose first word it read: no event.
pub fn law_of_k10()
    ensures no_event { (meaning : Meaning) (w s n first : ℕ) (working : Working)
        → MoveLaw meaning (Works w working (ReadsSecond s n first)) }
{}

/// Any move, by any seat.
pub fn law_of_steps()
    ensures moves { (meaning : Meaning) (move : Move) → MoveLaw meaning move }
{}

#[tactic(auto, using(crate::proofs::RingMisses::never_misses))]
/// A sender whose look is noted as a miss whatever it found breaks the rule of the table: on some
/// ring, no moves make what it would leave.
pub fn law_of_looks()
    ensures refused { (meaning : Meaning) → ¬ MayMiss meaning }
{}

/// Whatever moves made a ring since it was opened, each of which could be made where it was:
/// - `shows`: it shows a state of the core, to which the events that the moves are lead from the
///   opening one;
/// - `served`: what each sender received is a beginning of the meanings of what it asked, in its
///   order, and it keeps its limits;
/// - `once`: each number that is answered or received was answered by just one of the moves, every
///   other by none;
/// - `done`: what each worker has done is what its own moves answered, in their order, and each of
///   these numbers was answered by just one of all the moves;
/// - `ended`: a sender that received as much as it asked received the meanings of all of it, and
///   later moves leave both its lists, until it asks more.
///
/// By the rule of its table, some moves made a running ring what it is, at every moment.
pub fn law_of_board()
    ensures shows { (meaning : Meaning) → OfAllMoves meaning (ShowsReached meaning) }
    ensures served { (meaning : Meaning) → OfAllMoves meaning (AreServed meaning) }
    ensures once { (meaning : Meaning) → OfAllMoves meaning (AnsweredOnce meaning) }
    ensures done { (meaning : Meaning) → OfAllMoves meaning AreDone }
    ensures ended { (meaning : Meaning) → OfAllMoves meaning (EndStays meaning) }
{
    law_of_runs();
}
