//! What a seat knows by each step that it makes.

ghost use Rattle.std.specs.Prelude.{◌/◌};
ghost use Rattle.atomic_table.specs.Table.{rest};
ghost use Rattle.ticket_board.specs.Ring.Layout.{cell_words};
ghost use Rattle.ticket_board.specs.Ring.Homes.{Out};
ghost use Rattle.ticket_board.specs.Ring.Steps.{WritesFirst, WritesSecond, Publishes, LooksNext, Receives};
ghost use Rattle.ticket_board.specs.Ring.Moves.{Occurs};
ghost use Rattle.ticket_board.specs.Ring.Rule.{ahead_of, ahead_with, collecting_of, seen_of, hand_of, first_read_of};
ghost use Rattle.ticket_board.specs.Ring.Rule.{left_after, cut_from};
ghost use Rattle.ticket_board.specs.Ring.Rule.{KnowsSent, KnowsAnswer, KnowsLooked, KnowsTried, KnowsFirst};
ghost use Rattle.ticket_board.specs.Ring.Rule.{KnowsSecond, KnowsAnswered, KnowsGivenBack};

use crate::ring::rule::Knowledge;
use atomic_table::{Play, Split};
use std::marker::PhantomData;
use ticket_core::Solver;

/// The seat of the next sender or worker is cut off.
pub struct CutOff;

impl Split<Knowledge> for CutOff {
    ghost left = { left_after };

    ghost right = { cut_from };
}

/// The first word of a query is written ahead.
pub struct WriteFirst;

impl<T> Play<Option<T>, Knowledge> for WriteFirst {
    ghost then = { λ step old word new. KnowsSent (WritesFirst step.first) 0 Out old.1 old new };
}

/// The second word is written ahead, after the first.
pub struct WriteSecond;

impl<T> Play<Option<T>, Knowledge> for WriteSecond {
    ghost then = { λ step old word new. KnowsSent
        (WritesSecond (ahead_with old.0.view.role step.first)) 0 Out old.1 old new };
}

/// A number is asked.
pub struct Publish<S> {
    solved_by: PhantomData<S>,
}

impl<S: Solver> Play<Option<S::Answer>, Knowledge> for Publish<S> {
    ghost then = { λ step old word new. KnowsSent
        (Publishes (ahead_of old.0.view.role)) 0 Out old.1 old new × Occurs S.meaning new.0.view };
}

/// A sender looks for its next answer.
pub struct LookNext<S> {
    solved_by: PhantomData<S>,
}

impl<S: Solver> Play<Option<S::Answer>, Knowledge> for LookNext<S> {
    ghost then = { λ step old word new. KnowsSent LooksNext word Out old.1 old new × Occurs S.meaning new.0.view };
}

/// The next answer is on its way out of its slot.
pub struct BringOut<S> {
    solved_by: PhantomData<S>,
}

impl<S: Solver> Play<Option<S::Answer>, Knowledge> for BringOut<S> {
    ghost then = { λ step old word new. (answer : S.Answer) × KnowsAnswer S.shown S.meaning answer old new };
}

/// The next answer is received.
pub struct Receive<S> {
    solved_by: PhantomData<S>,
}

impl<S: Solver> Play<Option<S::Answer>, Knowledge> for Receive<S> {
    ghost then = { λ step old word new. KnowsSent
        (Receives (collecting_of old.0.view.role)) 0 Out (rest old.1) old new × Occurs S.meaning new.0.view };
}

/// A worker looks at a cell.
pub struct LookAt<S> {
    solved_by: PhantomData<S>,
}

impl<S: Solver> Play<Option<S::Answer>, Knowledge> for LookAt<S> {
    ghost then = { λ step old word new. KnowsLooked (step.word / cell_words) word old new
        × Occurs S.meaning new.0.view };
}

/// A worker tries to take the number that it saw.
pub struct Take<S> {
    solved_by: PhantomData<S>,
}

impl<S: Solver> Play<Option<S::Answer>, Knowledge> for Take<S> {
    ghost then = { λ step old word new. KnowsTried (seen_of old.0.view.role) word old new
        × Occurs S.meaning new.0.view };
}

/// A worker reads the first word of the query of the number in its hand.
pub struct ReadFirst<S> {
    solved_by: PhantomData<S>,
}

impl<S: Solver> Play<Option<S::Answer>, Knowledge> for ReadFirst<S> {
    ghost then = { λ step old word new. KnowsFirst (hand_of old.0.view.role) word old new
        × Occurs S.meaning new.0.view };
}

/// A worker reads the second word, after the first.
pub struct ReadSecond<S> {
    solved_by: PhantomData<S>,
}

impl<S: Solver> Play<Option<S::Answer>, Knowledge> for ReadSecond<S> {
    ghost then = { λ step old word new. KnowsSecond
        (hand_of old.0.view.role) (first_read_of old.0.view.role) word old new × Occurs S.meaning new.0.view };
}

/// A worker answers the number in its hand.
pub struct Finish<S> {
    solved_by: PhantomData<S>,
}

impl<S: Solver> Play<Option<S::Answer>, Knowledge> for Finish<S> {
    ghost then = { λ step old word new. KnowsAnswered (hand_of old.0.view.role) (rest old.1) old new
        × Occurs S.meaning new.0.view };
}

/// A worker gives the number in its hand back.
pub struct GiveBack<S> {
    solved_by: PhantomData<S>,
}

impl<S: Solver> Play<Option<S::Answer>, Knowledge> for GiveBack<S> {
    ghost then = { λ step old word new. KnowsGivenBack (hand_of old.0.view.role) (rest old.1) old new
        × Occurs S.meaning new.0.view };
}
