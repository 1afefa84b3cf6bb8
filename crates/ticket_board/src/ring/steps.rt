//! The steps of the ring on its table, each one store, load or compare-exchange: first those of a
//! sender, then those of a worker, which are counted.

ghost use Rattle.std.specs.Prelude.{◌≡◌, ◌<◌, ◌+◌, true, Some, None};
ghost use Rattle.atomic_table.specs.Table.{rest};
ghost use Rattle.ticket_core.specs.Query.{first_word};
ghost use Rattle.ticket_board.specs.Ring.Layout.{cells_in, cell_of, word_of, state_field, first_place, second_place};
ghost use Rattle.ticket_board.specs.Ring.Layout.{state_place, free_word, asked_word, taken_word, answered_word};
ghost use Rattle.ticket_board.specs.Ring.Layout.{collecting_word};
ghost use Rattle.ticket_board.specs.Ring.Homes.{Out};
ghost use Rattle.ticket_board.specs.Ring.Views.{FirstWord, Whole, next_asked, next_received, HasRoom};
ghost use Rattle.ticket_board.specs.Ring.Steps.{WritesFirst, WritesSecond, Publishes, LooksNext, Receives};
ghost use Rattle.ticket_board.specs.Ring.Moves.{Occurs};
ghost use Rattle.ticket_board.specs.Ring.Rule.{IsWorker, sender_of, ahead_of, collecting_of, seen_of, hand_of};
ghost use Rattle.ticket_board.specs.Ring.Rule.{read_of, first_read_of, KnowsSent, KnowsAnswer, KnowsLooked};
ghost use Rattle.ticket_board.specs.Ring.Rule.{KnowsTried, KnowsFirst, KnowsSecond, KnowsAnswered, KnowsGivenBack};
ghost use Rattle.ticket_board.specs.Ring.Rule.{CarriesFirst, CarriesMeaning, IsAt, SendsAt, HoldsAt, asking_in};
ghost use Rattle.ticket_board.specs.Ring.Rule.{working_in};

use crate::ring::layout::{CELL_WORDS, STATE};
use crate::ring::plays::{
    BringOut, Finish, GiveBack, LookAt, LookNext, Publish, ReadFirst, ReadSecond, Receive, Take,
    WriteFirst, WriteSecond,
};
use crate::ring::rule::{Place, Shelf};
use dw_bytes::Steps;
use std::sync::ledger::Ledger;
use ticket_core::{Query, Solver};

/// Stores the first word of a query in the cell of the number that a sender asks next.
pub fn write_first<'a, S: Solver>(
    shelf: &Shelf<'a, S>,
    seat: &mut Place<S>,
    word: usize,
    first: u64,
)
    requires table { IsAt word seat.old.table_id shelf.now.table_id }
    requires room { HasRoom seat.old.me.0.view.shape (asking_in seat.old.me) }
    requires sender { SendsAt first_place next_asked word seat.old.me }
    ensures same { (seat.new.table_id ≡ seat.old.table_id) × (seat.new.id ≡ seat.old.id) }
    ensures told { KnowsSent (WritesFirst first) 0 Out seat.old.me.1 seat.old.me seat.new.me }
{
    shelf.store::<WriteFirst>(seat, word, first);
}

/// Stores the second word of a query, whose first word is written ahead.
pub fn write_second<'a, S: Solver>(
    shelf: &Shelf<'a, S>,
    seat: &mut Place<S>,
    word: usize,
    query: Query,
)
    requires table { IsAt word seat.old.table_id shelf.now.table_id }
    requires written { (asking_in seat.old.me).ahead ≡ FirstWord (first_word query) }
    requires sender { SendsAt second_place next_asked word seat.old.me }
    ensures same { (seat.new.table_id ≡ seat.old.table_id) × (seat.new.id ≡ seat.old.id) }
    ensures told { KnowsSent (WritesSecond query) 0 Out seat.old.me.1 seat.old.me seat.new.me }
{
    shelf.store::<WriteSecond>(seat, word, query.second());
}

/// Stores that this number waits, whose query is written ahead.
pub fn publish<'a, S: Solver>(shelf: &Shelf<'a, S>, seat: &mut Place<S>, word: usize, asked: u64)
    requires table { IsAt word seat.old.table_id shelf.now.table_id }
    requires written { (asking_in seat.old.me).ahead ≡ Whole (ahead_of seat.old.me.0.view.role) }
    requires sender { SendsAt state_place next_asked word seat.old.me }
    requires asked { asked ≡ asked_word (next_asked (asking_in seat.old.me)) }
    ensures same { (seat.new.table_id ≡ seat.old.table_id) × (seat.new.id ≡ seat.old.id) }
    ensures told { KnowsSent (Publishes (ahead_of seat.old.me.0.view.role)) 0 Out seat.old.me.1
        seat.old.me seat.new.me }
    ensures occurs { Occurs S.meaning seat.new.me.0.view }
{
    shelf.store::<Publish<S>>(seat, word, asked);
}

/// Loads the state of the number that a sender receives next.
pub fn look_next<'a, S: Solver>(shelf: &Shelf<'a, S>, seat: &mut Place<S>, word: usize) -> u64
    requires table { IsAt word seat.old.table_id shelf.now.table_id }
    requires idle { (asking_in seat.old.me).collecting ≡ None }
    requires sender { SendsAt state_place next_received word seat.old.me }
    ensures same { (seat.new.table_id ≡ seat.old.table_id) × (seat.new.id ≡ seat.old.id) }
    ensures told { KnowsSent LooksNext result Out seat.old.me.1 seat.old.me seat.new.me }
    ensures occurs { Occurs S.meaning seat.new.me.0.view }
{
    shelf.load::<LookNext<S>>(seat, word)
}

/// Stores that the answer of this number is on its way out, and takes the slot in which it lies.
pub fn bring_out<'a, S: Solver>(shelf: &Shelf<'a, S>, seat: &mut Place<S>, word: usize, out: u64)
    requires table { IsAt word seat.old.table_id shelf.now.table_id }
    requires found { (asking_in seat.old.me).found ≡ true }
    requires sender { SendsAt state_place next_received word seat.old.me }
    requires out { out ≡ collecting_word (next_received (asking_in seat.old.me)) }
    ensures same { (seat.new.table_id ≡ seat.old.table_id) × (seat.new.id ≡ seat.old.id) }
    ensures told { (answer : S.Answer) × KnowsAnswer S.shown S.meaning answer seat.old.me seat.new.me }
{
    shelf.store::<BringOut<S>>(seat, word, out);
}

/// Stores that the cell is free for the number a window later, and gives the slot back, which is
/// empty.
pub fn receive<'a, S: Solver>(shelf: &Shelf<'a, S>, seat: &mut Place<S>, word: usize, free: u64)
    requires table { IsAt word seat.old.table_id shelf.now.table_id }
    requires out { (asking_in seat.old.me).collecting ≡ Some (collecting_of seat.old.me.0.view.role) }
    requires slot { CarriesFirst (cell_of seat.old.me.0.view.shape (sender_of seat.old.me.0.view.role)
        (next_received (asking_in seat.old.me))) None seat.old.me }
    requires sender { SendsAt state_place next_received word seat.old.me }
    requires free { free ≡ free_word
        (next_received (asking_in seat.old.me) + seat.old.me.0.view.shape.window) }
    ensures same { (seat.new.table_id ≡ seat.old.table_id) × (seat.new.id ≡ seat.old.id) }
    ensures told { KnowsSent (Receives (collecting_of seat.old.me.0.view.role)) 0 Out
        (rest seat.old.me.1) seat.old.me seat.new.me }
    ensures occurs { Occurs S.meaning seat.new.me.0.view }
{
    shelf.store::<Receive<S>>(seat, word, free);
}

/// Loads the state word of a cell, for a worker whose hand is empty.
pub fn look_at<'a, S: Solver, L: Ledger>(
    shelf: &Shelf<'a, S>,
    seat: &mut Place<S>,
    cell: usize,
    steps: &mut Steps<L>,
) -> u64
    requires table { seat.old.table_id ≡ shelf.now.table_id }
    requires words { word_of cell state_field < shelf.now.table_id.words }
    requires few { cell < 65536 }
    requires within { cell < cells_in seat.old.me.0.view.shape }
    requires worker { IsWorker seat.old.me.0.view.role }
    requires empty { (working_in seat.old.me).hand ≡ None }
    ensures same { (seat.new.table_id ≡ seat.old.table_id) × (seat.new.id ≡ seat.old.id) }
    ensures told { KnowsLooked cell result seat.old.me seat.new.me }
    ensures occurs { Occurs S.meaning seat.new.me.0.view }
    ensures counted { steps.new ≡ steps.old + 1 }
{
    steps.tick();
    shelf.load::<LookAt<S>>(seat, cell * CELL_WORDS + STATE)
}

/// Exchanges the word of the number that a worker saw for one that says that it is taken, in one
/// try, and returns the word that was there. Where that said that the number waits, the slot is
/// taken too.
pub fn try_take<'a, S: Solver, L: Ledger>(
    shelf: &Shelf<'a, S>,
    seat: &mut Place<S>,
    word: usize,
    asked: u64,
    taken: u64,
    steps: &mut Steps<L>,
) -> u64
    requires table { IsAt word seat.old.table_id shelf.now.table_id }
    requires worker { IsWorker seat.old.me.0.view.role }
    requires empty { (working_in seat.old.me).hand ≡ None }
    requires seen { (working_in seat.old.me).seen ≡ Some (seen_of seat.old.me.0.view.role) }
    requires place { word ≡ state_place seat.old.me.0.view.shape (seen_of seat.old.me.0.view.role).0
        (seen_of seat.old.me.0.view.role).1 }
    requires asked { asked ≡ asked_word (seen_of seat.old.me.0.view.role).1 }
    requires taken { taken ≡ taken_word (seen_of seat.old.me.0.view.role).1 }
    ensures same { (seat.new.table_id ≡ seat.old.table_id) × (seat.new.id ≡ seat.old.id) }
    ensures told { KnowsTried (seen_of seat.old.me.0.view.role) result seat.old.me seat.new.me }
    ensures occurs { Occurs S.meaning seat.new.me.0.view }
    ensures counted { steps.new ≡ steps.old + 1 }
{
    steps.tick();
    shelf.compare_exchange::<Take<S>>(seat, word, asked, taken)
}

/// Loads the first word of the query of the number in a worker's hand.
pub fn read_first<'a, S: Solver, L: Ledger>(
    shelf: &Shelf<'a, S>,
    seat: &mut Place<S>,
    word: usize,
    steps: &mut Steps<L>,
) -> u64
    requires table { IsAt word seat.old.table_id shelf.now.table_id }
    requires held { HoldsAt first_place word seat.old.me }
    ensures same { (seat.new.table_id ≡ seat.old.table_id) × (seat.new.id ≡ seat.old.id) }
    ensures told { KnowsFirst (hand_of seat.old.me.0.view.role) result seat.old.me seat.new.me }
    ensures occurs { Occurs S.meaning seat.new.me.0.view }
    ensures counted { steps.new ≡ steps.old + 1 }
{
    steps.tick();
    shelf.load::<ReadFirst<S>>(seat, word)
}

/// Loads the second word of the query of the number in a worker's hand, whose first word it read.
pub fn read_second<'a, S: Solver, L: Ledger>(
    shelf: &Shelf<'a, S>,
    seat: &mut Place<S>,
    word: usize,
    steps: &mut Steps<L>,
) -> u64
    requires table { IsAt word seat.old.table_id shelf.now.table_id }
    requires read { (working_in seat.old.me).read ≡ FirstWord (first_read_of seat.old.me.0.view.role) }
    requires held { HoldsAt second_place word seat.old.me }
    ensures same { (seat.new.table_id ≡ seat.old.table_id) × (seat.new.id ≡ seat.old.id) }
    ensures told { KnowsSecond (hand_of seat.old.me.0.view.role)
        (first_read_of seat.old.me.0.view.role) result seat.old.me seat.new.me }
    ensures occurs { Occurs S.meaning seat.new.me.0.view }
    ensures counted { steps.new ≡ steps.old + 1 }
{
    steps.tick();
    shelf.load::<ReadSecond<S>>(seat, word)
}

/// Stores that the number in a worker's hand is answered, and gives the slot back, in which the
/// meaning of its query lies.
pub fn finish<'a, S: Solver, L: Ledger>(
    shelf: &Shelf<'a, S>,
    seat: &mut Place<S>,
    word: usize,
    answered: u64,
    steps: &mut Steps<L>,
)
    requires table { IsAt word seat.old.table_id shelf.now.table_id }
    requires read { (working_in seat.old.me).read ≡ Whole (read_of seat.old.me.0.view.role) }
    requires slot { CarriesMeaning S.shown S.meaning seat.old.me }
    requires held { HoldsAt state_place word seat.old.me }
    requires answered { answered ≡ answered_word (hand_of seat.old.me.0.view.role).1 }
    ensures same { (seat.new.table_id ≡ seat.old.table_id) × (seat.new.id ≡ seat.old.id) }
    ensures told { KnowsAnswered (hand_of seat.old.me.0.view.role) (rest seat.old.me.1) seat.old.me seat.new.me }
    ensures occurs { Occurs S.meaning seat.new.me.0.view }
    ensures counted { steps.new ≡ steps.old + 1 }
{
    steps.tick();
    shelf.store::<Finish<S>>(seat, word, answered);
}

/// Stores that the number in a worker's hand waits again, and gives the slot back, which is empty.
pub fn give_back<'a, S: Solver, L: Ledger>(
    shelf: &Shelf<'a, S>,
    seat: &mut Place<S>,
    word: usize,
    asked: u64,
    steps: &mut Steps<L>,
)
    requires table { IsAt word seat.old.table_id shelf.now.table_id }
    requires slot { CarriesFirst (cell_of seat.old.me.0.view.shape (hand_of seat.old.me.0.view.role).0
        (hand_of seat.old.me.0.view.role).1) None seat.old.me }
    requires held { HoldsAt state_place word seat.old.me }
    requires asked { asked ≡ asked_word (hand_of seat.old.me.0.view.role).1 }
    ensures same { (seat.new.table_id ≡ seat.old.table_id) × (seat.new.id ≡ seat.old.id) }
    ensures told { KnowsGivenBack (hand_of seat.old.me.0.view.role) (rest seat.old.me.1) seat.old.me seat.new.me }
    ensures occurs { Occurs S.meaning seat.new.me.0.view }
    ensures counted { steps.new ≡ steps.old + 1 }
{
    steps.tick();
    shelf.store::<GiveBack<S>>(seat, word, asked);
}
