//! What a sender's thread does.

ghost use Rattle.std.specs.Prelude.{◌≡◌, ◌≤◌, ◌<◌, ◌++◌, true, [], drop, map, length, IfOk, OnOk};
ghost use Rattle.ticket_board.specs.Seats.{IsClientOf, HasEnded};
ghost use Rattle.ticket_board.specs.Pool.{every, IsEnd, IsLaneOf, MaySend};

use super::patience::Patience;
use super::service::Pool;
use super::task::Lane;
use crate::board::Board;
use crate::client::Client;
use crate::outcome::Next;
use std::alloc::{AllocError, Global};
use std::collections::VecDeque;
use std::sync::Wait;
use ticket_core::{NoMemory, Query, Solver};

/// How often a sender looks again before it parks: for some hundred microseconds.
const LOOKS: usize = 6000;

/// After how many parks in a row that nobody ended a sender calls for help: some worker holds it
/// up, and isn't only waiting for a processor.
const VAIN: usize = 4;

/// The phase of a number that waits, as a state word has it.
const WAITS: u64 = 1;

/// The phase of a number that is answered.
const ANSWERED: u64 = 3;

/// Asks every `step`-th query from the index `next` on, as far as the board takes them, and closes
/// the client after the last. Returns the index of the next query.
fn ask_on<'a, S: Solver>(
    board: &Board<'a, S>,
    client: &mut Client<S>,
    queries: &[Query],
    next: usize,
    step: usize,
) -> usize
    requires board { IsClientOf board.now client.old }
    requires step { (1 ≤ step) × (step ≤ 64) }
    requires closed { client.old.closed ≡ true → length queries.now ≤ next }
    ensures seat { client.new.seat ≡ client.old.seat }
    ensures asked { client.new.asked ++ every step 0 (drop result queries.now)
        ≡ client.old.asked ++ every step 0 (drop next queries.now) }
    ensures received { client.new.received ≡ client.old.received }
    ensures closed { client.new.closed ≡ true → length queries.now ≤ result }
{
    let mut next = next;
    while next < queries.len() {
        let Ok(_) = client.ask(board, queries[next]) else {
            return next;
        };
        next += step;
    }
    client.close();
    next
}

/// What came to a sender.
enum Came {
    /// An answer.
    Answer,
    /// Nothing yet.
    Nothing,
    /// The end: all was asked and received.
    End,
}

/// Receives the next answer, if it is there, into the lane. The error says that an allocation
/// was refused.
fn receive<'a, S: Solver>(
    board: &Board<'a, S>,
    client: &mut Client<S>,
    lane: &mut VecDeque<S::Answer>,
) -> Result<Came, NoMemory>
    requires board { IsClientOf board.now client.old }
    requires lane { map S.shown lane.old.items ≡ client.old.received }
    ensures seat { client.new.seat ≡ client.old.seat }
    ensures asked { client.new.asked ≡ client.old.asked }
    ensures closed { client.new.closed ≡ client.old.closed }
    ensures lane { OnOk result (map S.shown lane.new.items ≡ client.new.received) }
    ensures end { IfOk result (λ came. IsEnd came → HasEnded client.new) }
{
    match client.next(board) {
        Next::Answer(_, answer) => {
            lane.push_back(answer)?;
            Ok(Came::Answer)
        }
        Next::Pending => Ok(Came::Nothing),
        Next::Ended => Ok(Came::End),
    }
}

/// A sender of a pool, and its number.
#[derive(Drop)]
pub struct Sending<'p, 'a, S: Solver> {
    pub pool: &'p Pool<'p, 'a, S>,
    pub client: Client<S>,
    pub sender: usize,
}

/// Where a sender is.
#[derive(Drop)]
struct Desk<'p, 'a, S: Solver> {
    pool: &'p Pool<'p, 'a, S>,
    sender: usize,
    patience: Patience,
    /// How many of its parks nobody ended, since an answer came.
    vain: usize,
}

impl<S: Solver> Desk<'_, '_, S> {
    /// Whether a number that is outstanding is in this phase.
    fn is_in(&self, phase: u64, number: u64) -> bool {
        let window = self.pool.task.shape.window;
        let place = (number as usize).checked_rem(window).unwrap_or(0);
        let cell = self.sender.wrapping_mul(window).wrapping_add(place);
        match self.pool.board.state_word(cell) {
            Some(word) => word % 8 == phase,
            None => false,
        }
    }

    /// Wakes the workers for which these numbers are meant, as far as they wait.
    fn wake_workers(&self, from: u64, to: u64) {
        for number in from..to {
            if self.is_in(WAITS, number) {
                let worker = self.pool.task.owner_of(self.sender, number);
                self.pool.bells.wake_worker(worker);
            }
        }
    }

    /// For which number a sender parks that received and asked so many: so that half of its window
    /// is received at a time, or for the next where that number is answered already.
    fn awaited(&self, received: u64, asked: u64) -> u64 {
        let half = self.pool.task.shape.window.div_ceil(2) as u64;
        let last = received.saturating_add(half).min(asked).saturating_sub(1);
        if self.is_in(ANSWERED, last) {
            return received;
        }
        last
    }

    /// Parks the sender with its bell until this number is answered, unless it is, or the pool
    /// ends. Returns whether nobody woke it.
    fn rest<R: Wait>(&self, rt: &R, number: u64) -> bool {
        let bells = &self.pool.bells;
        let Some(bell) = bells.of_sender(self.sender) else {
            return false;
        };
        bells.announce(bell, number);
        if bells.has_ended() || self.is_in(ANSWERED, number) {
            bells.end_parking(bell);
            return false;
        }
        bells.park(rt, bell)
    }

    /// An answer came.
    fn succeed(&mut self) {
        self.patience.succeed();
        self.vain = 0;
    }

    /// Looks again soon, or parks, as the next answer of a sender that received and asked so many
    /// isn't there yet. Where that is so for long, a worker is called for help.
    fn wait<R: Wait>(&mut self, rt: &R, received: u64, asked: u64) {
        if self.pool.bells.have_processors() && self.patience.looks_again() {
            return;
        }
        self.patience.give_up();
        if !self.rest(rt, self.awaited(received, asked)) {
            return;
        }
        self.vain = self.vain.saturating_add(1);
        if self.vain >= VAIN {
            self.pool.bells.call_help();
        }
    }
}

/// Asks all queries of the sender, and returns the answers in their order. The error says that the
/// pool was ended before all came, or that an allocation was refused.
fn ask_all<S: Solver, R: Wait>(
    rt: &R,
    alloc: Global,
    sending: Sending<'_, '_, S>,
) -> Result<Lane<S>, NoMemory>
    requires { MaySend sending.pool.now.board sending.pool.now.task sending.sender sending.client }
    ensures { IfOk result (λ lane. IsLaneOf S.shown S.meaning
        sending.entry.pool.now.task sending.entry.sender lane.items) }
{
    let Sending {
        pool,
        mut client,
        sender,
    } = sending;
    let mut desk = Desk {
        pool,
        sender,
        patience: Patience::new(LOOKS),
        vain: 0,
    };
    let task = pool.task;
    let senders = task.shape.senders;
    let mut lane = VecDeque::new(alloc);
    let mut next = sender;
    let mut told = 0u64;
    for _ in rt.forever() {
        next = ask_on(&pool.board, &mut client, task.queries.asked, next, senders);
        match receive(&pool.board, &mut client, &mut lane)? {
            Came::Answer => desk.succeed(),
            Came::Nothing => {
                if pool.bells.has_ended() {
                    return Err(AllocError);
                }
                let asked = next.checked_div(senders).unwrap_or(0) as u64;
                desk.wake_workers(told, asked);
                told = asked;
                desk.wait(rt, lane.len() as u64, asked);
            }
            Came::End => {
                client.law_of_client();
                return Ok(lane);
            }
        }
    }
    unreachable!()
}

/// What a sender's thread does: it asks its queries and returns the answers in their order. Where
/// it is out of memory, it ends the pool. The error says so, or that the pool was ended before.
pub fn send<S: Solver, R: Wait>(
    rt: &R,
    alloc: Global,
    sending: Sending<'_, '_, S>,
) -> Result<Lane<S>, NoMemory>
    requires { MaySend sending.pool.now.board sending.pool.now.task sending.sender sending.client }
    ensures { IfOk result (λ lane. IsLaneOf S.shown S.meaning
        sending.entry.pool.now.task sending.entry.sender lane.items) }
{
    let bells = &sending.pool.bells;
    let lane = ask_all(rt, alloc, sending);
    if lane.is_err() {
        bells.end();
    }
    lane
}
