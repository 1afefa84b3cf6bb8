//! Which queries are asked for some inputs, each once, and which answer each input gets.

ghost use Rattle.std.specs.Prelude.{◌≡◌, ◌+◌, ◌<◌, ◌≤◌, ◌^◌, true, length, map, slice_index_or, IfOk, OnOk};
ghost use Rattle.std.specs.List.{All};
ghost use Rattle.a2l_lines.specs.Input.{input_shown};
ghost use Rattle.a2l_lines.specs.Order.{IsOrder};
ghost use Rattle.a2l_lines.specs.Sharing.{SharesOnce, DoesFor, ArePairs, AreInOrder, is_last, last_of, added};

use crate::input::Input;
use crate::order::{in_order, picks_in};
use crate::turns::Turn;
use std::alloc::{AllocError, Global};
use ticket_core::Query;

/// How many queries are asked at most. No memory holds more.
const MOST: u64 = 1 << 60;

/// The queries among some inputs, each once, and what each input picks of them.
#[derive(Debug, Drop)]
pub struct Sharing {
    /// The queries, in order of their first addresses. An address comes before the spans that begin
    /// with it, and of these the shorter one first.
    pub asked: Vec<Query>,
    /// For each input 0 where it is a bad address, and else the index of its query in `asked`,
    /// counted from 1.
    pub picks: Vec<usize>,
}

/// Each query among some inputs, with the index of its input.
fn pairs_of(alloc: Global, inputs: &[Input]) -> Result<Vec<(Query, usize)>, AllocError>
    ensures { IfOk result (λ pairs. ArePairs (map input_shown inputs.now) pairs.items) }
{
    let mut pairs = Vec::new(alloc);
    for i in 0..inputs.len() {
        let Input::Asked(query) = inputs[i] else {
            continue;
        };
        pairs.push((query, i))?;
    }
    Ok(pairs)
}

/// The same in order of the queries.
fn sorted_pairs(alloc: Global, inputs: &[Input]) -> Result<Vec<(Query, usize)>, AllocError>
    ensures pairs { IfOk result (λ pairs. ArePairs (map input_shown inputs.now) pairs.items) }
    ensures order { IfOk result (λ pairs. AreInOrder pairs.items) }
{
    let mut pairs = pairs_of(alloc, inputs)?;
    pairs.sort_unstable_by_key(|(query, _)| (query.first(), query.second()));
    Ok(pairs)
}

/// Whether a query is the last of some.
fn is_last(asked: &[Query], query: Query) -> bool
    ensures last { result ≡ is_last query asked.now }
    ensures same { result ≡ true → last_of asked.now ≡ query }
{
    !asked.is_empty() && asked[asked.len() - 1].kind() == query.kind()
}

/// Adds a query, where it isn't the last one already.
fn add(asked: &mut Vec<Query>, query: Query) -> Result<(), AllocError>
    ensures added { OnOk result (asked.new.items ≡ added query asked.old.items) }
    ensures last { OnOk result (last_of asked.new.items ≡ query) }
{
    if is_last(asked, query) {
        return Ok(());
    }
    asked.push(query)?;
    Ok(())
}

/// The queries of pairs in order, each once, and what each input picks of them.
fn shared(alloc: Global, inputs: &[Input], pairs: &[(Query, usize)]) -> Result<Sharing, AllocError>
    requires pairs { ArePairs (map input_shown inputs.now) pairs.now }
    requires order { AreInOrder pairs.now }
    ensures { IfOk result (SharesOnce inputs.now) }
{
    let mut asked = Vec::new(alloc);
    let mut picks = vec![in alloc; 0usize; inputs.len()]?;
    for i in 0..pairs.len() {
        let (query, place) = pairs[i];
        add(&mut asked, query)?;
        picks[place] = asked.len();
    }
    Ok(Sharing { asked, picks })
}

/// What is asked for some inputs, and what each of them picks of it. There are no more queries than
/// one sender may ask.
pub fn sharing_of(alloc: Global, inputs: &[Input]) -> Result<Sharing, AllocError>
    ensures shares { IfOk result (SharesOnce inputs.now) }
    ensures most { IfOk result (λ sharing. length sharing.asked.items ≤ 2 ^ 60) }
{
    let pairs = sorted_pairs(alloc, inputs)?;
    let sharing = shared(alloc, inputs, &pairs)?;
    if sharing.asked.len() as u64 > MOST {
        return Err(AllocError);
    }
    Ok(sharing)
}

/// What inputs pick, where each pick became another.
fn repicked(alloc: Global, picks: &[usize], became: &[usize]) -> Result<Vec<usize>, AllocError>
    requires within { All (λ pick. pick < length became.now) picks.now }
    ensures { IfOk result (λ repicked. repicked.items ≡ map (λ pick. slice_index_or became.now pick 0) picks.now) }
{
    let mut repicked = Vec::with_capacity(alloc, picks.len())?;
    for pick in picks {
        repicked.push(became[*pick])?;
    }
    Ok(repicked)
}

impl Sharing {
    /// The same with its queries in an order of their indexes.
    pub fn in_order(self, alloc: Global, order: &[(Turn, usize)]) -> Result<Self, AllocError>
        requires order { IsOrder self.asked.items order.now }
        requires within { All (λ pick. pick ≤ length self.asked.items) self.picks.items }
        ensures shares { IfOk result (DoesFor self) }
        ensures count { IfOk result (λ sharing. length sharing.asked.items ≡ length self.asked.items) }
    {
        let became = picks_in(alloc, &self.asked, order)?;
        let asked = in_order(alloc, &self.asked, order)?;
        let picks = repicked(alloc, &self.picks, &became)?;
        Ok(Sharing { asked, picks })
    }
}
