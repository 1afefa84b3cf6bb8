//! The reports on texts: the way of each to its answer, and the lines of the answer.

ghost use Rattle.std.specs.Prelude.{◌≡◌, None, Some, OnOk, IfOk, IfErr, map, option_map};
ghost use Rattle.dw_model.specs.Query.{address as address_query, span as span_query, meaning};
ghost use Rattle.ticket_core.specs.declared.query.QueryKind.TheVariants.{Span};
ghost use Rattle.dw_model.specs.Refusal.{refusal};
ghost use Rattle.dw_model.specs.Section.{sections};
ghost use Rattle.dw_model.specs.Output as model;
ghost use Rattle.dw_elf.specs.OpenFault.{RefusesUnlessMemory};
ghost use Rattle.dw_symbols.specs.Answer.{answer_shown};
ghost use Rattle.dw_symbols.specs.Told.{query_shown};
ghost use Rattle.a2l_lines.specs.Input.{word_shown};
ghost use Rattle.a2l_why.specs.Told.{answer_of_word, answer_told, lines_of, lines_told};
ghost use Rattle.a2l_why.specs.Told.{query_lines, unit_in, unit_of_query, unit_of_word};

use crate::way::{Way, way_of};
use a2l_findings::{Allocated, Note, Scene, Words};
use a2l_lines::{BAD_ADDRESS, Input, Options, push_query};
use dw_elf::OpenFault;
use dw_symbols::{Answer, Context, Image};
use std::alloc::Global;
use std::num::NonZeroUsize;
use ticket_core::{Query, QueryKind};

/// What is said of a text that asks for no address.
const BAD: &str =
    "no address: 1 to 16 hexadecimal digits are wanted, behind 0x or nothing, or two such with - between them";

/// What is said of a span.
const SPAN: &str = "a span: below are its pieces; name one of its addresses to be told its way";

/// How many units are kept that were used last.
const KEPT_UNITS: usize = 16;

/// The report on a text.
#[derive(Debug, Drop)]
pub struct Told<'a> {
    /// The way of an address to its answer; of another text a step that says what it is.
    pub way: Way<'a>,
    /// `None` of a bad address.
    pub answer: Option<Answer<'a>>,
    /// The lines that `a2l -f -i` writes for it.
    pub lines: Vec<u8>,
}

/// The way of a text that asks for no address, which is a step of these words.
fn way_without<'a>(alloc: Global, kind: Words, words: Words) -> Allocated<Way<'a>>
    ensures { IfOk result (λ way. way.place ≡ None) }
{
    let mut steps = Vec::new(alloc);
    steps.push(Note::of(alloc, kind, words)?)?;
    let place = None;
    Ok(Way { place, steps })
}

/// The lines that `a2l -f -i` writes for a query with an answer.
fn lines_of(alloc: Global, query: Query, answer: &Answer<'_>) -> Allocated<Vec<u8>>
    ensures { IfOk result (λ lines. lines.items ≡ query_lines (query_shown query) (answer_shown answer.now)) }
{
    let options = Options {
        functions: true,
        inlines: true,
        addresses: false,
        workers: 1,
        senders: 1,
        words: Vec::new(alloc),
    };
    let mut lines = Vec::new(alloc);
    push_query(alloc, &mut lines, &options, query, answer)?;
    Ok(lines)
}

/// The report on an address.
fn tell_address<'a>(
    scene: &Scene<'a>,
    image: &Image<'a>,
    context: &mut Context<'_, 'a>,
    address: u64,
) -> Allocated<Told<'a>>
    requires same { context.old.file ≡ image.now }
    ensures answer { IfOk result (λ told. answer_told told ≡ Some (meaning image.now (address_query address))) }
    ensures lines { IfOk result (λ told. lines_told told ≡
        query_lines (address_query address) (meaning image.now (address_query address))) }
    ensures unit { IfOk result (λ told. unit_in (sections image.now) told ≡
        unit_of_query (sections image.now) (address_query address)) }
    ensures file { context.new.file ≡ context.old.file }
{
    let answer = context.find_frames(address)?;
    let way = way_of(scene, image, address)?;
    let lines = lines_of(scene.alloc, Query::address(address), &answer)?;
    let answer = Some(answer);
    Ok(Told { way, answer, lines })
}

/// The report on a span.
fn tell_span<'a>(
    alloc: Global,
    context: &mut Context<'_, 'a>,
    query: Query,
    low: u64,
    high: u64,
) -> Allocated<Told<'a>>
    requires query { query ≡ Span low high }
    ensures answer { IfOk result (λ told. answer_told told ≡ Some (meaning context.old.file (span_query low high))) }
    ensures lines { IfOk result (λ told. lines_told told ≡
        query_lines (span_query low high) (meaning context.old.file (span_query low high))) }
    ensures unit { IfOk result (λ told. unit_in (sections context.old.file) told ≡ None) }
    ensures file { context.new.file ≡ context.old.file }
{
    let answer = context.find_location_range(low, high)?;
    let way = way_without(alloc, "span", SPAN)?;
    let lines = lines_of(alloc, query, &answer)?;
    let answer = Some(answer);
    Ok(Told { way, answer, lines })
}

/// The report on a bad address.
fn tell_bad<'a>(alloc: Global) -> Allocated<Told<'a>>
    ensures answer { IfOk result (λ told. answer_told told ≡ None) }
    ensures lines { IfOk result (λ told. lines_told told ≡ model.bad_address_line) }
    ensures unit { IfOk result (λ told. told.way.place ≡ None) }
{
    let way = way_without(alloc, "bad_address", BAD)?;
    let lines = Vec::from_slice(alloc, BAD_ADDRESS)?;
    let answer = None;
    Ok(Told { way, answer, lines })
}

/// The report on a text.
fn tell<'a>(
    scene: &Scene<'a>,
    image: &Image<'a>,
    context: &mut Context<'_, 'a>,
    word: &str,
) -> Allocated<Told<'a>>
    requires same { context.old.file ≡ image.now }
    ensures answer { IfOk result (λ told. answer_told told ≡ answer_of_word image.now word.now) }
    ensures lines { IfOk result (λ told. lines_told told ≡ lines_of image.now word.now) }
    ensures unit { IfOk result (λ told. unit_in (sections image.now) told ≡ unit_of_word image.now word.now) }
    ensures file { context.new.file ≡ context.old.file }
{
    let Input::Asked(query) = Input::of(word.as_bytes()) else {
        return tell_bad(scene.alloc);
    };
    match query.kind() {
        QueryKind::Address(address) => tell_address(scene, image, context, address),
        QueryKind::Span(low, high) => tell_span(scene.alloc, context, query, low, high),
    }
}

/// The report on each of some texts, in their order.
fn tell_each<'a>(
    scene: &Scene<'a>,
    image: &Image<'a>,
    context: &mut Context<'_, 'a>,
    words: &[&str],
) -> Allocated<Vec<Told<'a>>>
    requires same { context.old.file ≡ image.now }
    ensures answers { IfOk result (λ tolds. map answer_told tolds.items ≡
        map (answer_of_word image.now) (map word_shown words.now)) }
    ensures lines { IfOk result (λ tolds. map lines_told tolds.items ≡
        map (lines_of image.now) (map word_shown words.now)) }
    ensures units { IfOk result (λ tolds. map (unit_in (sections image.now)) tolds.items ≡
        map (unit_of_word image.now) (map word_shown words.now)) }
{
    let mut tolds = Vec::new(scene.alloc);
    for word in words {
        tolds.push(tell(scene, image, context, word)?)?;
    }
    Ok(tolds)
}

/// The report on each of some texts that ask a file, in their order. A file is refused exactly as
/// `a2l` refuses it.
pub fn tell_words<'a>(
    alloc: Global,
    file: &'a [u8],
    words: &[&str],
) -> Result<Vec<Told<'a>>, OpenFault>
    ensures accepted { OnOk result (refusal file.now ≡ None) }
    ensures refused { IfErr result (λ fault. RefusesUnlessMemory fault (refusal file.now)) }
    ensures answers { IfOk result (λ tolds. map answer_told tolds.items ≡
        map (answer_of_word file.now) (map word_shown words.now)) }
    ensures lines { IfOk result (λ tolds. map lines_told tolds.items ≡
        map (lines_of file.now) (map word_shown words.now)) }
    ensures units { IfOk result (λ tolds. map (unit_in (sections file.now)) tolds.items ≡
        map (unit_of_word file.now) (map word_shown words.now)) }
{
    let image = Image::open(alloc, file)?;
    let scene = Scene::new(alloc, file)?;
    let capacity = NonZeroUsize::MIN.saturating_add(KEPT_UNITS - 1);
    let mut context = Context::new(alloc, &image, capacity)?;
    let tolds = tell_each(&scene, &image, &mut context, words)?;
    Ok(tolds)
}
