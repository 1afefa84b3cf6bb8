//! What is asked for: the words of the command line, or the lines of the input.

ghost use Rattle.std.specs.Prelude.{◌≡◌, ◌==◌, ◌<◌, length, map, position, option_map, IfOk};
ghost use Rattle.std.specs.Str.Lines.{lines, strip_carriage_return};
ghost use Rattle.dw_model.specs.Output.{address_in, without_prefix, dash_in, span_between, query_in};
ghost use Rattle.dw_symbols.specs.Told.{query_shown};
ghost use Rattle.a2l_lines.specs.Input.{asked_by, word_shown, first_line, after_line};

use crate::digits::{MOST_DIGITS, number};
use std::alloc::{AllocError, Global};
use ticket_core::Query;

/// A text that is asked for.
#[derive(Clone, Copy, Debug, PartialEq, Eq)]
pub enum Input {
    /// It asks for this.
    Asked(Query),
    /// It is a bad address.
    Bad,
}

/// A text without `0x` or `0X` before it.
fn without_prefix(text: &[u8]) -> &[u8]
    ensures { result.now ≡ without_prefix text.now }
{
    if text.len() >= 2 && text[0] == b'0' && (text[1] == b'x' || text[1] == b'X') {
        return text.split_at(2).1;
    }
    text
}

/// The address that a text writes in 1 to 16 hexadecimal digits of either case, before which `0x`
/// or `0X` may be; none for any other text.
fn address_in(text: &[u8]) -> Option<u64>
    ensures { result ≡ address_in text.now }
{
    let digits = without_prefix(text);
    if digits.is_empty() || digits.len() > MOST_DIGITS {
        return None;
    }
    number(digits)
}

/// Where the first `-` of a text is.
fn dash_in(text: &[u8]) -> Option<usize>
    ensures { result ≡ dash_in text.now }
{
    text.iter().position(|byte| *byte == b'-')
}

/// The span from an address on and below another one, where both are there and the first is below
/// the second.
fn span_between(low: Option<u64>, high: Option<u64>) -> Option<Query>
    ensures { option_map query_shown result ≡ span_between low high }
{
    Query::range(low?, high?)
}

/// The query that a text writes: an address, or a span, which is an address, `-` and an address
/// above it; none for any other text.
fn query_in(text: &[u8]) -> Option<Query>
    ensures { option_map query_shown result ≡ query_in text.now }
{
    let Some(dash) = dash_in(text) else {
        return Some(Query::address(address_in(text)?));
    };
    let (low, rest) = text.split_at(dash);
    span_between(address_in(low), address_in(rest.split_at(1).1))
}

impl Input {
    /// What a text asks for.
    pub fn of(text: &[u8]) -> Self
        ensures { asked_by result ≡ query_in text.now }
    {
        match query_in(text) {
            Some(query) => Input::Asked(query),
            None => Input::Bad,
        }
    }
}

/// What the words of a command line ask for.
pub fn inputs_of_words(alloc: Global, words: &[&str]) -> Result<Vec<Input>, AllocError>
    ensures { IfOk result (λ inputs. map asked_by inputs.items ≡ map query_in (map word_shown words.now)) }
{
    let mut inputs = Vec::new(alloc);
    for word in words {
        inputs.push(Input::of(word.as_bytes()))?;
    }
    Ok(inputs)
}

/// The index of the first newline.
fn newline(bytes: &[u8]) -> Option<usize>
    ensures { result ≡ position (λ byte. byte == 10) bytes.now }
{
    bytes.iter().position(|byte| *byte == b'\n')
}

/// A line without the one `\r` at its end.
fn strip_carriage_return(line: &[u8]) -> &[u8]
    ensures { result.now ≡ strip_carriage_return line.now }
{
    let len = line.len();
    if len > 0 && line[len - 1] == b'\r' {
        return line.split_at(len - 1).0;
    }
    line
}

/// The first line of a text that isn't empty, without its end, and what follows it.
fn split_line(bytes: &[u8]) -> (&[u8], &[u8])
    requires { 0 < length bytes.now }
    ensures line { result.0.now ≡ first_line bytes.now }
    ensures rest { result.1.now ≡ after_line bytes.now }
{
    let Some(end) = newline(bytes) else {
        return (bytes, &[]);
    };
    let (line, rest) = bytes.split_at(end);
    (strip_carriage_return(line), rest.split_at(1).1)
}

/// What the lines of a text ask for. Nothing after the last newline is no line.
pub fn inputs_of_lines(alloc: Global, bytes: &[u8]) -> Result<Vec<Input>, AllocError>
    ensures { IfOk result (λ inputs. map asked_by inputs.items ≡ map query_in (lines bytes.now)) }
{
    let mut inputs = Vec::new(alloc);
    let mut left = bytes;
    while !left.is_empty() {
        let (line, rest) = split_line(left);
        inputs.push(Input::of(line))?;
        left = rest;
    }
    Ok(inputs)
}
