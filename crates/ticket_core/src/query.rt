//! What a sender asks about.

ghost use Rattle.std.specs.Prelude.{◌≡◌, Some, None, nat_lt, if◌then◌else◌};
ghost use Rattle.ticket_core.specs.declared.query.QueryKind.TheVariants.{Address, Span};
ghost use Rattle.ticket_core.specs.Query.{IsQuery, AreWords, first_word, second_word, of_words};

use std::marker::Model;

/// What a query asks about.
#[derive(Clone, Copy, Debug, PartialEq, Eq)]
pub enum QueryKind {
    /// One address.
    Address(u64),
    /// The addresses from the first number on and below the second.
    Span(u64, u64),
}

/// A query: about an address, or about a span of addresses, which isn't empty. Contracts see which
/// it is.
///
/// It is kept in two words: an address and 0, or the two borders of a span.
#[derive(Clone, Copy, Debug, PartialEq, Eq)]
pub struct Query {
    first: u64,
    second: u64,
}

impl Model for Query {
    ghost use Rattle.ticket_core.specs.declared.query.QueryKind.{QueryKind};

    ghost Value = { QueryKind };

    ghost use Rattle.ticket_core.specs.Query.{AreWords, of_words, words_of, words_back};

    ghost view = { λ query. of_words query.first query.second };

    ghost invariant = { λ query. AreWords query.first query.second };

    ghost inverse = { words_of };

    ghost inverse_ok = { λ query h. words_back query.first query.second };
}

impl Query {
    /// The query about one address.
    pub fn address(a: u64) -> Query
        ensures { result ≡ Address a }
    {
        Query {
            first: a,
            second: 0,
        }
    }

    /// The query about the addresses from `low` on and below `high`, or `None` where `low` isn't
    /// below `high`.
    pub fn range(low: u64, high: u64) -> Option<Query>
        ensures { result ≡ (if nat_lt low high then Some (Span low high) else None) }
    {
        if low >= high {
            return None;
        }
        Some(Query {
            first: low,
            second: high,
        })
    }

    /// What it asks about. A span has an address at least.
    pub fn kind(&self) -> QueryKind
        ensures kind { result ≡ self.now }
        ensures some { IsQuery self.now }
    {
        if self.second == 0 {
            QueryKind::Address(self.first)
        } else {
            QueryKind::Span(self.first, self.second)
        }
    }

    /// Its first word: the address, or the first address of the span.
    pub fn first(&self) -> u64
        ensures { result ≡ first_word self.now }
    {
        self.first
    }

    /// Its second word: 0, or the end of the span, which is above the first word.
    pub fn second(&self) -> u64
        ensures word { result ≡ second_word self.now }
        ensures some { IsQuery self.now }
    {
        self.second
    }

    /// The query that is kept in two words: the second is 0, or the first is below it.
    pub fn of_words(first: u64, second: u64) -> Query
        requires words { AreWords first second }
        ensures { result ≡ of_words first second }
    {
        Query { first, second }
    }
}
