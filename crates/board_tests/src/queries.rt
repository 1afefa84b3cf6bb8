//! Queries of the tests.

use std::alloc::{AllocError, Global};
use std::process::Abort;
use test_inputs::draws::Draws;
use ticket_core::{Query, QueryKind};

/// The query that asks about this.
pub fn query_of(rt: &impl Abort, kind: QueryKind) -> Query {
    match kind {
        QueryKind::Address(a) => Query::address(a),
        QueryKind::Span(low, high) => {
            let Some(query) = Query::range(low, high) else {
                panic!(rt; "the span has no address")
            };
            query
        }
    }
}

/// So many addresses, all different.
pub fn addresses(alloc: Global, count: u64) -> Result<Vec<Query>, AllocError> {
    let mut queries = Vec::new(alloc);
    for i in 0..count {
        queries.push(Query::address(i.wrapping_mul(7) ^ 0x2a))?;
    }
    Ok(queries)
}

/// So many addresses, and after each a span that begins there.
pub fn addresses_and_spans(
    rt: &impl Abort,
    alloc: Global,
    count: u64,
) -> Result<Vec<Query>, AllocError> {
    let mut queries = Vec::new(alloc);
    for i in 0..count {
        let a = i.wrapping_mul(7) ^ 0x2a;
        queries.push(Query::address(a))?;
        let end = a.saturating_add(i).saturating_add(1);
        queries.push(query_of(rt, QueryKind::Span(a, end)))?;
    }
    Ok(queries)
}

/// An address or a span by chance.
pub fn draw(draws: &mut Draws) -> Query {
    let first = draws.next();
    match Query::range(first, draws.next()) {
        Some(span) => span,
        None => Query::address(first),
    }
}

/// The answers are those of the queries, in their order.
pub fn assert_echoed(rt: &impl Abort, answers: &[QueryKind], queries: &[Query]) {
    assert_eq!(rt; answers.len(), queries.len());
    for (answer, query) in answers.iter().zip(queries) {
        assert_eq!(rt; *answer, query.kind());
    }
}

/// Borders of spans, and whether there is an address from the first on and below the second.
const SPANS: [(u64, u64, bool); 8] = [
    (0, 1, true),
    (5, 6, true),
    (0x400000, 0x500000, true),
    (0, u64::MAX, true),
    (0, 0, false),
    (5, 5, false),
    (6, 5, false),
    (u64::MAX, 0, false),
];

#[test]
fn queries(rt: HostRuntime) {
    for a in [0, 5, u64::MAX] {
        let query = Query::address(a);
        assert_eq!(rt; query.kind(), QueryKind::Address(a));
        assert_eq!(rt; (query.first(), query.second()), (a, 0));
        assert_eq!(rt; Query::of_words(a, 0), query);
    }
    for (low, high, some) in SPANS {
        let query = Query::range(low, high);
        assert_eq!(rt;
            query.map(|span| (span.kind(), span.first(), span.second())),
            some.then_some((QueryKind::Span(low, high), low, high))
        );
    }
}
