//! Reads standard input, and specifications and queries of a text.
use mspec_reader::read_spec;
use mspec_syntax::Spec;
use std::alloc::Global;
use std::io::Read;
use term_core::Term;
use term_text::read_terms;
use walks::Query;

/// Returns the bytes of standard input.
pub(crate) fn bytes(rt: &HostRuntime) -> Option<Vec<u8>> {
    let mut input = Vec::new(rt.alloc());
    rt.stdin().read_to_end(&mut input).ok()?;
    Some(input)
}

/// Returns the terms of standard input.
pub(crate) fn input(rt: &HostRuntime) -> Option<Vec<Term>> {
    read_terms(rt.alloc(), bytes(rt)?.as_slice()).ok()
}

/// Returns the specification of a text.
pub(crate) fn specification(alloc: Global, text: &[u8]) -> Option<Spec> {
    let terms = read_terms(alloc, text).ok()?;
    read_spec(alloc, terms.first()?).ok()
}

/// Returns the query of a specification.
pub(crate) fn query(alloc: Global, specification: &Spec) -> Option<Query> {
    Query::from_spec(alloc, specification, 1).ok()
}
