//! Terms that are read as specifications, and the answers of these and of their code.
use kit_code::{agrees, answers_of, answers_of_text};
use kit_rows::{Outcome, canonical, elements, numbered, text, word};
use mspec_reader::read_spec;
use mspec_syntax::SpecFault;
use std::alloc::Global;
use term_core::Term;
use term_text::read_terms;

/// Returns the text of the error code of a fault, and of the clause and the variable that it names.
fn fault_text(alloc: Global, fault: SpecFault) -> Option<Vec<u8>> {
    let number = usize::from(fault.number());
    let out = Outcome::tuple(alloc).word("refused").number(number);
    match (fault.clause(), fault.variable()) {
        (Some(clause), Some(variable)) => out.number(clause).number(variable as usize).end(),
        (Some(clause), None) => out.number(clause).end(),
        (None, _) => out.end(),
    }
}

/// Returns the text of the number of clauses of the specification that a term is read as, or of its fault.
fn read(alloc: Global, term: &Term) -> Option<Vec<u8>> {
    match read_spec(alloc, term) {
        Ok(spec) => {
            let clauses = spec.clauses().len();
            drop(spec);
            numbered(alloc, "ok", clauses)
        }
        Err(fault) => fault_text(alloc, fault),
    }
}

/// Returns the text of the number of clauses of the specification that the first term of a text is read as, or of its
/// fault.
fn read_text(alloc: Global, given: &[u8]) -> Option<Vec<u8>> {
    let Ok(terms) = read_terms(alloc, given) else {
        return None;
    };
    let text = match terms.first() {
        Some(term) => read(alloc, term),
        None => None,
    };
    drop(terms);
    text
}

/// Returns whether the code of the specification that a term is read as gives the same answers as the specification on
/// each of these objects. Returns `None` if the term is no specification or memory runs out.
fn term_agrees(alloc: Global, term: &Term, objects: &[Term]) -> Option<bool> {
    let Ok(specification) = read_spec(alloc, term) else {
        return None;
    };
    let agree = agrees(alloc, &specification, objects);
    drop(specification);
    agree
}

/// Returns the text of the first of these specifications whose code gives another answer on one of these objects;
/// `same` if there is none.
fn all_agree(alloc: Global, specifications: &[Term], objects: &[Term]) -> Option<Vec<u8>> {
    for specification in specifications {
        if !term_agrees(alloc, specification, objects)? {
            return canonical(alloc, specification);
        }
    }
    word(alloc, "same")
}

/// Returns whether the code of the first term of a text gives the same answers as that term does as a specification, on
/// the terms that follow it: `same` or `other`.
fn agrees_on_text(alloc: Global, given: &[u8]) -> Option<Vec<u8>> {
    let Ok(terms) = read_terms(alloc, given) else {
        return None;
    };
    let agrees = match terms.as_slice().split_first() {
        Some((specification, objects)) => term_agrees(alloc, specification, objects),
        None => None,
    };
    drop(terms);
    word(alloc, if agrees? { "same" } else { "other" })
}

/// Returns the result of a row of a text and the expected result.
fn came_of_text(alloc: Global, kind: &str, given: &Term) -> Option<Vec<u8>> {
    match kind {
        "spec_text" => read_text(alloc, text(alloc, given)?.as_slice()),
        "answers_text" => answers_of_text(alloc, alloc, text(alloc, given)?.as_slice()),
        "agree_text" => agrees_on_text(alloc, text(alloc, given)?.as_slice()),
        _ => None,
    }
}

/// Returns the result of a row of specifications and objects.
fn came_of_two(alloc: Global, kind: &str, given: &Term, objects: &Term) -> Option<Vec<u8>> {
    match kind {
        "answers" => answers_of(alloc, alloc, given, elements(objects)?),
        "agree" => all_agree(alloc, elements(given)?, elements(objects)?),
        _ => None,
    }
}

/// Returns the result of a row of specifications, or `None` if there is no such row.
pub(crate) fn came(alloc: Global, kind: &str, parts: &[Term]) -> Option<Vec<u8>> {
    match parts {
        [term, _] if kind == "spec" => read(alloc, term),
        [given, _] => came_of_text(alloc, kind, given),
        [given, objects, _] => came_of_two(alloc, kind, given, objects),
        _ => None,
    }
}
