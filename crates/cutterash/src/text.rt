//! What calls do with the texts that they are given.
ghost use Rattle.std.specs.Prelude.{◌≡◌, IfOk, IfErr, option_map};
ghost use Rattle.tool_io.specs.Terms.{HasTerms};
ghost use Rattle.cutterash.specs.Calls.{IsNoTerm, IsCompiled, IsUncompiled, IsAnswered};

use machine::run;
use std::alloc::Global;
use term_core::Term;
use term_text::{TextFault, read_terms, write_term};
use tool_io::ToolFault;
use tool_query::{file_of, only, specification_of};
use verifier::Verified;

/// Returns the terms of a text, each followed by a dot, at least one.
fn some_terms(alloc: Global, text: &[u8]) -> Result<Vec<Term>, ToolFault>
    ensures ok { IfOk result (λ terms. HasTerms text.now terms.items) }
    ensures refused { IfErr result (IsNoTerm text.now) }
{
    let terms = match read_terms(alloc, text) {
        Ok(terms) => terms,
        Err(fault) => return Err(ToolFault::from(fault)),
    };
    if terms.as_slice().is_empty() {
        return Err(ToolFault::Text(TextFault::Syntax(text.len())));
    }
    Ok(terms)
}

/// Returns the code file of the specification that a text spells, followed by a dot.
pub(crate) fn compiled(alloc: Global, text: &[u8]) -> Result<Vec<u8>, ToolFault>
    ensures ok { IfOk result (λ file. IsCompiled text.now file.items) }
    ensures refused { IfErr result (IsUncompiled text.now) }
{
    let terms = some_terms(alloc, text)?;
    let term = only(terms.as_slice())?;
    let specification = specification_of(alloc, term)?;
    let file = file_of(alloc, &specification)?;
    Ok(file)
}

/// Returns the text of the answer of code on the object that a text spells, followed by a dot, or `None` if there is no
/// answer.
pub(crate) fn answer(
    alloc: Global,
    code: &Verified,
    text: &[u8],
) -> Result<Option<Vec<u8>>, ToolFault>
    ensures ok { IfOk result (λ answer.
        IsAnswered code.now text.now (option_map (λ v. v.items) answer)) }
    ensures refused { IfErr result (IsNoTerm text.now) }
{
    let terms = some_terms(alloc, text)?;
    let object = only(terms.as_slice())?;
    let (answer, _instructions) = run(alloc, code, object)?;
    let Some(answer) = answer else {
        return Ok(None);
    };
    let mut written = Vec::new(alloc);
    write_term(&answer, &mut written)?;
    Ok(Some(written))
}
