//! Which query the first term of an input is.
ghost use Rattle.std.specs.Prelude.{◌≡◌, IfOk, IfErr};
ghost use Rattle.term_core.specs.Datum.{Datum};
ghost use Rattle.mcode.specs.Answer.{answer_of};
ghost use Rattle.mspec_meaning.specs.Meaning.{Means};
ghost use Rattle.tool_query.specs.Code.{IsFileOf};
ghost use Rattle.tool_query.specs.Query.{Query as AnyQuery, Answers, IsRead, IsQuery, IsLoaded};
ghost use Rattle.tool_query.specs.Query.{IsNoSpecification, IsUnloaded, IsNoQuery};

use code_file::{decode, encode, one_code};
use compiler::compile;
use machine_bodies::runs_end_with_the_answer;
use mspec_reader::read_spec;
use mspec_syntax::Spec;
use std::alloc::{AllocError, Allocator};
use term_core::{Term, View};
use tool_io::ToolFault;
use verifier::{Verified, faulty_code_is_untyped, verify};

/// Reads a term as a specification, within its limits. Fails with the fault of the term or with `Memory`.
pub fn specification_of<A: Allocator + Copy>(alloc: A, term: &Term<A>) -> Result<Spec<A>, ToolFault>
    ensures ok { IfOk result (λ s. IsRead term.now s) }
    ensures refused { IfErr result (IsNoSpecification term.now) }
{
    match read_spec(alloc, term) {
        Ok(specification) => Ok(specification),
        Err(fault) => Err(ToolFault::from(fault)),
    }
}

/// Decodes the file of code and verifies the code. Fails with the fault of the file or of the code, or with `Memory`.
pub fn load<A: Allocator + Copy>(alloc: A, bytes: &[u8]) -> Result<Verified<A>, ToolFault>
    ensures ok { IfOk result (λ code. IsLoaded bytes.now code) }
    ensures refused { IfErr result (IsUnloaded bytes.now) }
{
    let code = match decode(alloc, bytes) {
        Ok(code) => code,
        Err(fault) => return Err(ToolFault::from(fault)),
    };
    match verify(alloc, code) {
        Ok(code) => Ok(code),
        Err(refused) => Err(ToolFault::from(refused.fault)),
    }
}

/// Returns the file of a specification's code.
pub fn file_of<A: Allocator + Copy>(
    alloc: A,
    specification: &Spec<A>,
) -> Result<Vec<u8, A>, AllocError>
    ensures { IfOk result (λ bytes. IsFileOf specification.now bytes.items) }
{
    let code = compile(alloc, specification)?;
    encode(alloc, code.code())
}

/// Returns the code of a specification, encoded to its file and loaded from it. Fails only with `Memory`.
pub(crate) fn code_from_file<A: Allocator + Copy>(
    alloc: A,
    specification: &Spec<A>,
) -> Result<Verified<A>, ToolFault>
    ensures ok { IfOk result (λ code. (object : Datum)
        → Means specification.now object (answer_of code object)) }
    ensures refused { IfErr result (λ fault. fault ≡ ToolFault.Memory) }
{
    one_code();
    faulty_code_is_untyped();
    runs_end_with_the_answer();
    let Ok(file) = file_of(alloc, specification) else {
        return Err(ToolFault::Memory);
    };
    match load(alloc, file.as_slice()) {
        Ok(code) => Ok(code),
        Err(fault) => match fault {
            ToolFault::Memory => Err(ToolFault::Memory),
            _ => unreachable!(),
        },
    }
}

/// Returns the code of the query that a term is: the code of which a binary is the file, or the code of the
/// specification as which any other term is read.
pub(crate) fn code_of_query<A: Allocator + Copy>(
    alloc: A,
    term: &Term<A>,
) -> Result<Verified<A>, ToolFault>
    ensures ok { IfOk result (λ code. (q : AnyQuery) × IsQuery term.now q
        × ((object : Datum) → Answers q object (answer_of code object))) }
    ensures refused { IfErr result (IsNoQuery term.now) }
{
    if let View::Binary(bytes) = term.view() {
        return load(alloc, bytes);
    }
    let specification = specification_of(alloc, term)?;
    code_from_file(alloc, &specification)
}
