//! Lines that need no expression.
ghost use Rattle.std.specs.Prelude.{◌≡◌, ◌∷◌, IfOk, OnOk};
ghost use Rattle.term_core.specs.Datum.{cells};
ghost use Rattle.std.specs.Str.{chars};
ghost use Rattle.term_core.specs.Datum.Datum.{nil, atom};
ghost use Rattle.term_core.specs.Limits.{IsTerm};
ghost use Rattle.mspec_syntax.specs.Expression.{assignments_of, assignment_keys};
ghost use Rattle.term_operand.specs.Operand.{boolean};
ghost use Rattle.compiler_assembly.specs.Line.{plain};

use crate::site::Site;
use compiler_assembly::{Label, Lines, Op, Target};
use mcode::{Kind, Places};
use mspec_syntax::{Expression, Mode, exit_term};
use prims_table::Arithmetic;
use std::alloc::{AllocError, Allocator};
use term_build::make_list;
use term_core::Term;

/// Returns the list of a map's keys. Fails if an allocation fails.
pub(crate) fn key_list<A: Allocator + Copy>(
    alloc: A,
    assignments: &[(Term<A>, Expression<A>)],
) -> Result<Term<A>, AllocError>
    requires { IsTerm (cells (assignment_keys (assignments_of assignments.now)) nil) }
    ensures { IfOk result (λ keys. keys
        ≡ cells (assignment_keys (assignments_of assignments.now)) nil) }
{
    let mut keys = Vec::with_capacity(alloc, assignments.len())?;
    for (key, _expression) in assignments {
        keys.push(key.copy()?)?;
    }
    match make_list(alloc, keys, Term::nil())? {
        Some(list) => Ok(list),
        None => unreachable!(),
    }
}

/// Returns the text of the atom `true` or `false`.
fn boolean_text(value: bool) -> &'static str
    ensures { atom (chars result.now) ≡ boolean value }
{
    if value { "true" } else { "false" }
}

/// Returns the atom `true` or `false`. Fails if an allocation fails.
fn boolean_term<A: Allocator + Copy>(alloc: A, value: bool) -> Result<Term<A>, AllocError>
    ensures { IfOk result (λ term. term ≡ boolean value) }
{
    match Term::atom(alloc, boolean_text(value)) {
        Ok(atom) => Ok(atom),
        Err(_) => Err(AllocError),
    }
}

/// Puts an instruction at the front of `lines`. Fails if an allocation fails.
pub(crate) fn put<A: Allocator>(op: Op<Term<A>>, lines: &mut Lines<A>) -> Result<(), AllocError>
    ensures { OnOk result (lines.new ≡ plain op ∷ lines.old) }
{
    lines.prepend(op, None)
}

impl<'s, A: Allocator + Copy> Site<'s, A> {
    ghost use Rattle.std.specs.Prelude.{◌≡◌, ◌∷◌, ◌++◌, ◌+◌, ◌<◌, ◌≤◌, map, true, OnOk};
    ghost use Rattle.term_operand.specs.Operand.{boolean};
    ghost use Rattle.compiler_assembly.specs.Line.{plain, before_label};
    ghost use Rattle.compiler_assembly.specs.declared.op.Op.TheVariants.{Const, Get, Bool, Branch, Jump, Int, Arith};
    ghost use Rattle.compiler_assembly.specs.declared.op.Target.TheVariants.{Ahead};
    ghost use Rattle.mspec_syntax.specs.Rising.{rank_of};
    ghost use Rattle.compiler_expressions.specs.Expressions.{failure, exit_lines, cell_lines, bindings_lines, all_true_lines, none_true_lines};
    ghost use Rattle.compiler_expressions.specs.Writable.{IsNear, AreWritable, most_counted, most_slot};

    /// Puts an instruction with a label after it at the front of `lines`. Fails if an allocation fails.
    fn put_before_label(
        &self,
        op: Op<Term<A>>,
        depth: u16,
        integers: &[(u16, Kind)],
        lines: &mut Lines<A>,
    ) -> Result<(), AllocError>
        ensures { OnOk result (lines.new ≡ before_label op depth integers.now ∷ lines.old) }
    {
        let integers = Places::new(Vec::from_slice(self.alloc(), integers)?);
        lines.prepend(op, Some(Label::Inside { depth, integers }))
    }

    /// Puts the instruction that pushes the atom `true` or `false` at the front of `lines`. Fails if an allocation
    /// fails.
    fn put_boolean(&self, value: bool, lines: &mut Lines<A>) -> Result<(), AllocError>
        ensures { OnOk result (lines.new ≡ plain (Const (boolean value)) ∷ lines.old) }
    {
        let atom = boolean_term(self.alloc(), value)?;
        put(Op::Const(atom), lines)
    }

    /// Puts the last lines of an expression of which a line may fail at the front of `lines`. Fails if an allocation
    /// fails.
    pub(crate) fn put_exit(
        &self,
        depth: u16,
        integers: &[(u16, Kind)],
        lines: &mut Lines<A>,
    ) -> Result<(), AllocError>
        requires { depth < most_counted }
        ensures { OnOk result (lines.new ≡ exit_lines self.now.mode depth integers.now
            ++ lines.old) }
    {
        match self.mode() {
            Mode::Condition => Ok(()),
            Mode::Body => {
                let exit = exit_term(self.alloc())?;
                self.put_before_label(Op::Const(exit), depth + 1, integers, lines)?;
                self.put_before_label(Op::Jump(Target::Ahead(1)), depth, integers, lines)
            }
        }
    }

    /// Puts the lines that make `count` cells of elements and a tail at the front of `lines`. Fails if an allocation
    /// fails.
    pub(crate) fn put_cells(&self, count: usize, lines: &mut Lines<A>) -> Result<(), AllocError>
        requires { AreWritable (cell_lines self.now.mode count) }
        ensures { OnOk result (lines.new ≡ cell_lines self.now.mode count ++ lines.old) }
    {
        for behind in 0..count {
            put(Op::MakeCons(self.failure(behind + 1)), lines)?;
        }
        Ok(())
    }

    /// Puts the instruction that pushes the value of a variable at the front of `lines`. Fails if an allocation fails.
    pub(crate) fn put_variable(&self, number: u32, lines: &mut Lines<A>) -> Result<(), AllocError>
        requires { rank_of self.now.slots number ≤ most_slot }
        ensures { OnOk result (lines.new ≡ plain (Get (rank_of self.now.slots number))
            ∷ lines.old) }
    {
        put(Op::Get(self.slot(number)), lines)
    }

    /// Puts the instructions that push the values of variables at the front of `lines`. Fails if an allocation fails.
    fn put_variables(&self, numbers: &[u32], lines: &mut Lines<A>) -> Result<(), AllocError>
        requires { AreWritable (map (λ n. plain (Get (rank_of self.now.slots n))) numbers.now) }
        ensures { OnOk result (lines.new
            ≡ map (λ n. plain (Get (rank_of self.now.slots n))) numbers.now ++ lines.old) }
    {
        for place in (0..numbers.len()).rev() {
            self.put_variable(numbers[place], lines)?;
        }
        Ok(())
    }

    /// Puts the lines of the list of the values of the clause's variables at the front of `lines`. Fails if an
    /// allocation fails.
    pub(crate) fn put_bindings(
        &self,
        depth: u16,
        integers: &[(u16, Kind)],
        lines: &mut Lines<A>,
    ) -> Result<(), AllocError>
        requires room { depth < most_counted }
        requires lines { AreWritable (bindings_lines self.now depth integers.now self.now.bound) }
        ensures { OnOk result (lines.new
            ≡ bindings_lines self.now depth integers.now self.now.bound ++ lines.old) }
    {
        let numbers = self.bound();
        if numbers.is_empty() {
            return put(Op::Const(Term::nil()), lines);
        }
        self.put_exit(depth, integers, lines)?;
        self.put_cells(numbers.len(), lines)?;
        put(Op::Const(Term::nil()), lines)?;
        self.put_variables(numbers, lines)
    }

    /// Puts the instruction that pushes a constant at the front of `lines`. Fails if an allocation fails.
    pub(crate) fn put_constant(
        &self,
        term: &Term<A>,
        lines: &mut Lines<A>,
    ) -> Result<(), AllocError>
        ensures { OnOk result (lines.new ≡ plain (Const term.now) ∷ lines.old) }
    {
        put(Op::Const(term.copy()?), lines)
    }

    /// Puts the last lines of `andalso` at the front of `lines`. Fails if an allocation fails.
    pub(crate) fn put_all_true(
        &self,
        depth: u16,
        integers: &[(u16, Kind)],
        lines: &mut Lines<A>,
    ) -> Result<(), AllocError>
        requires { depth < most_counted }
        ensures { OnOk result (lines.new ≡ all_true_lines self.now.mode depth integers.now
            ++ lines.old) }
    {
        match self.mode() {
            Mode::Condition => {
                let no = boolean_term(self.alloc(), false)?;
                self.put_before_label(Op::Const(no), depth + 1, integers, lines)?;
                self.put_before_label(Op::Jump(Target::Ahead(1)), depth, integers, lines)?;
            }
            Mode::Body => {
                self.put_exit(depth, integers, lines)?;
                self.put_boolean(false, lines)?;
                self.put_before_label(Op::Jump(Target::Ahead(3)), depth, integers, lines)?;
            }
        }
        self.put_boolean(true, lines)
    }

    /// Puts the last lines of `orelse` at the front of `lines`. Fails if an allocation fails.
    pub(crate) fn put_none_true(
        &self,
        depth: u16,
        integers: &[(u16, Kind)],
        lines: &mut Lines<A>,
    ) -> Result<(), AllocError>
        requires { depth < most_counted }
        ensures { OnOk result (lines.new ≡ none_true_lines self.now.mode depth integers.now
            ++ lines.old) }
    {
        match self.mode() {
            Mode::Condition => {
                let no = boolean_term(self.alloc(), false)?;
                self.put_before_label(Op::Const(no), depth + 1, integers, lines)
            }
            Mode::Body => {
                self.put_exit(depth, integers, lines)?;
                self.put_boolean(false, lines)
            }
        }
    }

    /// Puts the lines that examine an argument of `andalso` before `others` lines of the other arguments. Fails if an
    /// allocation fails.
    pub(crate) fn put_test(&self, others: usize, lines: &mut Lines<A>) -> Result<(), AllocError>
        requires failing { IsNear (failure self.now.mode (others + 5)) }
        requires branch { others + 2 ≤ most_counted }
        ensures { OnOk result (lines.new ≡ plain (Bool (failure self.now.mode (others + 5)))
            ∷ plain (Branch (Ahead (others + 2))) ∷ lines.old) }
    {
        let no = Target::Ahead((others + 2) as u16);
        put(Op::Branch(no), lines)?;
        put(Op::Bool(self.failure(others + 5)), lines)
    }

    /// Puts the lines that examine an argument of `orelse` before `others` other lines. Fails if an allocation fails.
    pub(crate) fn put_choice(
        &self,
        depth: u16,
        integers: &[(u16, Kind)],
        others: usize,
        lines: &mut Lines<A>,
    ) -> Result<(), AllocError>
        requires failing { IsNear (failure self.now.mode (others + 2)) }
        requires jump { others ≤ most_counted }
        ensures { OnOk result (lines.new ≡ plain (Bool (failure self.now.mode (others + 2)))
            ∷ plain (Branch (Ahead 2)) ∷ plain (Const (boolean true))
            ∷ before_label (Jump (Ahead others)) depth integers.now ∷ lines.old) }
    {
        let end = Target::Ahead(others as u16);
        self.put_before_label(Op::Jump(end), depth, integers, lines)?;
        self.put_boolean(true, lines)?;
        put(Op::Branch(Target::Ahead(2)), lines)?;
        put(Op::Bool(self.failure(others + 2)), lines)
    }

    /// Puts the lines that apply a function of two integers; they come after the lines of both arguments. Fails if an
    /// allocation fails.
    pub(crate) fn put_arithmetic(
        &self,
        function: Arithmetic,
        lines: &mut Lines<A>,
    ) -> Result<(), AllocError>
        ensures { OnOk result (lines.new ≡ plain (Int (failure self.now.mode 2))
            ∷ plain (Arith function (failure self.now.mode 1)) ∷ lines.old) }
    {
        put(Op::Arith(function, self.failure(1)), lines)?;
        put(Op::Int(self.failure(2)), lines)
    }
}
