//! The lines of each kind of expression.
use crate::put::{key_list, put};
use crate::site::Site;
use compiler_assembly::{Lines, Op};
use mcode::Kind;
use mspec_syntax::{Expression, ExpressionKind};
use prims_table::{Arithmetic, Function, Primitive};
use std::alloc::{AllocError, Allocator};
use term_core::Term;

impl<'s, A: Allocator + Copy> Site<'s, A> {
    ghost use Rattle.std.specs.Prelude.{◌≡◌, suc, ◌+◌, ◌*◌, ◌<◌, ◌≤◌, ◌∷◌, [], ◌++◌, length, OnOk};
    ghost use Rattle.mcode.specs.declared.kind.Kind.TheVariants.{Int};
    ghost use Rattle.prims_table.specs.declared.prim.Primitive.TheVariants as prim;
    ghost use Rattle.mspec_syntax.specs.Expression.{expressions_of, assignments_of, expressions_size, assignments_size, expression_nodes, new_cells};
    ghost use Rattle.mspec_syntax.specs.Expression.Expression.{call, and_also, or_else, new_tuple, new_map};
    ghost use Rattle.mspec_syntax.specs.ExpressionView.{tail_expression, IsTailExpression};
    ghost use Rattle.mspec_syntax.specs.Mode.Position.{by_itself};
    ghost use Rattle.mspec_syntax.specs.Sound.{IsSoundExpression};
    ghost use Rattle.compiler_expressions.specs.Expressions.{lines_at, argument_lines, value_lines};
    ghost use Rattle.compiler_expressions.specs.Writable.{CanBeWritten, AreWritable, IsSoundSite, most_counted};

    /// Puts the lines of an expression at the front of `lines`: `depth` places are below its value, of which `integers`
    /// are known to hold integers, in ascending order. Fails if an allocation fails.
    pub fn write_expression(
        &self,
        depth: u16,
        integers: &[(u16, Kind)],
        expression: &Expression<A>,
        lines: &mut Lines<A>,
    ) -> Result<(), AllocError>
        requires site { IsSoundSite self.now }
        requires sound { IsSoundExpression self.now.bound expression.now }
        requires room { depth + 8 * expression_nodes (length self.now.bound) expression.now
            ≤ most_counted }
        ensures { OnOk result (lines.new ≡ lines_at self.now depth integers.now expression.now
            by_itself ++ lines.old) }
    {
        self.write_one(depth, integers, expression, lines)
    }

    /// Puts the lines of an expression at the front of `lines`. Fails if an allocation fails.
    #[cycle(write)]
    fn write_one(
        &self,
        depth: u16,
        integers: &[(u16, Kind)],
        expression: &Expression<A>,
        lines: &mut Lines<A>,
    ) -> Result<(), AllocError>
        requires { CanBeWritten self.now depth integers.now expression.now }
        ensures { OnOk result (lines.new ≡ lines_at self.now depth integers.now expression.now
            by_itself ++ lines.old) }
    {
        match expression.kind() {
            ExpressionKind::Variable(number) => self.put_variable(*number, lines),
            ExpressionKind::Object => put(Op::Load, lines),
            ExpressionKind::Bindings => self.put_bindings(depth, integers, lines),
            ExpressionKind::Constant(term) => self.put_constant(term, lines),
            ExpressionKind::Quoted(term) => self.put_constant(term, lines),
            ExpressionKind::Call(function, arguments) => {
                self.write_call(depth, integers, *function, arguments.as_slice(), lines)
            }
            ExpressionKind::AndAlso(arguments) => {
                self.write_and(depth, integers, arguments.as_slice(), lines)
            }
            ExpressionKind::OrElse(arguments) => {
                self.write_or(depth, integers, arguments.as_slice(), lines)
            }
            ExpressionKind::Tuple(elements) => {
                self.write_tuple(depth, integers, elements.as_slice(), lines)
            }
            ExpressionKind::List(elements, tail) => {
                self.write_list(depth, integers, elements.as_slice(), tail, lines)
            }
            ExpressionKind::Map(assignments) => {
                self.write_map(depth, integers, assignments.as_slice(), lines)
            }
        }
    }

    /// Puts the lines of a call at the front of `lines`. Fails if an allocation fails.
    #[cycle(write)]
    fn write_call(
        &self,
        depth: u16,
        integers: &[(u16, Kind)],
        function: Primitive,
        arguments: &[Expression<A>],
        lines: &mut Lines<A>,
    ) -> Result<(), AllocError>
        requires { CanBeWritten self.now depth integers.now
            (call function (expressions_of arguments.now)) }
        ensures { OnOk result (lines.new ≡ lines_at self.now depth integers.now
            (call function (expressions_of arguments.now)) by_itself ++ lines.old) }
    {
        match function {
            Primitive::Function(function) => {
                self.write_function(depth, integers, function, arguments, lines)
            }
            Primitive::Arithmetic(function) => {
                self.write_arithmetic(depth, integers, function, arguments, lines)
            }
        }
    }

    /// Puts the lines of a call of a function at the front of `lines`. Fails if an allocation fails.
    #[cycle(write)]
    fn write_function(
        &self,
        depth: u16,
        integers: &[(u16, Kind)],
        function: Function,
        arguments: &[Expression<A>],
        lines: &mut Lines<A>,
    ) -> Result<(), AllocError>
        requires { CanBeWritten self.now depth integers.now
            (call (prim.Function function) (expressions_of arguments.now)) }
        ensures { OnOk result (lines.new ≡ lines_at self.now depth integers.now
            (call (prim.Function function) (expressions_of arguments.now)) by_itself ++ lines.old) }
    {
        self.put_exit(depth, integers, lines)?;
        let count = arguments.len() as u16;
        put(Op::Call(function, count, self.failure(1)), lines)?;
        self.write_all(depth, integers, arguments, lines)
    }

    /// Puts the lines of a call of a function of two integers at the front of `lines`; none for another number of
    /// arguments. Fails if an allocation fails.
    #[cycle(write)]
    fn write_arithmetic(
        &self,
        depth: u16,
        integers: &[(u16, Kind)],
        function: Arithmetic,
        arguments: &[Expression<A>],
        lines: &mut Lines<A>,
    ) -> Result<(), AllocError>
        requires { CanBeWritten self.now depth integers.now
            (call (prim.Arithmetic function) (expressions_of arguments.now)) }
        ensures { OnOk result (lines.new ≡ lines_at self.now depth integers.now
            (call (prim.Arithmetic function) (expressions_of arguments.now)) by_itself
            ++ lines.old) }
    {
        if arguments.len() != 2 {
            return Ok(());
        }
        self.put_exit(depth, integers, lines)?;
        self.put_arithmetic(function, lines)?;
        let end = lines.len();
        self.write_second(depth, integers, &arguments[1], lines)?;
        let failure = self.failure_after(lines.len() - end, 3);
        put(Op::Int(failure), lines)?;
        self.write_one(depth, integers, &arguments[0], lines)
    }

    /// Puts the lines of an expression at the front of `lines`, whose value is pushed above an integer. Fails if an
    /// allocation fails.
    #[cycle(write)]
    fn write_second(
        &self,
        depth: u16,
        integers: &[(u16, Kind)],
        expression: &Expression<A>,
        lines: &mut Lines<A>,
    ) -> Result<(), AllocError>
        requires { CanBeWritten self.now (suc depth) (integers.now ++ (depth, Int) ∷ [])
            expression.now }
        ensures { OnOk result (lines.new ≡ lines_at self.now (suc depth)
            (integers.now ++ (depth, Int) ∷ []) expression.now by_itself ++ lines.old) }
    {
        let mut integers = Vec::from_slice(self.alloc(), integers)?;
        integers.push((depth, Kind::Int))?;
        self.write_one(depth + 1, integers.as_slice(), expression, lines)
    }

    /// Puts the lines of arguments or elements at the front of `lines`; each value is pushed above the one before.
    /// Fails if an allocation fails.
    #[cycle(write)]
    fn write_all(
        &self,
        depth: u16,
        integers: &[(u16, Kind)],
        expressions: &[Expression<A>],
        lines: &mut Lines<A>,
    ) -> Result<(), AllocError>
        requires room { depth + expressions_size (expressions_of expressions.now)
            ≤ most_counted }
        requires lines { AreWritable (argument_lines self.now depth integers.now
            (expressions_of expressions.now)) }
        ensures { OnOk result (lines.new ≡ argument_lines self.now depth integers.now
            (expressions_of expressions.now) ++ lines.old) }
    {
        for place in (0..expressions.len()).rev() {
            self.write_one(depth + place as u16, integers, &expressions[place], lines)?;
        }
        Ok(())
    }

    /// Puts the lines of `andalso` at the front of `lines`. Fails if an allocation fails.
    #[cycle(write)]
    fn write_and(
        &self,
        depth: u16,
        integers: &[(u16, Kind)],
        arguments: &[Expression<A>],
        lines: &mut Lines<A>,
    ) -> Result<(), AllocError>
        requires { CanBeWritten self.now depth integers.now
            (and_also (expressions_of arguments.now)) }
        ensures { OnOk result (lines.new ≡ lines_at self.now depth integers.now
            (and_also (expressions_of arguments.now)) by_itself ++ lines.old) }
    {
        self.put_all_true(depth, integers, lines)?;
        let end = lines.len();
        for place in (0..arguments.len()).rev() {
            self.put_test(lines.len() - end, lines)?;
            self.write_one(depth, integers, &arguments[place], lines)?;
        }
        Ok(())
    }

    /// Puts the lines of `orelse` at the front of `lines`. Fails if an allocation fails.
    #[cycle(write)]
    fn write_or(
        &self,
        depth: u16,
        integers: &[(u16, Kind)],
        arguments: &[Expression<A>],
        lines: &mut Lines<A>,
    ) -> Result<(), AllocError>
        requires { CanBeWritten self.now depth integers.now
            (or_else (expressions_of arguments.now)) }
        ensures { OnOk result (lines.new ≡ lines_at self.now depth integers.now
            (or_else (expressions_of arguments.now)) by_itself ++ lines.old) }
    {
        let end = lines.len();
        self.put_none_true(depth, integers, lines)?;
        for place in (0..arguments.len()).rev() {
            self.put_choice(depth, integers, lines.len() - end, lines)?;
            self.write_one(depth, integers, &arguments[place], lines)?;
        }
        Ok(())
    }

    /// Puts the lines of a tuple at the front of `lines`. Fails if an allocation fails.
    #[cycle(write)]
    fn write_tuple(
        &self,
        depth: u16,
        integers: &[(u16, Kind)],
        elements: &[Expression<A>],
        lines: &mut Lines<A>,
    ) -> Result<(), AllocError>
        requires { CanBeWritten self.now depth integers.now
            (new_tuple (expressions_of elements.now)) }
        ensures { OnOk result (lines.new ≡ lines_at self.now depth integers.now
            (new_tuple (expressions_of elements.now)) by_itself ++ lines.old) }
    {
        self.put_exit(depth, integers, lines)?;
        let count = elements.len() as u16;
        put(Op::MakeTuple(count, self.failure(1)), lines)?;
        self.write_all(depth, integers, elements, lines)
    }

    /// Puts the lines of a list of elements and a tail at the front of `lines`. Fails if an allocation fails.
    #[cycle(write)]
    fn write_list(
        &self,
        depth: u16,
        integers: &[(u16, Kind)],
        elements: &[Expression<A>],
        tail: &Option<Box<Expression<A>, A>>,
        lines: &mut Lines<A>,
    ) -> Result<(), AllocError>
        requires elements { 0 < length elements.now }
        requires tail { IsTailExpression tail.now }
        requires written { CanBeWritten self.now depth integers.now
            (new_cells elements.now (tail_expression tail.now)) }
        ensures { OnOk result (lines.new ≡ lines_at self.now depth integers.now
            (new_cells elements.now (tail_expression tail.now)) by_itself ++ lines.old) }
    {
        self.put_exit(depth, integers, lines)?;
        self.put_cells(elements.len(), lines)?;
        self.write_tail(depth + elements.len() as u16, integers, tail, lines)?;
        self.write_all(depth, integers, elements, lines)
    }

    /// Puts the lines of a list's tail at the front of `lines`; without a tail it is `[]`. Fails if an allocation
    /// fails.
    #[cycle(write)]
    fn write_tail(
        &self,
        depth: u16,
        integers: &[(u16, Kind)],
        tail: &Option<Box<Expression<A>, A>>,
        lines: &mut Lines<A>,
    ) -> Result<(), AllocError>
        requires { CanBeWritten self.now depth integers.now (tail_expression tail.now) }
        ensures { OnOk result (lines.new ≡ lines_at self.now depth integers.now
            (tail_expression tail.now) by_itself ++ lines.old) }
    {
        match tail {
            None => put(Op::Const(Term::nil()), lines),
            Some(tail) => self.write_one(depth, integers, tail, lines),
        }
    }

    /// Puts the lines of a map at the front of `lines`. Fails if an allocation fails.
    #[cycle(write)]
    fn write_map(
        &self,
        depth: u16,
        integers: &[(u16, Kind)],
        assignments: &[(Term<A>, Expression<A>)],
        lines: &mut Lines<A>,
    ) -> Result<(), AllocError>
        requires { CanBeWritten self.now depth integers.now
            (new_map (assignments_of assignments.now)) }
        ensures { OnOk result (lines.new ≡ lines_at self.now depth integers.now
            (new_map (assignments_of assignments.now)) by_itself ++ lines.old) }
    {
        self.put_exit(depth, integers, lines)?;
        let keys = key_list(self.alloc(), assignments)?;
        put(Op::MakeMap(keys, self.failure(1)), lines)?;
        self.write_values(depth, integers, assignments, lines)
    }

    /// Puts the lines of the values of a map's keys at the front of `lines`; each value is pushed above the one before.
    /// Fails if an allocation fails.
    #[cycle(write)]
    fn write_values(
        &self,
        depth: u16,
        integers: &[(u16, Kind)],
        assignments: &[(Term<A>, Expression<A>)],
        lines: &mut Lines<A>,
    ) -> Result<(), AllocError>
        requires room { depth + assignments_size (assignments_of assignments.now)
            ≤ most_counted }
        requires lines { AreWritable (value_lines self.now depth integers.now
            (assignments_of assignments.now)) }
        ensures { OnOk result (lines.new ≡ value_lines self.now depth integers.now
            (assignments_of assignments.now) ++ lines.old) }
    {
        for place in (0..assignments.len()).rev() {
            let (_, expression) = &assignments[place];
            self.write_one(depth + place as u16, integers, expression, lines)?;
        }
        Ok(())
    }
}
