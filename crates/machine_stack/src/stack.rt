//! The operand stack: what instructions do to its places, of which the lowest are taken.
ghost use Rattle.std.specs.Prelude.{ℕ, ◌≡◌, ◌≤◌, List};
ghost use Rattle.term_core.specs.Datum.{Datum};
ghost use Rattle.mcode.specs.Machine.{test_outcome};
ghost use Rattle.machine_stack.specs.Flow.{Leads, IsWithin};
ghost use Rattle.machine_stack.specs.Stack.{stack_at};

use crate::flow::Flow;
use crate::kinds::holds;
use crate::made::{keys_of, list_of, made_value, map_of};
use crate::places::Places;
use crate::values::{are_same, computed, field, head, tail, value_of};
use mcode::{Code, Kind};
use prims::{call_one, call_two, call_values};
use prims_table::{Arithmetic, Function, Primitive};
use std::alloc::{AllocError, Allocator};
use term_build::make_tuple;
use term_core::Term;
use term_operand::Value;

/// Returns `Next` if a test holds, else a jump to `otherwise`, each with `height` places in use.
#[inline(always)]
fn jump_unless(holds: bool, height: u16, otherwise: u16) -> Flow
    ensures flow { (terms : List Datum) → Leads result terms
        (λ p pc slots. test_outcome p pc otherwise (stack_at terms height) slots holds) }
    ensures within { (room : ℕ) → height ≤ room → IsWithin result room }
{
    if holds {
        Flow::Next(height)
    } else {
        Flow::Jump(otherwise, height)
    }
}

// What returns a flow is inlined into the machine's loop. Large parts are separate functions, which return no flow: a
// loop that grew too large would not be inlined, and a flow that a call returns is written to memory.
impl<'a, 'h, const N: usize, A: Allocator + Copy> Places<'a, 'h, N, A> {
    ghost use Rattle.std.specs.Prelude.{ℕ, ◌≡◌, ◌<◌, ◌≤◌, ◌-◌, ◌+◌, ◌∷◌, List, Some, IsTrue, IsSome, IsOk, IsOkAnd, IfOk, OnOk, IfSome, length, take, drop, map, reverse};
    ghost use Rattle.std.specs.Option.{option_map};
    ghost use Rattle.term_core.specs.Datum.{Datum};
    ghost use Rattle.mcode.specs.Program.{Program};
    ghost use Rattle.prims.specs.Calls.{function_of, inline_operands};
    ghost use Rattle.mcode.specs.Machine.{next, push_or_jump, test_outcome};
    ghost use Rattle.mcode.specs.declared.instr.Instr.TheVariants as instr;
    ghost use Rattle.machine_stack.specs.Keys.{keys_in};
    ghost use Rattle.machine_stack.specs.Flow.{Leads, IsWithin, top_holds, IsReady, IsReadyIn, Does, DoesIn};
    ghost use Rattle.term_operand.specs.Value.{value_datum, is_borrowed, all};
    ghost use Rattle.machine_stack.specs.Stack.{stack_at};

    /// Pushes a value on top of `height` places, and continues with the next instruction.
    #[inline(always)]
    pub fn push(&mut self, height: u16, place: Value<'a, A>) -> Flow
        requires { height < length self.old.terms }
        ensures flow { Leads result self.new.terms (λ p pc slots.
            next pc (value_datum place.entry ∷ stack_at self.old.terms height) slots) }
        ensures within { IsWithin result (length self.old.terms) }
        ensures count { length self.new.terms ≡ length self.old.terms }
        ensures borrowed { IsTrue self.old.borrowed → IsTrue (is_borrowed place.entry)
            → IsTrue self.new.borrowed }
    {
        self.put(usize::from(height), place);
        Flow::Next(height + 1)
    }

    /// Pushes a value on top of `height` places and continues with the next instruction, or jumps if there is none.
    #[inline(always)]
    pub fn push_or_jump(&mut self, height: u16, place: Option<Value<'a, A>>, otherwise: u16) -> Flow
        requires { height < length self.old.terms }
        ensures flow { Leads result self.new.terms (λ p pc slots.
            push_or_jump p pc otherwise (stack_at self.old.terms height) slots
            (option_map value_datum place.entry)) }
        ensures within { IsWithin result (length self.old.terms) }
        ensures count { length self.new.terms ≡ length self.old.terms }
        ensures borrowed { IsTrue self.old.borrowed
            → IfSome place.entry (λ place. IsTrue (is_borrowed place)) → IsTrue self.new.borrowed }
    {
        match place {
            Some(place) => self.push(height, place),
            None => Flow::Jump(otherwise, height),
        }
    }

    /// Returns the value at the top of `height` places.
    #[inline(always)]
    pub fn top(&self, height: u16) -> &Value<'a, A>
        requires some { 0 < height }
        requires within { height ≤ length self.now.terms }
        ensures terms { stack_at self.now.terms height
            ≡ value_datum result.now ∷ stack_at self.now.terms (height - 1) }
        ensures borrowed { IsTrue self.now.borrowed → IsTrue (is_borrowed result.now) }
    {
        self.get(usize::from(height) - 1)
    }

    /// Takes the value at the top of `height` places.
    #[inline(always)]
    pub fn pop(&mut self, height: u16) -> Value<'a, A>
        requires some { 0 < height }
        requires within { height ≤ length self.old.terms }
        ensures terms { stack_at self.old.terms height
            ≡ value_datum result ∷ stack_at self.new.terms (height - 1) }
        ensures count { length self.new.terms ≡ length self.old.terms }
        ensures borrowed { IsTrue self.old.borrowed
            → IsTrue (is_borrowed result) × IsTrue self.new.borrowed }
    {
        self.take(usize::from(height) - 1)
    }

    /// Returns the top `count` of `height` places, from the lowest.
    #[inline(always)]
    fn top_places(&self, height: u16, count: u16) -> &[Value<'a, A>]
        requires deep { count ≤ height }
        requires within { height ≤ length self.now.terms }
        ensures terms { map value_datum result.now
            ≡ reverse (take count (stack_at self.now.terms height)) }
        ensures count { length result.now ≡ count }
        ensures borrowed { IsTrue self.now.borrowed → IsTrue (all is_borrowed result.now) }
    {
        let above = usize::from(height);
        &self.as_slice()[above - usize::from(count)..above]
    }

    /// Pushes the top again.
    #[inline(always)]
    pub fn duplicate(&mut self, height: u16) -> Result<Flow, AllocError>
        requires some { 0 < height }
        requires room { height < length self.old.terms }
        ensures flow { IfOk result (λ flow. (p : Program) (object : Datum) (held : List Datum)
            → Does p object instr.Dup
            (stack_at self.old.terms height) held flow self.new.terms held) }
        ensures within { IfOk result (λ flow. IsWithin flow (length self.old.terms)) }
        ensures count { length self.new.terms ≡ length self.old.terms }
        ensures memory { IsTrue self.old.borrowed → IsOk result × IsTrue self.new.borrowed }
    {
        let top = self.top(height).copy()?;
        Ok(self.push(height, top))
    }

    /// Goes on where the top, which stays, is of a kind, else jumps.
    #[inline(always)]
    pub fn test(&self, height: u16, kind: Kind, otherwise: u16) -> Flow
        requires some { 0 < height }
        requires within { height ≤ length self.now.terms }
        ensures flow { Leads result self.now.terms (λ p pc slots.
            test_outcome p pc otherwise (stack_at self.now.terms height) slots
            (top_holds kind (stack_at self.now.terms height))) }
        ensures within { IsWithin result (length self.now.terms) }
    {
        jump_unless(holds(kind, self.top(height)), height, otherwise)
    }

    /// Puts the element of a tuple in its place.
    #[inline(always)]
    pub fn field(&mut self, height: u16, index: u16) -> Result<Flow, AllocError>
        requires some { 0 < height }
        requires within { height ≤ length self.old.terms }
        requires ready { (p : Program) × (object : Datum) × (held : List Datum)
            × IsReady p object (instr.Field index)
            (stack_at self.old.terms height) held }
        ensures flow { IfOk result (λ flow. (p : Program) (object : Datum) (held : List Datum)
            → Does p object (instr.Field index)
            (stack_at self.old.terms height) held flow self.new.terms held) }
        ensures within { IfOk result (λ flow. IsWithin flow (length self.old.terms)) }
        ensures count { length self.new.terms ≡ length self.old.terms }
        ensures memory { IsTrue self.old.borrowed → IsOk result × IsTrue self.new.borrowed }
    {
        let element = field(self.top(height), index)?;
        Ok(self.push(height - 1, element))
    }

    /// Puts the head of a list in its place.
    #[inline(always)]
    pub fn head(&mut self, height: u16) -> Result<Flow, AllocError>
        requires some { 0 < height }
        requires within { height ≤ length self.old.terms }
        requires ready { (p : Program) × (object : Datum) × (held : List Datum)
            × IsReady p object instr.Head
            (stack_at self.old.terms height) held }
        ensures flow { IfOk result (λ flow. (p : Program) (object : Datum) (held : List Datum)
            → Does p object instr.Head
            (stack_at self.old.terms height) held flow self.new.terms held) }
        ensures within { IfOk result (λ flow. IsWithin flow (length self.old.terms)) }
        ensures count { length self.new.terms ≡ length self.old.terms }
        ensures memory { IsTrue self.old.borrowed → IsOk result × IsTrue self.new.borrowed }
    {
        let head = head(self.top(height))?;
        Ok(self.push(height - 1, head))
    }

    /// Puts the tail of a list in its place.
    #[inline(always)]
    pub fn tail(&mut self, height: u16) -> Result<Flow, AllocError>
        requires some { 0 < height }
        requires within { height ≤ length self.old.terms }
        requires ready { (p : Program) × (object : Datum) × (held : List Datum)
            × IsReady p object instr.Tail
            (stack_at self.old.terms height) held }
        ensures flow { IfOk result (λ flow. (p : Program) (object : Datum) (held : List Datum)
            → Does p object instr.Tail
            (stack_at self.old.terms height) held flow self.new.terms held) }
        ensures within { IfOk result (λ flow. IsWithin flow (length self.old.terms)) }
        ensures count { length self.new.terms ≡ length self.old.terms }
        ensures memory { IsTrue self.old.borrowed → IsOk result × IsTrue self.new.borrowed }
    {
        let tail = tail(*self.heap(), self.top(height))?;
        Ok(self.push(height - 1, tail))
    }

    /// Replaces a map by the value of a key, or jumps if the map has no such key. Fails if an allocation fails.
    #[inline(always)]
    pub fn value(
        &mut self,
        code: &'a Code<A>,
        height: u16,
        key: u16,
        otherwise: u16,
    ) -> Result<Flow, AllocError>
        requires some { 0 < height }
        requires within { height ≤ length self.old.terms }
        requires ready { IsReadyIn code.now.constants (instr.Value key otherwise)
            (stack_at self.old.terms height) }
        ensures flow { IfOk result (λ flow. DoesIn code.now.constants
            (instr.Value key otherwise) (stack_at self.old.terms height) flow self.new.terms) }
        ensures within { IfOk result (λ flow. IsWithin flow (length self.old.terms)) }
        ensures count { length self.new.terms ≡ length self.old.terms }
        ensures memory { IsTrue self.old.borrowed → IsOk result × IsTrue self.new.borrowed }
    {
        let key = &code.constants()[usize::from(key)];
        let value = value_of(self.top(height), key)?;
        Ok(self.push_or_jump(height - 1, value, otherwise))
    }

    /// Takes two terms away, and jumps where they are not the same.
    #[inline(always)]
    pub fn equal(&self, height: u16, otherwise: u16) -> Flow
        requires two { 2 ≤ height }
        requires within { height ≤ length self.now.terms }
        ensures flow { (p : Program) (object : Datum) (held : List Datum)
            → Does p object (instr.Equal otherwise)
            (stack_at self.now.terms height) held result self.now.terms held }
        ensures within { IsWithin result (length self.now.terms) }
    {
        let same = are_same(self.top(height - 1), self.top(height));
        jump_unless(same, height - 2, otherwise)
    }

    /// Takes a truth value away, and jumps where it is false.
    #[inline(always)]
    pub fn branch(&self, height: u16, otherwise: u16) -> Flow
        requires some { 0 < height }
        requires within { height ≤ length self.now.terms }
        requires ready { (p : Program) × (object : Datum) × (held : List Datum)
            × IsReady p object (instr.Branch otherwise)
            (stack_at self.now.terms height) held }
        ensures flow { (p : Program) (object : Datum) (held : List Datum)
            → Does p object (instr.Branch otherwise)
            (stack_at self.now.terms height) held result self.now.terms held }
        ensures within { IsWithin result (length self.now.terms) }
    {
        match self.top(height).boolean() {
            Some(holds) => jump_unless(holds, height - 1, otherwise),
            None => unreachable!(),
        }
    }

    /// Puts what a function of two integers gives in their place, or jumps.
    #[inline(always)]
    pub fn arithmetic(&mut self, height: u16, function: Arithmetic, otherwise: u16) -> Flow
        requires two { 2 ≤ height }
        requires within { height ≤ length self.old.terms }
        requires ready { (p : Program) × (object : Datum) × (held : List Datum)
            × IsReady p object (instr.Arith function otherwise)
            (stack_at self.old.terms height) held }
        ensures flow { (p : Program) (object : Datum) (held : List Datum)
            → Does p object (instr.Arith function otherwise)
            (stack_at self.old.terms height) held result self.new.terms held }
        ensures within { IsWithin result (length self.old.terms) }
        ensures count { length self.new.terms ≡ length self.old.terms }
        ensures borrowed { IsTrue self.old.borrowed → IsTrue self.new.borrowed }
    {
        let left = self.top(height - 1).integer();
        let right = self.top(height).integer();
        let value = match (left, right) {
            (Some(left), Some(right)) => computed(function, left, right),
            _ => unreachable!(),
        };
        self.push_or_jump(height - 2, value, otherwise)
    }

    /// Returns the result of a function for the top `count` values, or `None` if the call fails. At most 16 borrowed
    /// values need no memory. Fails if an allocation fails.
    #[inline(never)]
    fn called(
        &self,
        height: u16,
        function: Primitive,
        count: u16,
    ) -> Result<Option<Value<'a, A>>, AllocError>
        requires deep { count ≤ height }
        requires within { height ≤ length self.now.terms }
        ensures value { IfOk result (λ value. option_map value_datum value
            ≡ function_of function (reverse (take count (stack_at self.now.terms height)))) }
        ensures memory { IsTrue self.now.borrowed → count ≤ inline_operands
            → IsOkAnd result (λ value. IfSome value (λ place. IsTrue (is_borrowed place))) }
    {
        match self.top_places(height, count) {
            [one] => call_one(*self.heap(), function, one),
            [left, right] => call_two(*self.heap(), function, left, right),
            values => call_values(self.heap(), function, values),
        }
    }

    /// Replaces the arguments by the result of a function, or jumps if the call fails. Fails if an allocation fails.
    #[inline(always)]
    pub fn call(
        &mut self,
        height: u16,
        function: Function,
        arguments: u16,
        otherwise: u16,
    ) -> Result<Flow, AllocError>
        requires deep { arguments ≤ height }
        requires within { height ≤ length self.old.terms }
        requires room { height - arguments < length self.old.terms }
        ensures flow { IfOk result (λ flow. (p : Program) (object : Datum) (held : List Datum)
            → Does p object (instr.Call function arguments otherwise)
            (stack_at self.old.terms height) held flow self.new.terms held) }
        ensures within { IfOk result (λ flow. IsWithin flow (length self.old.terms)) }
        ensures count { length self.new.terms ≡ length self.old.terms }
        ensures memory { IsTrue self.old.borrowed → arguments ≤ inline_operands → IsOk result
            × IsTrue self.new.borrowed }
    {
        let value = self.called(height, Primitive::Function(function), arguments)?;
        Ok(self.push_or_jump(height - arguments, value, otherwise))
    }

    /// Takes the top `count` values as terms, from the lowest. Fails if an allocation fails.
    #[inline(never)]
    pub(crate) fn take_terms(
        &mut self,
        height: u16,
        count: u16,
    ) -> Result<Vec<Term<A>, A>, AllocError>
        requires deep { count ≤ height }
        requires within { height ≤ length self.old.terms }
        ensures terms { IfOk result (λ terms. terms.items
            ≡ reverse (take count (stack_at self.old.terms height))) }
        ensures rest { OnOk result (stack_at self.new.terms (height - count)
            ≡ drop count (stack_at self.old.terms height)) }
        ensures count { length self.new.terms ≡ length self.old.terms }
    {
        let alloc = *self.heap();
        let mut terms = Vec::with_capacity(alloc, usize::from(count))?;
        for taken in 0..count {
            terms.push(self.pop(height - taken).into_term(alloc)?)?;
        }
        terms.reverse();
        Ok(terms)
    }

    /// Replaces elements by the tuple of them, or jumps if it exceeds a limit of terms. Fails if an allocation fails.
    #[inline(always)]
    pub fn make_tuple(&mut self, height: u16, size: u16, otherwise: u16) -> Result<Flow, AllocError>
        requires deep { size ≤ height }
        requires within { height ≤ length self.old.terms }
        requires room { height - size < length self.old.terms }
        ensures flow { IfOk result (λ flow. (p : Program) (object : Datum) (held : List Datum)
            → Does p object (instr.MakeTuple size otherwise)
            (stack_at self.old.terms height) held flow self.new.terms held) }
        ensures within { IfOk result (λ flow. IsWithin flow (length self.old.terms)) }
        ensures count { length self.new.terms ≡ length self.old.terms }
    {
        let elements = self.take_terms(height, size)?;
        let tuple = made_value(make_tuple(*self.heap(), elements)?);
        Ok(self.push_or_jump(height - size, tuple, otherwise))
    }

    /// Replaces a head and a tail by the list of them, or jumps if it exceeds a limit of terms. Fails if an allocation
    /// fails.
    #[inline(always)]
    pub fn make_list(&mut self, height: u16, otherwise: u16) -> Result<Flow, AllocError>
        requires two { 2 ≤ height }
        requires within { height ≤ length self.old.terms }
        ensures flow { IfOk result (λ flow. (p : Program) (object : Datum) (held : List Datum)
            → Does p object (instr.MakeCons otherwise)
            (stack_at self.old.terms height) held flow self.new.terms held) }
        ensures within { IfOk result (λ flow. IsWithin flow (length self.old.terms)) }
        ensures count { length self.new.terms ≡ length self.old.terms }
    {
        let tail = self.pop(height);
        let head = self.pop(height - 1);
        let list = list_of(*self.heap(), head, tail)?;
        Ok(self.push_or_jump(height - 2, list, otherwise))
    }

    /// Replaces values by the map of the keys that a constant lists to these values, or jumps if it exceeds a limit of
    /// terms. Fails if an allocation fails.
    #[inline(always)]
    pub fn make_map(
        &mut self,
        code: &'a Code<A>,
        height: u16,
        keys: u16,
        otherwise: u16,
    ) -> Result<Flow, AllocError>
        requires within { height ≤ length self.old.terms }
        requires keys { IsSome (keys_in code.now.constants keys) }
        requires deep { IfSome (keys_in code.now.constants keys) (λ ks. length ks ≤ height) }
        requires room { IfSome (keys_in code.now.constants keys) (λ ks.
            height - length ks < length self.old.terms) }
        ensures flow { IfOk result (λ flow. DoesIn code.now.constants
            (instr.MakeMap keys otherwise) (stack_at self.old.terms height) flow self.new.terms) }
        ensures within { IfOk result (λ flow. IsWithin flow (length self.old.terms)) }
        ensures count { length self.new.terms ≡ length self.old.terms }
    {
        let keys = keys_of(*self.heap(), code, keys)?;
        let count = keys.len() as u16;
        let values = self.take_terms(height, count)?;
        let map = map_of(*self.heap(), keys, values)?;
        Ok(self.push_or_jump(height - count, map, otherwise))
    }
}
