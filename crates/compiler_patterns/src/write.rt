//! The lines of each kind of pattern.
ghost use Rattle.std.specs.Prelude.{◌≡◌, ◌<◌, ◌∷◌, length, OnOk};
ghost use Rattle.compiler_assembly.specs.Line.{plain};
ghost use Rattle.compiler_assembly.specs.declared.op.Op.TheVariants as op;
ghost use Rattle.compiler_assembly.specs.declared.op.Target.TheVariants as target;
ghost use Rattle.mspec_syntax.specs.Pattern.{patterns_of, fields_of, cells_of, pattern_variables, patterns_variables, fields_variables};
ghost use Rattle.mspec_syntax.specs.Pattern.Pattern.{tuple_of, map_of};
ghost use Rattle.mspec_syntax.specs.PatternView.{tail_pattern};
ghost use Rattle.compiler_patterns.specs.Written.{Writes};
ghost use Rattle.compiler_patterns.specs.Patterns.{pattern_lines, element_lines, field_lines, unless_anything};
ghost use Rattle.compiler_patterns.specs.Writable.{is_anything, IsWritable, AreWritable, AreFieldsWritable};

use crate::draft::Draft;
use crate::own::{all_spell, open_elements, own_list, own_tuple};
use crate::slots::VariableSlots;
use compiler_assembly::{Op, Target};
use mspec_syntax::{Pattern, PatternKind};
use std::alloc::{AllocError, Allocator};
use term_core::Term;

/// Returns whether the pattern is `'_'`.
pub(crate) fn is_anything<A: Allocator>(pattern: &Pattern<A>) -> bool
    ensures { result ≡ is_anything pattern.now }
{
    match pattern.kind() {
        PatternKind::Anything => true,
        PatternKind::Variable(_) => false,
        PatternKind::Literal(_) => false,
        PatternKind::Tuple(_) => false,
        PatternKind::List(_elements, _tail) => false,
        PatternKind::Map(_) => false,
    }
}

/// Appends the lines of a pattern to the draft. Fails if an allocation fails.
#[cycle(write)]
pub(crate) fn write_pattern<A: Allocator + Copy>(
    slots: &VariableSlots<A>,
    pattern: &Pattern<A>,
    draft: &mut Draft<A>,
) -> Result<(), AllocError>
    requires { IsWritable slots.now pattern.now }
    ensures { OnOk result (Writes slots.now (λ known. pattern_lines slots.now known pattern.now)
        (pattern_variables pattern.now) draft.old draft.new) }
{
    match pattern.kind() {
        PatternKind::Anything => draft.put(Op::Drop),
        PatternKind::Variable(number) => slots.write_variable(*number, draft),
        PatternKind::Literal(term) => draft.put_same(term.copy()?),
        PatternKind::Tuple(elements) => write_tuple(slots, elements.as_slice(), draft),
        PatternKind::List(elements, tail) => write_list(slots, elements.as_slice(), tail, draft),
        PatternKind::Map(fields) => write_map(slots, fields.as_slice(), draft),
    }
}

/// Appends the lines of a tuple to the draft. Fails if an allocation fails.
#[cycle(write)]
fn write_tuple<A: Allocator + Copy>(
    slots: &VariableSlots<A>,
    elements: &[Pattern<A>],
    draft: &mut Draft<A>,
) -> Result<(), AllocError>
    requires { IsWritable slots.now (tuple_of (patterns_of elements.now)) }
    ensures { OnOk result (Writes slots.now
        (λ known. pattern_lines slots.now known (tuple_of (patterns_of elements.now)))
        (patterns_variables (patterns_of elements.now)) draft.old draft.new) }
{
    if all_spell(elements) {
        let term = own_tuple(slots.alloc(), elements)?;
        return draft.put_same(term);
    }
    let count = elements.len() as u16;
    draft.put(Op::Tuple(count, Target::Failing))?;
    write_elements(slots, elements, draft)?;
    draft.put(Op::Drop)
}

/// Appends the lines of a tuple's elements to the draft; the tuple stays on the stack. Fails if an allocation fails.
#[cycle(write)]
fn write_elements<A: Allocator + Copy>(
    slots: &VariableSlots<A>,
    elements: &[Pattern<A>],
    draft: &mut Draft<A>,
) -> Result<(), AllocError>
    requires { AreWritable slots.now (patterns_of elements.now) }
    ensures { OnOk result (Writes slots.now
        (λ known. element_lines slots.now known 1 (patterns_of elements.now))
        (patterns_variables (patterns_of elements.now)) draft.old draft.new) }
{
    for place in 0..elements.len() {
        write_element(slots, place as u16 + 1, &elements[place], draft)?;
    }
    Ok(())
}

/// Appends the lines of a tuple's element with this number to the draft, none for `'_'`; the tuple stays on the stack.
/// Fails if an allocation fails.
#[cycle(write)]
fn write_element<A: Allocator + Copy>(
    slots: &VariableSlots<A>,
    number: u16,
    element: &Pattern<A>,
    draft: &mut Draft<A>,
) -> Result<(), AllocError>
    requires { IsWritable slots.now element.now }
    ensures { OnOk result (Writes slots.now
        (λ known. unless_anything element.now (plain op.Dup ∷ plain (op.Field number)
        ∷ pattern_lines slots.now known element.now))
        (pattern_variables element.now) draft.old draft.new) }
{
    if is_anything(element) {
        return Ok(());
    }
    draft.put(Op::Dup)?;
    draft.put(Op::Field(number))?;
    write_pattern(slots, element, draft)
}

/// Appends the lines of a list to the draft: those of the elements before the longest rest that spells a term, and
/// those of this rest. Fails if an allocation fails.
#[cycle(write)]
fn write_list<A: Allocator + Copy>(
    slots: &VariableSlots<A>,
    elements: &[Pattern<A>],
    tail: &Option<Box<Pattern<A>, A>>,
    draft: &mut Draft<A>,
) -> Result<(), AllocError>
    requires elements { 0 < length elements.now }
    requires written { IsWritable slots.now (cells_of elements.now (tail_pattern tail.now)) }
    ensures { OnOk result (Writes slots.now
        (λ known. pattern_lines slots.now known (cells_of elements.now (tail_pattern tail.now)))
        (pattern_variables (cells_of elements.now (tail_pattern tail.now)))
        draft.old draft.new) }
{
    let open = open_elements(elements, tail);
    for place in 0..open {
        write_cell(slots, &elements[place], draft)?;
        draft.put(Op::Tail)?;
    }
    if open < elements.len() {
        let term = own_list(slots.alloc(), &elements[open..], tail)?;
        return draft.put_same(term);
    }
    write_tail(slots, tail, draft)
}

/// Appends the lines of a list's head to the draft; the list stays on the stack. Fails if an allocation fails.
#[cycle(write)]
fn write_cell<A: Allocator + Copy>(
    slots: &VariableSlots<A>,
    head: &Pattern<A>,
    draft: &mut Draft<A>,
) -> Result<(), AllocError>
    requires { IsWritable slots.now head.now }
    ensures { OnOk result (Writes slots.now
        (λ known. plain (op.Cons target.Failing) ∷ plain op.Dup ∷ plain op.Head
        ∷ pattern_lines slots.now known head.now)
        (pattern_variables head.now) draft.old draft.new) }
{
    draft.put(Op::Cons(Target::Failing))?;
    draft.put(Op::Dup)?;
    draft.put(Op::Head)?;
    write_pattern(slots, head, draft)
}

/// Appends the lines of a list's tail to the draft; without a tail it is `[]`. Fails if an allocation fails.
#[cycle(write)]
fn write_tail<A: Allocator + Copy>(
    slots: &VariableSlots<A>,
    tail: &Option<Box<Pattern<A>, A>>,
    draft: &mut Draft<A>,
) -> Result<(), AllocError>
    requires { IsWritable slots.now (tail_pattern tail.now) }
    ensures { OnOk result (Writes slots.now
        (λ known. pattern_lines slots.now known (tail_pattern tail.now))
        (pattern_variables (tail_pattern tail.now)) draft.old draft.new) }
{
    match tail {
        None => draft.put_same(Term::nil()),
        Some(tail) => write_pattern(slots, tail, draft),
    }
}

/// Appends the lines of a map to the draft. Fails if an allocation fails.
#[cycle(write)]
fn write_map<A: Allocator + Copy>(
    slots: &VariableSlots<A>,
    fields: &[(Term<A>, Pattern<A>)],
    draft: &mut Draft<A>,
) -> Result<(), AllocError>
    requires { AreFieldsWritable slots.now (fields_of fields.now) }
    ensures { OnOk result (Writes slots.now
        (λ known. pattern_lines slots.now known (map_of (fields_of fields.now)))
        (fields_variables (fields_of fields.now)) draft.old draft.new) }
{
    draft.put(Op::Map(Target::Failing))?;
    write_fields(slots, fields, draft)?;
    draft.put(Op::Drop)
}

/// Appends the lines of the values of a map's keys to the draft; the map stays on the stack. Fails if an allocation
/// fails.
#[cycle(write)]
fn write_fields<A: Allocator + Copy>(
    slots: &VariableSlots<A>,
    fields: &[(Term<A>, Pattern<A>)],
    draft: &mut Draft<A>,
) -> Result<(), AllocError>
    requires { AreFieldsWritable slots.now (fields_of fields.now) }
    ensures { OnOk result (Writes slots.now
        (λ known. field_lines slots.now known (fields_of fields.now))
        (fields_variables (fields_of fields.now)) draft.old draft.new) }
{
    for place in 0..fields.len() {
        let (key, value) = &fields[place];
        write_field(slots, key, value, draft)?;
    }
    Ok(())
}

/// Appends the lines of the value of a map's key to the draft; the map stays on the stack. Fails if an allocation
/// fails.
#[cycle(write)]
fn write_field<A: Allocator + Copy>(
    slots: &VariableSlots<A>,
    key: &Term<A>,
    value: &Pattern<A>,
    draft: &mut Draft<A>,
) -> Result<(), AllocError>
    requires { IsWritable slots.now value.now }
    ensures { OnOk result (Writes slots.now
        (λ known. plain op.Dup ∷ plain (op.Value key.now target.Failing)
        ∷ pattern_lines slots.now known value.now)
        (pattern_variables value.now) draft.old draft.new) }
{
    draft.put(Op::Dup)?;
    draft.put(Op::Value(key.copy()?, Target::Failing))?;
    write_pattern(slots, value, draft)
}
