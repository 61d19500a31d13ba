//! Reading terms.
ghost use Rattle.std.specs.Prelude.{◌≡◌, true, [], ◌∷◌, ◌^◌, ◌++◌, ◌-◌, ◌<◌, ◌≤◌, drop, length, take, IfOk, IfSome, MatchResult, OnOk, Ok, option_map};
ghost use Rattle.std.specs.Prelude.{map as each};
ghost use Rattle.term_core.specs.Datum.{cells, items_of, entries_of};
ghost use Rattle.std.specs.Str.{chars};
ghost use Rattle.term_core.specs.Datum.Datum.{tuple, nil};
ghost use Rattle.term_core.specs.MapPairs.{AreRising};
ghost use Rattle.term_text.specs.Text.{code_point};
ghost use Rattle.term_text.specs.TokenReading.{Gives, Fails, all_steps};
ghost use Rattle.term_text.specs.Stack.{pushed, pushed_next};
ghost use Rattle.term_text.specs.Reading.{IsWithin, AreElements, string_marks, enter, elements_at, pairs_from, term_at, tail_at, tuple_at, list_at, list_end, string_at, form_at, pair_at, map_at, separated, integer_term_at, word_term_at, quoted_atom_at, binary_at, sentence_at, next_at, text_at};

use crate::characters::{is_empty, split_ascii};
use crate::leaf::{binary, integer_term, plain_integer, quoted_atom, short_word, word_term};
use crate::pairs::{Pairs, Tree, in_order, in_tree, map_of, place_of};
use crate::scratch::{Scratch, Stack};
use crate::stop::{Cause, Stop};
use crate::token::{
    Marks, Opening, after_comma, after_gap, begin, behind, dot, expect, expect_both, quoted, stop,
};
use std::alloc::{AllocError, Allocator};
use term_core::{MAX_DEPTH, MAX_LIST, MAX_MAP, MAX_TUPLE, Term};

/// The largest number of pairs of a map that is read without a tree.
const FEW_PAIRS: usize = 16;

/// Reads how a term begins, where one has to begin. Stops with a fault if none begins, or if no nesting level is left
/// (`levels`), or no room for one more term (`room`).
#[tactic(auto, unfolding(crate::specs::Reading::enter))]
#[inline(always)]
fn enter(levels: u8, room: usize, text: &str) -> Result<(Opening, &str), Stop>
    ensures value { Gives (λ o. (o.0, chars o.1.now)) result (enter levels room (chars text.now)) }
    ensures left { OnOk result (0 < levels) }
{
    let Some((opening, rest)) = begin(text) else {
        return Err(stop(Cause::Syntax, text));
    };
    if levels == 0 {
        return Err(stop(Cause::TooDeep, text));
    }
    if room == 0 {
        return Err(stop(Cause::TooLong, text));
    }
    Ok((opening, rest))
}

/// Replaces the terms of the stack from an index on by the tuple of them, which is within the limits.
#[inline(always)]
fn put_tuple<A: Allocator + Copy>(alloc: A, stack: &mut Stack<A>, base: usize) -> Result<(), Stop>
    requires base { base ≤ length stack.old.items }
    requires within { IsWithin (tuple (items_of (drop base stack.old.items))) }
    ensures { Gives (λ _. stack.new.items) result
        (Ok (take base stack.old.items ++ tuple (items_of (drop base stack.old.items)) ∷ [])) }
{
    match Term::tuple_of_last(alloc, stack, base) {
        Ok(tuple) => {
            stack.push(tuple)?;
            Ok(())
        }
        Err(fault) => Err(Stop::from(fault.alloc_error())),
    }
}

/// Pushes the tuple without elements.
#[inline(never)]
fn put_empty_tuple<A: Allocator + Copy>(alloc: A, stack: &mut Stack<A>) -> Result<(), Stop>
    ensures { Gives (λ _. stack.new.items) result (Ok (stack.old.items ++ tuple (items_of []) ∷ [])) }
{
    match Term::tuple(alloc, Vec::new(alloc)) {
        Ok(tuple) => {
            stack.push(tuple)?;
            Ok(())
        }
        Err(refused) => Err(Stop::from(refused.fault.alloc_error())),
    }
}

/// Replaces the terms of the stack from an index on by the list of them, which is within the limits.
#[inline(always)]
fn put_list<A: Allocator + Copy>(alloc: A, stack: &mut Stack<A>, base: usize) -> Result<(), Stop>
    requires base { base ≤ length stack.old.items }
    requires within { IsWithin (cells (drop base stack.old.items) nil) }
    ensures { Gives (λ _. stack.new.items) result
        (Ok (take base stack.old.items ++ cells (drop base stack.old.items) nil ∷ [])) }
{
    match Term::list_of_last(alloc, stack, base) {
        Ok(list) => {
            stack.push(list)?;
            Ok(())
        }
        Err(fault) => Err(Stop::from(fault.alloc_error())),
    }
}

/// Does the same where it is seldom done, by a call, so that callers stay short.
#[inline(never)]
fn put_rare_list<A: Allocator + Copy>(
    alloc: A,
    stack: &mut Stack<A>,
    base: usize,
) -> Result<(), Stop>
    requires base { base ≤ length stack.old.items }
    requires within { IsWithin (cells (drop base stack.old.items) nil) }
    ensures { Gives (λ _. stack.new.items) result
        (Ok (take base stack.old.items ++ cells (drop base stack.old.items) nil ∷ [])) }
{
    put_list(alloc, stack, base)
}

/// Replaces the terms of the stack from an index on by the list of them with this tail, which is within the limits.
#[inline(never)]
fn put_list_with_tail<A: Allocator + Copy>(
    alloc: A,
    stack: &mut Stack<A>,
    base: usize,
    tail: Term<A>,
) -> Result<(), Stop>
    requires base { base ≤ length stack.old.items }
    requires within { IsWithin (cells (drop base stack.old.items) tail) }
    ensures { Gives (λ _. stack.new.items) result
        (Ok (take base stack.old.items ++ cells (drop base stack.old.items) tail ∷ [])) }
{
    let elements = stack.split_off(base)?;
    match Term::list(alloc, elements, Some(tail)) {
        Ok(list) => {
            stack.push(list)?;
            Ok(())
        }
        Err(refused) => Err(Stop::from(refused.fault.alloc_error())),
    }
}

/// Reads an integer and pushes it.
#[inline(never)]
fn put_integer<'t, A: Allocator>(stack: &mut Stack<A>, text: &'t str) -> Result<&'t str, Stop>
    ensures { Gives (λ rest. (stack.new.items, chars rest.now)) result
        (pushed stack.old.items (integer_term_at (chars text.now))) }
{
    let (term, rest) = integer_term(text)?;
    stack.push(term)?;
    Ok(rest)
}

/// Reads a bare word and pushes it.
#[inline(never)]
fn put_word<'t, A: Allocator + Copy>(
    alloc: A,
    stack: &mut Stack<A>,
    text: &'t str,
) -> Result<&'t str, Stop>
    ensures { Gives (λ rest. (stack.new.items, chars rest.now)) result
        (pushed stack.old.items (word_term_at (chars text.now))) }
{
    let (term, rest) = word_term(alloc, text)?;
    stack.push(term)?;
    Ok(rest)
}

/// Reads a quoted atom, after its opening mark, and pushes it.
#[inline(never)]
fn put_quoted_atom<'t, A: Allocator + Copy>(
    alloc: A,
    stack: &mut Stack<A>,
    text: &'t str,
) -> Result<&'t str, Stop>
    ensures { Gives (λ rest. (stack.new.items, chars rest.now)) result
        (pushed stack.old.items (quoted_atom_at (chars text.now))) }
{
    let (term, rest) = quoted_atom(alloc, text)?;
    stack.push(term)?;
    Ok(rest)
}

/// Reads a binary, after its opening, and pushes it.
#[inline(never)]
fn put_binary<'t, A: Allocator + Copy>(
    alloc: A,
    stack: &mut Stack<A>,
    text: &'t str,
) -> Result<&'t str, Stop>
    ensures { Gives (λ rest. (stack.new.items, chars rest.now)) result
        (pushed stack.old.items (binary_at (chars text.now))) }
{
    let (term, rest) = binary(alloc, text)?;
    stack.push(term)?;
    Ok(rest)
}

/// Reads a string, after its opening mark, that continues the list of the terms of the stack from an index on, and
/// replaces them by the list. Its characters have `levels` nesting levels left.
#[tactic(auto, unfolding(crate::specs::Reading::string_at))]
#[inline(never)]
fn string<'t, A: Allocator + Copy>(
    alloc: A,
    stack: &mut Stack<A>,
    base: usize,
    levels: u8,
    text: &'t str,
) -> Result<&'t str, Stop>
    requires base { base ≤ length stack.old.items }
    requires elements { AreElements (drop base stack.old.items) }
    ensures { Gives (λ rest. (stack.new.items, chars rest.now)) result
        (pushed (take base stack.old.items) (string_at levels (drop base stack.old.items) (chars text.now))) }
{
    let marks = string_marks(levels, stack.len() - base);
    let (characters, rest) = quoted(alloc, marks, text)?;
    put_characters(stack, characters.as_slice())?;
    put_rare_list(alloc, stack, base)?;
    Ok(rest)
}

/// Returns how a string is read that continues a list of `before` elements, and whose characters have `levels` levels
/// left.
fn string_marks(levels: u8, before: usize) -> Marks
    requires { before < 2 ^ 64 }
    ensures { result ≡ string_marks levels before }
{
    let (room, past) = if levels == 0 {
        (0, Cause::TooDeep)
    } else {
        (MAX_LIST.saturating_sub(before), Cause::TooLong)
    };
    Marks {
        mark: '"',
        room,
        past,
        only_bytes: false,
    }
}

/// Pushes the characters as integers.
fn put_characters<A: Allocator>(stack: &mut Stack<A>, characters: &[char]) -> Result<(), AllocError>
    ensures { OnOk result (stack.new.items ≡ stack.old.items ++ each code_point characters.now) }
{
    for character in characters {
        stack.push(Term::int(i64::from(*character as u32)))?;
    }
    Ok(())
}

/// Reads a term from the text after its opening, and pushes it. Its parts have `levels` nesting levels left.
#[cycle(term)]
#[inline(always)]
fn form<'t, A: Allocator + Copy>(
    alloc: A,
    stack: &mut Stack<A>,
    levels: u8,
    opening: Opening,
    text: &'t str,
) -> Result<&'t str, Stop>
    requires { levels < MAX_DEPTH }
    ensures { Gives (λ rest. (stack.new.items, chars rest.now)) result
        (pushed stack.old.items (form_at (term_at levels) (tail_at levels) levels opening (chars text.now))) }
{
    match opening {
        Opening::Integer => put_integer(stack, text),
        Opening::Word => put_word(alloc, stack, text),
        Opening::QuotedAtom => put_quoted_atom(alloc, stack, text),
        Opening::String => {
            let base = stack.len();
            string(alloc, stack, base, levels, text)
        }
        Opening::Tuple => tuple(alloc, stack, levels, text),
        Opening::List => list(alloc, stack, levels, text),
        Opening::Map => map(alloc, stack, levels, text),
        Opening::Binary => put_binary(alloc, stack, text),
    }
}

/// Reads an integer without a sign or a short word, neither of which needs an allocation. Returns `None` if there is
/// neither, or no level or room is left.
#[tactic(auto, using(crate::proofs::Short::plain_word, crate::proofs::Short::plain_integer, crate::proofs::Short::begun))]
#[inline(always)]
fn plain<A: Allocator + Copy>(
    alloc: A,
    levels: u8,
    room: usize,
    text: &str,
) -> Option<(Term<A>, &str)>
    ensures { IfSome result (λ x. term_at levels room (chars text.now) ≡ Ok (x.0, chars x.1.now)) }
{
    if levels == 0 {
        return None;
    }
    if room == 0 {
        return None;
    }
    let (first, _rest) = split_ascii(text)?;
    if first.is_ascii_digit() {
        return plain_integer(text);
    }
    if first.is_ascii_lowercase() {
        return short_word(alloc, text);
    }
    None
}

/// Returns the text after an opening brace. Returns `None` if no tuple begins, or no level or room is left.
#[tactic(auto, using(crate::proofs::Short::begins_tuple))]
#[inline(always)]
fn brace(levels: u8, room: usize, text: &str) -> Option<&str>
    ensures levels { IfSome result (λ _. 0 < levels) }
    ensures rest { IfSome result (λ rest. term_at levels room (chars text.now)
        ≡ tuple_at (term_at (levels - 1)) (chars rest.now)) }
{
    if levels == 0 {
        return None;
    }
    if room == 0 {
        return None;
    }
    behind('{', text)
}

/// Reads a term, with `levels` nesting levels left for it and room for `room` terms, and pushes it.
#[cycle(term)]
#[inline(always)]
fn term<'t, A: Allocator + Copy>(
    alloc: A,
    stack: &mut Stack<A>,
    levels: u8,
    room: usize,
    text: &'t str,
) -> Result<&'t str, Stop>
    ensures { Gives (λ rest. (stack.new.items, chars rest.now)) result
        (pushed stack.old.items (term_at levels room (chars text.now))) }
{
    match plain(alloc, levels, room, text) {
        Some((found, rest)) => {
            stack.push(found)?;
            Ok(rest)
        }
        None => any_term(alloc, stack, levels, room, text),
    }
}

/// Reads a term of any kind, with `levels` nesting levels left for it and room for `room` terms, and pushes it.
#[cycle(term)]
#[inline(never)]
fn any_term<'t, A: Allocator + Copy>(
    alloc: A,
    stack: &mut Stack<A>,
    levels: u8,
    room: usize,
    text: &'t str,
) -> Result<&'t str, Stop>
    ensures { Gives (λ rest. (stack.new.items, chars rest.now)) result
        (pushed stack.old.items (term_at levels room (chars text.now))) }
{
    if let Some(rest) = brace(levels, room, text) {
        return tuple(alloc, stack, levels - 1, rest);
    }
    let (opening, rest) = enter(levels, room, text)?;
    form(alloc, stack, levels - 1, opening, rest)
}

/// Reads a term, with `levels` nesting levels left for it and room for `room` terms, and returns it. The stack is as
/// before.
#[cycle(term)]
#[inline(always)]
fn one_term<'t, A: Allocator + Copy>(
    alloc: A,
    stack: &mut Stack<A>,
    levels: u8,
    room: usize,
    text: &'t str,
) -> Result<(Term<A>, &'t str), Stop>
    ensures value { Gives (λ x. (x.0, chars x.1.now)) result (term_at levels room (chars text.now)) }
    ensures stack { OnOk result (stack.new.items ≡ stack.old.items) }
{
    match plain(alloc, levels, room, text) {
        Some(found) => Ok(found),
        None => {
            let rest = any_term(alloc, stack, levels, room, text)?;
            Ok((stack.take_last(), rest))
        }
    }
}

/// Reads the tail of a list, and replaces the terms of the stack from an index on by the list of them and that tail.
#[cycle(term)]
#[inline(never)]
fn tail<'t, A: Allocator + Copy>(
    alloc: A,
    stack: &mut Stack<A>,
    base: usize,
    levels: u8,
    text: &'t str,
) -> Result<&'t str, Stop>
    requires levels { levels < MAX_DEPTH }
    requires base { base ≤ length stack.old.items }
    requires elements { AreElements (drop base stack.old.items) }
    ensures { Gives (λ rest. (stack.new.items, chars rest.now)) result
        (pushed (take base stack.old.items) (tail_at levels (drop base stack.old.items) (chars text.now))) }
{
    let (opening, rest) = enter(levels, 1, text)?;
    match opening {
        Opening::String => string(alloc, stack, base, levels - 1, rest),
        Opening::List => more_of_list(alloc, stack, base, levels - 1, rest),
        _ => {
            let rest = form(alloc, stack, levels - 1, opening, rest)?;
            let tail = stack.take_last();
            put_list_with_tail(alloc, stack, base, tail)?;
            Ok(rest)
        }
    }
}

/// Reads one or more terms separated by commas, and pushes them. They continue the terms of the stack from an index on.
/// Returns the text after them and the gap.
#[cycle(term)]
#[inline(always)]
fn elements<'t, A: Allocator + Copy>(
    alloc: A,
    stack: &mut Stack<A>,
    base: usize,
    levels: u8,
    limit: usize,
    text: &'t str,
) -> Result<&'t str, Stop>
    requires base { base ≤ length stack.old.items }
    ensures value { Gives (λ rest. (drop base stack.new.items, chars rest.now)) result
        (elements_at (term_at levels) limit (drop base stack.old.items) (chars text.now)) }
    ensures front { OnOk result (take base stack.new.items ≡ take base stack.old.items) }
    ensures base { OnOk result (base ≤ length stack.new.items) }
{
    let mut rest = text;
    loop {
        let room = limit.saturating_sub(stack.len() - base);
        let after = term(alloc, stack, levels, room, rest)?;
        let (goes_on, after) = after_comma(after);
        rest = after;
        if !goes_on {
            return Ok(rest);
        }
    }
}

/// Reads a tuple, after its opening, and pushes it.
#[cycle(term)]
#[tactic(auto, unfolding(crate::specs::Reading::tuple_at))]
#[inline(never)]
fn tuple<'t, A: Allocator + Copy>(
    alloc: A,
    stack: &mut Stack<A>,
    levels: u8,
    text: &'t str,
) -> Result<&'t str, Stop>
    requires { levels < MAX_DEPTH }
    ensures { Gives (λ rest. (stack.new.items, chars rest.now)) result
        (pushed stack.old.items (tuple_at (term_at levels) (chars text.now))) }
{
    let text = after_gap(text);
    if let Some(rest) = behind('}', text) {
        put_empty_tuple(alloc, stack)?;
        return Ok(rest);
    }
    let base = stack.len();
    let after = elements(alloc, stack, base, levels, MAX_TUPLE, text)?;
    let rest = expect('}', after)?;
    put_tuple(alloc, stack, base)?;
    Ok(rest)
}

/// Reads a list, after its opening, and pushes it.
#[cycle(term)]
#[inline(always)]
fn list<'t, A: Allocator + Copy>(
    alloc: A,
    stack: &mut Stack<A>,
    levels: u8,
    text: &'t str,
) -> Result<&'t str, Stop>
    requires { levels < MAX_DEPTH }
    ensures { Gives (λ rest. (stack.new.items, chars rest.now)) result
        (pushed stack.old.items (list_at (term_at levels) (tail_at levels) [] (chars text.now))) }
{
    let base = stack.len();
    more_of_list(alloc, stack, base, levels, text)
}

/// Reads the rest of a list that begins with the terms of the stack from an index on, after the opening bracket of the list
/// or of its tail, and replaces them by the list.
#[cycle(term)]
#[tactic(auto, unfolding(crate::specs::Reading::list_at))]
#[inline(never)]
fn more_of_list<'t, A: Allocator + Copy>(
    alloc: A,
    stack: &mut Stack<A>,
    base: usize,
    levels: u8,
    text: &'t str,
) -> Result<&'t str, Stop>
    requires levels { levels < MAX_DEPTH }
    requires base { base ≤ length stack.old.items }
    requires elements { AreElements (drop base stack.old.items) }
    ensures { Gives (λ rest. (stack.new.items, chars rest.now)) result
        (pushed (take base stack.old.items) (list_at (term_at levels) (tail_at levels) (drop base stack.old.items) (chars text.now))) }
{
    let text = after_gap(text);
    if let Some(rest) = behind(']', text) {
        put_rare_list(alloc, stack, base)?;
        return Ok(rest);
    }
    let after = elements(alloc, stack, base, levels, MAX_LIST, text)?;
    list_end(alloc, stack, base, levels, after)
}

/// Reads the end of a list after its elements: a bar and a tail, if any, and the closing bracket. Replaces the terms of the
/// stack from an index on by the list. A list without a tail is read by fewer calls.
#[cycle(term)]
#[inline(always)]
fn list_end<'t, A: Allocator + Copy>(
    alloc: A,
    stack: &mut Stack<A>,
    base: usize,
    levels: u8,
    text: &'t str,
) -> Result<&'t str, Stop>
    requires levels { levels < MAX_DEPTH }
    requires base { base ≤ length stack.old.items }
    requires elements { AreElements (drop base stack.old.items) }
    ensures { Gives (λ rest. (stack.new.items, chars rest.now)) result
        (pushed (take base stack.old.items) (list_end (tail_at levels) (drop base stack.old.items) (chars text.now))) }
{
    match behind(']', text) {
        Some(rest) => {
            put_list(alloc, stack, base)?;
            Ok(rest)
        }
        None => tail_end(alloc, stack, base, levels, text),
    }
}

/// Reads the end of a list after its elements, as `list_end` does, with any tail.
#[cycle(term)]
#[tactic(auto, unfolding(crate::specs::Reading::list_end))]
#[inline(never)]
fn tail_end<'t, A: Allocator + Copy>(
    alloc: A,
    stack: &mut Stack<A>,
    base: usize,
    levels: u8,
    text: &'t str,
) -> Result<&'t str, Stop>
    requires levels { levels < MAX_DEPTH }
    requires base { base ≤ length stack.old.items }
    requires elements { AreElements (drop base stack.old.items) }
    ensures { Gives (λ rest. (stack.new.items, chars rest.now)) result
        (pushed (take base stack.old.items) (list_end (tail_at levels) (drop base stack.old.items) (chars text.now))) }
{
    if let Some(rest) = behind('|', text) {
        let rest = tail(alloc, stack, base, levels, after_gap(rest))?;
        return expect(']', after_gap(rest));
    }
    let rest = expect(']', text)?;
    put_rare_list(alloc, stack, base)?;
    Ok(rest)
}

/// Reads one more pair and adds it to these, which are few. The stack is as before.
#[cycle(term)]
#[tactic(auto, unfolding(crate::specs::Reading::pair_at))]
#[inline(always)]
fn few_pair<'t, A: Allocator + Copy>(
    alloc: A,
    stack: &mut Stack<A>,
    levels: u8,
    few: &mut Pairs<A>,
    start: &'t str,
) -> Result<&'t str, Stop>
    requires { AreRising (entries_of few.old.items) }
    ensures value { Gives (λ rest. (few.new.items, chars rest.now)) result
        (pair_at (term_at levels) few.old.items (chars start.now)) }
    ensures rising { OnOk result (AreRising (entries_of few.new.items)) }
    ensures stack { OnOk result (stack.new.items ≡ stack.old.items) }
{
    let room = MAX_MAP.saturating_sub(few.len());
    let (key, rest) = one_term(alloc, stack, levels, room, start)?;
    let Some(place) = place_of(few.as_slice(), &key) else {
        return Err(stop(Cause::DuplicateKey, start));
    };
    let rest = expect_both('=', '>', after_gap(rest))?;
    let (value, rest) = one_term(alloc, stack, levels, 1, after_gap(rest))?;
    few.insert(place, (key, value))?;
    Ok(rest)
}

/// Reads one to sixteen pairs separated by commas and adds them to none. Returns whether more follow, and the text after
/// them and the comma or the gap. The stack is as before.
#[cycle(term)]
#[inline(always)]
fn few_pairs<'t, A: Allocator + Copy>(
    alloc: A,
    stack: &mut Stack<A>,
    levels: u8,
    few: &mut Pairs<A>,
    text: &'t str,
) -> Result<(bool, &'t str), Stop>
    requires { few.old.items ≡ [] }
    ensures value { MatchResult result
        (λ x. pairs_from (term_at levels) x.0 few.new.items (chars x.1.now)
        ≡ all_steps (separated (pair_at (term_at levels))) [] (chars text.now))
        (λ stop. Fails stop (all_steps (separated (pair_at (term_at levels))) [] (chars text.now))) }
    ensures rising { OnOk result (AreRising (entries_of few.new.items)) }
    ensures stack { OnOk result (stack.new.items ≡ stack.old.items) }
{
    let mut rest = text;
    let mut goes_on = true;
    for _read in 0..FEW_PAIRS {
        if !goes_on {
            return Ok((false, rest));
        }
        let after = few_pair(alloc, stack, levels, few, rest)?;
        (goes_on, rest) = after_comma(after);
    }
    Ok((goes_on, rest))
}

/// Reads one more pair and adds it to these. The stack is as before.
#[cycle(term)]
#[tactic(auto, unfolding(crate::specs::Reading::pair_at))]
fn pair<'t, A: Allocator + Copy>(
    alloc: A,
    stack: &mut Stack<A>,
    levels: u8,
    pairs: Tree<A>,
    text: &'t str,
) -> Result<(Tree<A>, &'t str), Stop>
    ensures value { Gives (λ x. (x.0.entries, chars x.1.now)) result
        (pair_at (term_at levels) pairs.entries (chars text.now)) }
    ensures stack { OnOk result (stack.new.items ≡ stack.old.items) }
{
    let mut pairs = pairs;
    let room = MAX_MAP.saturating_sub(pairs.len());
    let (key, rest) = one_term(alloc, stack, levels, room, text)?;
    if pairs.contains_key(&key) {
        return Err(stop(Cause::DuplicateKey, text));
    }
    let rest = expect_both('=', '>', after_gap(rest))?;
    let (value, rest) = one_term(alloc, stack, levels, 1, after_gap(rest))?;
    pairs.insert(key, value)?;
    Ok((pairs, rest))
}

/// Reads one or more pairs separated by commas and adds them to these. Returns them and the text after them and the gap.
/// The stack is as before.
#[cycle(term)]
#[inline(never)]
fn more_pairs<'t, A: Allocator + Copy>(
    alloc: A,
    stack: &mut Stack<A>,
    levels: u8,
    pairs: Tree<A>,
    text: &'t str,
) -> Result<(Tree<A>, &'t str), Stop>
    ensures value { Gives (λ x. (x.0.entries, chars x.1.now)) result
        (all_steps (separated (pair_at (term_at levels))) pairs.entries (chars text.now)) }
    ensures stack { OnOk result (stack.new.items ≡ stack.old.items) }
{
    let mut pairs = pairs;
    let mut rest = text;
    loop {
        let (more, after) = pair(alloc, stack, levels, pairs, rest)?;
        pairs = more;
        let (goes_on, after) = after_comma(after);
        rest = after;
        if !goes_on {
            return Ok((pairs, rest));
        }
    }
}

/// Reads one or more pairs separated by commas. Returns them in ascending key order, and the text after them and the
/// gap. The stack is as before.
#[cycle(term)]
#[inline(always)]
fn pairs<'t, A: Allocator + Copy>(
    alloc: A,
    stack: &mut Stack<A>,
    levels: u8,
    text: &'t str,
) -> Result<(Pairs<A>, &'t str), Stop>
    ensures value { Gives (λ x. (x.0.items, chars x.1.now)) result
        (all_steps (separated (pair_at (term_at levels))) [] (chars text.now)) }
    ensures rising { IfOk result (λ x. AreRising (entries_of x.0.items)) }
    ensures stack { OnOk result (stack.new.items ≡ stack.old.items) }
{
    let mut few = Vec::new(alloc);
    let (goes_on, rest) = few_pairs(alloc, stack, levels, &mut few, text)?;
    if !goes_on {
        return Ok((few, rest));
    }
    let many = in_tree(alloc, few)?;
    let (more, rest) = more_pairs(alloc, stack, levels, many, rest)?;
    Ok((in_order(alloc, more)?, rest))
}

/// Reads a map, after its opening, and pushes it.
#[cycle(term)]
#[tactic(auto, unfolding(crate::specs::Reading::map_at))]
#[inline(never)]
fn map<'t, A: Allocator + Copy>(
    alloc: A,
    stack: &mut Stack<A>,
    levels: u8,
    text: &'t str,
) -> Result<&'t str, Stop>
    requires { levels < MAX_DEPTH }
    ensures { Gives (λ rest. (stack.new.items, chars rest.now)) result
        (pushed stack.old.items (map_at (term_at levels) (chars text.now))) }
{
    let text = after_gap(text);
    if let Some(rest) = behind('}', text) {
        stack.push(map_of(alloc, Vec::new(alloc))?)?;
        return Ok(rest);
    }
    let (pairs, rest) = pairs(alloc, stack, levels, text)?;
    let rest = expect('}', rest)?;
    stack.push(map_of(alloc, pairs)?)?;
    Ok(rest)
}

/// Reads a term that stands in no other term, and pushes it. A tuple is read by fewer calls than another term.
#[inline(always)]
fn outermost<'t, A: Allocator + Copy>(
    alloc: A,
    stack: &mut Stack<A>,
    text: &'t str,
) -> Result<&'t str, Stop>
    ensures { Gives (λ rest. (stack.new.items, chars rest.now)) result
        (pushed stack.old.items (term_at MAX_DEPTH 1 (chars text.now))) }
{
    match brace(MAX_DEPTH, 1, text) {
        Some(rest) => tuple(alloc, stack, MAX_DEPTH - 1, rest),
        None => any_term(alloc, stack, MAX_DEPTH, 1, text),
    }
}

/// Reads a term and its dot, and pushes the term.
#[tactic(auto, unfolding(crate::specs::Reading::sentence_at))]
#[inline(always)]
fn sentence<'t, A: Allocator + Copy>(
    alloc: A,
    stack: &mut Stack<A>,
    text: &'t str,
) -> Result<&'t str, Stop>
    ensures { Gives (λ rest. (stack.new.items, chars rest.now)) result
        (pushed stack.old.items (sentence_at (chars text.now))) }
{
    let rest = outermost(alloc, stack, text)?;
    dot(after_gap(rest))
}

/// Reads the next term of a text, and pushes it. Returns the text after its dot, or `None` if only a gap remains.
#[tactic(auto, using(crate::proofs::Stacks::next_push_fails, crate::proofs::Stacks::next_pushed, crate::proofs::Stacks::next_none_pushed))]
#[inline(always)]
fn put_next<'t, A: Allocator + Copy>(
    alloc: A,
    stack: &mut Stack<A>,
    text: &'t str,
) -> Result<Option<&'t str>, Stop>
    ensures { Gives (λ next. (stack.new.items, option_map (λ rest. chars rest.now) next)) result
        (pushed_next stack.old.items (next_at (chars text.now))) }
{
    let begin = after_gap(text);
    if is_empty(begin) {
        return Ok(None);
    }
    let rest = sentence(alloc, stack, begin)?;
    Ok(Some(rest))
}

/// Reads the next term of a text. Returns it and the text after its dot, or `None` if only a gap remains. The scratch
/// holds what it held before, and after a fault nothing.
pub fn next<'t, A: Allocator + Copy>(
    alloc: A,
    scratch: &mut Scratch<A>,
    text: &'t str,
) -> Result<Option<(Term<A>, &'t str)>, Stop>
    ensures value { Gives (option_map (λ x. (x.0, chars x.1.now))) result (next_at (chars text.now)) }
    ensures scratch { MatchResult result
        (λ _. scratch.new.terms.items ≡ scratch.old.terms.items)
        (λ _. scratch.new.terms.items ≡ []) }
{
    match put_next(alloc, &mut scratch.terms, text) {
        Ok(Some(rest)) => Ok(Some((scratch.terms.take_last(), rest))),
        Ok(None) => Ok(None),
        Err(stop) => {
            scratch.terms.clear();
            Err(stop)
        }
    }
}

/// Reads all terms of a text, each followed by a dot.
pub fn terms<A: Allocator + Copy>(alloc: A, text: &str) -> Result<Vec<Term<A>, A>, Stop>
    ensures { Gives (λ v. v.items) result (text_at (chars text.now)) }
{
    let mut terms = Vec::new(alloc);
    let mut rest = text;
    loop {
        let Some(after) = put_next(alloc, &mut terms, rest)? else {
            return Ok(terms);
        };
        rest = after;
    }
}
