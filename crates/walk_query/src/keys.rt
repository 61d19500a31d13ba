//! The keys that heads name.
ghost use Rattle.std.specs.Prelude.{◌≡◌, [], IfOk, OnOk, option_map};
ghost use Rattle.std.specs.List.{All};
ghost use Rattle.mspec_syntax.specs.Pattern.{patterns_of};
ghost use Rattle.mspec_syntax.specs.Sound.{IsSoundClause, IsSoundPattern, AreSoundPatterns};
ghost use Rattle.walk_query.specs.Named.{HasKeys, key_among, key_named, with_key, named_from, named_by};

use compiler_patterns::spelled;
use mspec_syntax::{Clause, Pattern, PatternKind, Spec};
use std::alloc::{AllocError, Allocator};
use std::collections::HashSet;
use std::hash::{BuildHasherDefault, DefaultHasher};
use term_core::Term;

/// Returns the key among the elements of a head at this position, which is counted from 1, or `None` if there is none.
/// Fails if an allocation fails.
fn key_among<A: Allocator + Copy>(
    alloc: A,
    elements: &[Pattern<A>],
    keypos: u16,
) -> Result<Option<Term<A>>, AllocError>
    requires { AreSoundPatterns (patterns_of elements.now) }
    ensures { IfOk result (λ key. key ≡ key_among keypos (patterns_of elements.now)) }
{
    if keypos == 0 {
        return Ok(None);
    }
    match elements.get(usize::from(keypos) - 1) {
        Some(element) => spelled(alloc, element),
        None => Ok(None),
    }
}

/// Returns the key that a head names at this position, or `None` if it names none. Fails if an allocation fails.
fn key_named<A: Allocator + Copy>(
    alloc: A,
    head: &Pattern<A>,
    keypos: u16,
) -> Result<Option<Term<A>>, AllocError>
    requires { IsSoundPattern head.now }
    ensures { IfOk result (λ key. key ≡ key_named keypos head.now) }
{
    match head.kind() {
        PatternKind::Anything => Ok(None),
        PatternKind::Variable(_) => Ok(None),
        PatternKind::Literal(_) => Ok(None),
        PatternKind::Tuple(elements) => key_among(alloc, elements.as_slice(), keypos),
        PatternKind::List(_, _) => Ok(None),
        PatternKind::Map(_) => Ok(None),
    }
}

/// A set of keys, found by their hashes.
type KeySet<A> = HashSet<Term<A>, BuildHasherDefault<DefaultHasher>, A>;

/// Appends a key to the list, unless it is one of the list's keys; `set` has the same keys. Fails if an allocation
/// fails.
fn put_key<A: Allocator + Copy>(
    keys: &mut Vec<Term<A>, A>,
    set: &mut KeySet<A>,
    key: Term<A>,
) -> Result<(), AllocError>
    requires { HasKeys set.old keys.old.items }
    ensures keys { OnOk result (keys.new.items ≡ with_key keys.old.items key) }
    ensures set { OnOk result (HasKeys set.new keys.new.items) }
{
    if set.contains(&key) {
        return Ok(());
    }
    set.insert(key.copy()?)?;
    keys.push(key)?;
    Ok(())
}

/// Returns the keys that the heads of clauses name, or `None` if a head names none. Fails if an allocation fails.
fn keys_of<A: Allocator + Copy>(
    alloc: A,
    clauses: &[Clause<A>],
    keypos: u16,
) -> Result<Option<Vec<Term<A>, A>>, AllocError>
    requires { All IsSoundClause clauses.now }
    ensures { IfOk result (λ keys. option_map (λ found. found.items) keys
        ≡ named_from keypos [] clauses.now) }
{
    let mut keys = Vec::new(alloc);
    let mut set = HashSet::with_hasher(alloc, BuildHasherDefault::new());
    for clause in clauses {
        let Some(key) = key_named(alloc, clause.head(), keypos)? else {
            return Ok(None);
        };
        put_key(&mut keys, &mut set, key)?;
    }
    Ok(Some(keys))
}

/// Returns the keys that a specification names at this position, which is counted from 1: each once, in the order in
/// which they are first named. Returns `None` if a head names none. Fails if an allocation fails.
pub fn named_keys<A: Allocator + Copy>(
    alloc: A,
    specification: &Spec<A>,
    keypos: u16,
) -> Result<Option<Vec<Term<A>, A>>, AllocError>
    ensures { IfOk result (λ keys. option_map (λ found. found.items) keys
        ≡ named_by keypos specification.now) }
{
    keys_of(alloc, specification.clauses(), keypos)
}
