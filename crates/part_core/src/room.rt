//! Lists in which there is room.
ghost use Rattle.std.specs.Prelude.{vec_len, vec_capacity, ◌≡◌, ◌<◌, [], ◌∷◌, ◌++◌};

use std::alloc::Allocator;

/// Appends a value to a list that has room for it. It does not allocate.
pub fn push_within<T, A: Allocator>(list: &mut Vec<T, A>, value: T)
    requires { vec_len list.old < vec_capacity list.old }
    ensures { list.new.items ≡ list.old.items ++ value ∷ [] }
{
    match list.push(value) {
        Ok(()) => {}
        Err(_) => unreachable!(),
    }
}
