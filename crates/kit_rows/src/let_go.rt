//! Drops of whole values, which cost a caller's proof less than drops at the end of a scope.

/// Returns whether the value is an `Ok`, and drops it.
pub fn was_ok<T: Drop, E: Drop>(came: Result<T, E>) -> bool {
    came.is_ok()
}

/// Returns whether the value is a `Some`, and drops it.
pub fn was_some<T: Drop>(value: Option<T>) -> bool {
    value.is_some()
}
