//! Why a call that takes no memory was not made.
use thiserror::Error;

/// The turn of a call was put off: nothing was done.
#[derive(Clone, Copy, Debug, PartialEq, Eq, Error)]
#[error("the turn was put off")]
pub struct PutOff;
