//! A part that can't be returned.
use thiserror::Error;

/// A session has taken the part out and never put it back.
#[derive(Clone, Copy, Debug, PartialEq, Eq, Error)]
#[error("the part is lost")]
pub struct Lost;
