//! The one error of the outside.

use thiserror::Error;

/// A read or a write failed. Its object's count of faults says so too.
#[derive(Clone, Copy, Debug, PartialEq, Eq, Error)]
#[error("the call failed")]
pub struct Failed;
