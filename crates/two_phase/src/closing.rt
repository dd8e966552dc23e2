//! How a commit ends.

use pair_types::{Cross, StepFault};

/// What came of a commit.
#[derive(Clone, Copy, Debug, PartialEq, Eq)]
pub enum Commit {
    /// The transaction took effect, and this was answered.
    Done,
    /// It has no effect, and this was in the way.
    Crossed(Cross),
    /// A step gave no answer: it is not known whether the transaction took effect.
    Fault(StepFault),
}
