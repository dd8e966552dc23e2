//! Views, and what a purge answers.

use pair_types::{Key, Quad};

/// Which view of the pairs is read.
#[derive(Clone, Copy, Debug, PartialEq, Eq)]
pub enum At {
    /// What lives.
    Live,
    /// What was born by this number, and was not yet dead.
    Snap(u64),
}

/// What became of a purge that reads a bounded number of leaves.
#[derive(Debug, Drop)]
pub enum Purged {
    /// This record was taken away.
    Took(Quad),
    /// None was found before this key, where the purge stopped.
    Stopped(Key),
    /// There is none.
    Ended,
}
