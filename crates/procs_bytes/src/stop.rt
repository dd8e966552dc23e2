//! Why a procedure ends early that may cut a file.

use fs_shows::Halt;

/// Why a procedure ends early that may cut a file.
#[derive(Clone, Copy, Debug, PartialEq, Eq)]
pub enum Stop {
    /// For what may end any procedure.
    Halted(Halt),
    /// A sweep of the stale extents of this file has to come first.
    SweepFirst(u64),
}
