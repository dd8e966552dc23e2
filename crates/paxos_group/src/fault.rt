//! What an append answers.

use thiserror::Error;

/// Why a command is not settled.
#[derive(Clone, Copy, Debug, PartialEq, Eq, Error)]
pub enum GroupFault {
    /// Too few replicas answered: the command may be settled or not, and is pending.
    #[error("in doubt")]
    Doubt = 1,
    /// Memory ran out.
    #[error("no memory")]
    NoMemory = 2,
}

/// What an append answers.
#[derive(Clone, Copy, Debug, PartialEq, Eq)]
pub struct Appended {
    /// Whether the command that was pending is settled.
    pub late: bool,
    /// Whether the group stands as after a doubt: a command is pending.
    pub doubted: bool,
    /// Whether the appended command is settled.
    pub own: Result<(), GroupFault>,
}
