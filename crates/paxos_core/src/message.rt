//! What proposers and acceptors say to each other.

ghost use Rattle.std.specs.Prelude.{◌≡◌, IfOk};

use crate::ballot::Ballot;
use nfs3_types::{Copies, NoMemory};
use std::alloc::Global;

/// A message about one index. `Ask` and `Put` are for acceptors, the others are their answers.
#[derive(Debug, PartialEq, Eq, Drop)]
pub enum Message<V> {
    /// Promise to take part in no lower ballot.
    Ask {
        /// The index that it is about.
        index: u64,
        /// The ballot that is asked for.
        ballot: Ballot,
    },
    /// The replica takes part in no lower ballot from now on.
    Promise {
        /// Who promises.
        replica: u32,
        /// The index that it is about.
        index: u64,
        /// The ballot that was asked for.
        ballot: Ballot,
        /// What the replica accepted last, and under which ballot.
        accepted: Option<(Ballot, V)>,
    },
    /// Accept this value under this ballot.
    Put {
        /// The index that it is about.
        index: u64,
        /// The ballot of the proposal.
        ballot: Ballot,
        /// The value proposed.
        value: V,
    },
    /// The replica accepted the ballot's value.
    Ack {
        /// Who accepted.
        replica: u32,
        /// The index that it is about.
        index: u64,
        /// The ballot of the proposal.
        ballot: Ballot,
    },
    /// The replica promised a higher ballot before.
    Nack {
        /// Who refuses.
        replica: u32,
        /// The index that it is about.
        index: u64,
        /// The ballot that it promised.
        promised: Ballot,
    },
}

/// A copy of an accepted value.
pub(crate) fn accepted_copy<V: Copies>(
    alloc: Global,
    accepted: &Option<(Ballot, V)>,
) -> Result<Option<(Ballot, V)>, NoMemory>
    ensures { IfOk result (λ copy. copy ≡ accepted.now) }
{
    match accepted {
        Some((ballot, value)) => {
            let value = value.copy(alloc)?;
            Ok(Some((*ballot, value)))
        }
        None => Ok(None),
    }
}

impl<V: Copies> Copies for Message<V> {
    fn copy(&self, alloc: Global) -> Result<Message<V>, NoMemory> {
        match self {
            Message::Ask { index, ballot } => Ok(Message::Ask {
                index: *index,
                ballot: *ballot,
            }),
            Message::Put {
                index,
                ballot,
                value,
            } => {
                let value = value.copy(alloc)?;
                Ok(Message::Put {
                    index: *index,
                    ballot: *ballot,
                    value,
                })
            }
            Message::Promise {
                replica,
                index,
                ballot,
                accepted,
            } => {
                let accepted = accepted_copy(alloc, accepted)?;
                Ok(Message::Promise {
                    replica: *replica,
                    index: *index,
                    ballot: *ballot,
                    accepted,
                })
            }
            Message::Ack {
                replica,
                index,
                ballot,
            } => Ok(Message::Ack {
                replica: *replica,
                index: *index,
                ballot: *ballot,
            }),
            Message::Nack {
                replica,
                index,
                promised,
            } => Ok(Message::Nack {
                replica: *replica,
                index: *index,
                promised: *promised,
            }),
        }
    }
}
