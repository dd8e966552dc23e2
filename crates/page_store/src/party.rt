//! What a store keeps of a transaction.

ghost use Rattle.std.specs.Prelude.{◌≡◌, IfOk, option_copied, unwrap_or};
ghost use Rattle.page_store.specs.Keeps.{stranger};

use nfs3_types::{Copies, ListOf, NoMemory};
use page_types::{Outcome, copy_numbers};
use pair_types::Tid;
use std::alloc::Global;

/// What a store keeps of a transaction: how it was decided here, whether its part has ended, and the
/// numbers of all pages on which it has holds, and maybe of others.
#[derive(Drop)]
pub(crate) struct Party {
    pub outcome: Option<Outcome>,
    pub ended: bool,
    pub numbers: ListOf<u64>,
}

/// A transaction that a command concerns, and what is kept of it from now on.
#[derive(Drop)]
pub(crate) struct Involved {
    pub tid: Tid,
    pub party: Party,
}

impl Party {
    /// A transaction that a store knows nothing of. It takes no memory.
    pub fn stranger(alloc: Global) -> Party
        ensures { result ≡ stranger }
    {
        Party {
            outcome: None,
            ended: false,
            numbers: ListOf::new(alloc),
        }
    }
}

/// An equal outcome, where there is one. The entry is shared.
pub(crate) fn copy_outcome(
    alloc: Global,
    outcome: &Option<Outcome>,
) -> Result<Option<Outcome>, NoMemory>
    ensures { IfOk result (λ copy. copy ≡ outcome.now) }
{
    match outcome {
        Some(outcome) => Ok(Some(outcome.copy(alloc)?)),
        None => Ok(None),
    }
}

/// An equal party, or a stranger.
pub(crate) fn copy_party(alloc: Global, party: Option<&Party>) -> Result<Party, NoMemory>
    ensures { IfOk result (λ copy. copy ≡ unwrap_or (option_copied party.entry) stranger) }
{
    match party {
        Some(party) => Ok(Party {
            outcome: copy_outcome(alloc, &party.outcome)?,
            ended: party.ended,
            numbers: copy_numbers(alloc, &party.numbers)?,
        }),
        None => Ok(Party::stranger(alloc)),
    }
}
