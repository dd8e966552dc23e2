//! Why a call over pages, or over the records in them, gives up.

use crate::slot::{Slot, Tid};
use nfs3_types::NoMemory;
use thiserror::Error;

/// What another transaction did that this one cannot go on beside.
#[derive(Clone, Copy, Debug, PartialEq, Eq, Error)]
pub enum Cross {
    /// A slot has another version than the one that was read.
    #[error("a slot changed after it was read")]
    Conflict {
        /// The slot.
        slot: Slot,
        /// The version that it has.
        version: u64,
        /// Who wrote it.
        by: Tid,
    },
    /// A slot is held by another transaction.
    #[error("a slot is held")]
    Busy {
        /// The slot.
        slot: Slot,
        /// Who holds it.
        tid: Tid,
    },
    /// The transaction was ended by another one.
    #[error("the transaction was ended")]
    Aborted {
        /// The transaction that was ended.
        tid: Tid,
    },
}

/// Why one step at a store gave no answer.
#[derive(Clone, Copy, Debug, PartialEq, Eq, Error)]
pub enum StepFault {
    /// The step's outcome was not told: it may have happened, or may happen later.
    #[error("the outcome of a step was not told")]
    Doubt,
    /// Memory ran out.
    #[error("no memory")]
    NoMemory,
    /// The way to the stores is stopped.
    #[error("stopped")]
    Stopped,
}

impl From<NoMemory> for StepFault {
    ghost use Rattle.std.specs.Prelude.{◌≡◌};
    ghost use Rattle.pair_types.specs.declared.fault.StepFault.TheVariants.{NoMemory};

    ghost from_gives = { λ _ fault. fault ≡ NoMemory };

    fn from(_error: NoMemory) -> StepFault {
        StepFault::NoMemory
    }
}

/// Why a call over pages gave no answer.
#[derive(Clone, Copy, Debug, PartialEq, Eq, Error)]
pub enum PageFault {
    /// Another transaction was in the way.
    #[error("crossed: {0}")]
    Crossed(Cross),
    /// A step at a store gave no answer.
    #[error("{0}")]
    Step(StepFault),
}

impl From<NoMemory> for PageFault {
    ghost use Rattle.std.specs.Prelude.{◌≡◌};
    ghost use Rattle.pair_types.specs.declared.fault.PageFault.TheVariants.{Step};
    ghost use Rattle.pair_types.specs.declared.fault.StepFault.TheVariants.{NoMemory};

    ghost from_gives = { λ _ fault. fault ≡ Step NoMemory };

    fn from(_error: NoMemory) -> PageFault {
        PageFault::Step(StepFault::NoMemory)
    }
}

impl From<StepFault> for PageFault {
    ghost use Rattle.std.specs.Prelude.{◌≡◌};
    ghost use Rattle.pair_types.specs.declared.fault.PageFault.TheVariants.{Step};

    ghost from_gives = { λ step fault. fault ≡ Step step };

    fn from(fault: StepFault) -> PageFault {
        PageFault::Step(fault)
    }
}

/// Why a call over the records in pages gave no answer.
#[derive(Clone, Copy, Debug, PartialEq, Eq, Error)]
pub enum PairFault {
    /// The pages are not those of a tree.
    #[error("the pages are not those of a tree")]
    Odd,
    /// The tree cannot grow higher.
    #[error("the tree cannot grow higher")]
    HeightFull,
    /// A call over pages gave no answer.
    #[error("{0}")]
    Page(PageFault),
}

impl From<PageFault> for PairFault {
    ghost use Rattle.std.specs.Prelude.{◌≡◌};
    ghost use Rattle.pair_types.specs.declared.fault.PairFault.TheVariants.{Page};

    ghost from_gives = { λ page fault. fault ≡ Page page };

    fn from(fault: PageFault) -> PairFault {
        PairFault::Page(fault)
    }
}

impl From<NoMemory> for PairFault {
    ghost use Rattle.std.specs.Prelude.{◌≡◌};
    ghost use Rattle.pair_types.specs.declared.fault.PairFault.TheVariants.{Page};
    ghost use Rattle.pair_types.specs.declared.fault.PageFault.TheVariants.{Step};
    ghost use Rattle.pair_types.specs.declared.fault.StepFault.TheVariants.{NoMemory};

    ghost from_gives = { λ _ fault. fault ≡ Page (Step NoMemory) };

    fn from(error: NoMemory) -> PairFault {
        PairFault::Page(PageFault::from(error))
    }
}
