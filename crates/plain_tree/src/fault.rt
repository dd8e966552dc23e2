//! Why a call has no result.

ghost use Rattle.std.specs.Prelude.{◌≡◌};
ghost use Rattle.plain_tree.specs.declared.fault.Fault.TheVariants.{Refused, NoMemory as Memory};

use nfs3_types::{NoMemory, Status};
use std::alloc::{AllocError, AllocFailed};
use thiserror::Error;

/// Why a call has no result.
#[derive(Clone, Copy, Debug, PartialEq, Eq, Error)]
pub enum Fault {
    /// It is refused with this status.
    #[error("the call is refused")]
    Refused(Status),
    /// Memory ran out.
    #[error("no memory")]
    NoMemory,
}

impl From<Status> for Fault {
    ghost from_gives = { λ status e. e ≡ Refused status };

    fn from(status: Status) -> Fault {
        Fault::Refused(status)
    }
}

impl From<NoMemory> for Fault {
    ghost from_gives = { λ _ e. e ≡ Memory };

    fn from(_error: NoMemory) -> Fault {
        Fault::NoMemory
    }
}

impl From<AllocError> for Fault {
    ghost from_gives = { λ _ e. e ≡ Memory };

    fn from(_error: AllocError) -> Fault {
        Fault::NoMemory
    }
}

impl<T: Drop> From<AllocFailed<T>> for Fault {
    ghost from_gives = { λ _ e. e ≡ Memory };

    fn from(_error: AllocFailed<T>) -> Fault {
        Fault::NoMemory
    }
}
