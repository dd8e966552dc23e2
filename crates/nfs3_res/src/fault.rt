//! Why a result could not be read.

ghost use Rattle.std.specs.Prelude.{◌≡◌};
ghost use Rattle.nfs3_res.specs.declared.fault.ResFault.TheVariants.{Bad, NoMemory as Memory};

use nfs3_types::NoMemory;
use std::alloc::{AllocError, AllocFailed};
use thiserror::Error;
use xdr_grammar::XdrFault;

/// Why a text gave no reply.
#[derive(Clone, Copy, Debug, PartialEq, Eq, Error)]
pub enum ResFault {
    /// The text spells no result: the first fault.
    #[error("no result: {0}")]
    Bad(XdrFault),
    /// Memory ran out.
    #[error("no memory")]
    NoMemory,
}

impl From<XdrFault> for ResFault {
    ghost from_gives = { λ fault e. e ≡ Bad fault };

    fn from(fault: XdrFault) -> ResFault {
        ResFault::Bad(fault)
    }
}

impl From<NoMemory> for ResFault {
    ghost from_gives = { λ _ e. e ≡ Memory };

    fn from(_error: NoMemory) -> ResFault {
        ResFault::NoMemory
    }
}

impl From<AllocError> for ResFault {
    ghost from_gives = { λ _ e. e ≡ Memory };

    fn from(_error: AllocError) -> ResFault {
        ResFault::NoMemory
    }
}

impl<T: Drop> From<AllocFailed<T>> for ResFault {
    ghost from_gives = { λ _ e. e ≡ Memory };

    fn from(_error: AllocFailed<T>) -> ResFault {
        ResFault::NoMemory
    }
}
