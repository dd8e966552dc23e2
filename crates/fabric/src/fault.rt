//! Why there is no fabric.

use nfs3_types::NoMemory;
use thiserror::Error;

/// Why there is no fabric.
#[derive(Clone, Copy, Debug, PartialEq, Eq, Error)]
pub enum FabricFault {
    /// There are to be 1 to 16 stores, of 3 or 5 replicas each.
    #[error("no such shape")]
    BadShape = 1,
    /// Memory ran out.
    #[error("no memory")]
    NoMemory = 2,
}

impl From<NoMemory> for FabricFault {
    ghost use Rattle.std.specs.Prelude.{◌≡◌};
    ghost use Rattle.fabric.specs.declared.fault.FabricFault.TheVariants.{NoMemory};

    ghost from_gives = { λ _ fault. fault ≡ NoMemory };

    fn from(_error: NoMemory) -> FabricFault {
        FabricFault::NoMemory
    }
}
