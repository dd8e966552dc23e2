//! Why a check that reads ends early.

use nfs3_types::Status;
use pair_types::PairFault;

/// Why a check that reads ends early.
#[derive(Clone, Copy, Debug, PartialEq, Eq)]
pub enum Halt {
    /// The call is refused, with this status.
    Refused(Status),
    /// The transaction is to be given up.
    Fault(PairFault),
}
