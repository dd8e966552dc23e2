//! Why a call is not answered.

use pair_types::PairFault;
use thiserror::Error;

/// Why a call is not answered.
#[derive(Clone, Copy, Debug, PartialEq, Eq, Error)]
pub enum BodyFault {
    /// The transaction is to be given up.
    #[error("{0}")]
    Pair(PairFault),
    /// A sweep of the stale extents of this file has to come first.
    #[error("a sweep of file {0} has to come first")]
    SweepFirst(u64),
}
