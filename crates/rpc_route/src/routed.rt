//! How records are routed.

use nfs3_types::Call;
use rpc_msg::{HeadFault, Who};
use thiserror::Error;

/// What is done with a record.
#[derive(Debug, Drop)]
pub enum Routed<'a> {
    /// The tree is needed.
    Nfs {
        /// The transaction id, which the reply repeats.
        xid: u32,
        /// Who calls.
        who: Who<'a>,
        /// The call.
        call: Call<'a>,
    },
    /// The record of the reply was added.
    Ready,
}

/// Why a record is not routed.
#[derive(Clone, Copy, Debug, PartialEq, Eq, Error)]
pub enum RouteFault {
    /// The record is no call.
    #[error("the record is no call: {0}")]
    BadRecord(HeadFault),
    /// Memory ran out for the reply to the call of this transaction id.
    #[error("no memory for the reply to call {0}")]
    NoMemory(u32),
}
