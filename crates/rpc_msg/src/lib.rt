//! RPC messages (RFC 5531): how a call begins, who calls, and how a reply begins.
//!
//! It promises that the head of a call, its credential and its verifier are read exactly as the grammar
//! has them, with no memory taken, and that what is refused is refused by the first cause that fits; and
//! that the record of a reply is the one spelling of its mark, its head and its results.
//! It stands on `xdr` and `xdr_grammar`, and on `rpc_records` for what a record's mark is.
//!
//! ```
//! let head = read_call(record)?;
//! match read_cred(head.tail) {
//!     Ok((who, arguments)) => write_accepted(head.xid, 0, results, out)?,
//!     Err(fault) => write_denied(head.xid, [1, number_of(fault), 0], 2, out)?,
//! }
//! ```
#![tactic(auto)]

mod call;
mod credential;
mod reply;

pub use call::{CallHead, HeadFault, head_is_lawful, read_call};
pub use credential::{CredFault, Who, credential_is_lawful, own_cred, read_cred};
pub use reply::{reply_is_lawful, write_accepted, write_accepted_head, write_denied};
