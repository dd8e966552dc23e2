//! Paxos, one value for each index: an acceptor, a proposer, and the laws that bind them.
//!
//! It promises that at most one value is chosen at an index and stays chosen, whatever is lost, repeated,
//! reordered or restarted, as long as no two proposers of an index share a ballot ([`agreement`]); and
//! that each handler answers and keeps what the machine of that law does, step by step.
//! It is generic over the value, which can be copied, and stands on `nfs3_types` for want of memory.
//!
//! ```text
//! let mut proposer = Proposer::new(alloc, index, ballot, 3, value)?;
//! for acceptor in &mut acceptors {
//!     if let Some(promise) = acceptor.on_message(alloc, &Message::Ask { index, ballot })? {
//!         stage = proposer.on_message(alloc, &promise)?;
//!     }
//! }
//! ```
#![tactic(auto)]

mod acceptor;
mod ballot;
mod laws;
mod message;
mod proposer;

pub use acceptor::{Acceptor, Standing};
pub use ballot::Ballot;
pub use laws::{agreement, proposals, ranks};
pub use message::Message;
pub use proposer::{Proposer, Stage};
