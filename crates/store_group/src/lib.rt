//! A store whose commands a group of replicas settles.
//!
//! It promises that its store obeyed the settled commands, in their order, and no others; and that each
//! step says what it did: which command was settled late and with which answer, whether one is pending,
//! and what the step's own command is answered ([`StoreGroup::step`]). A step is what a journal of the stores gains by it
//! ([`laws::steps_are_entries`]). It stands on `page_store`, `paxos_group` and `serial_rules`.
//!
//! ```text
//! let ready = group.ready(alloc, &command)?;
//! let stepped = group.step(alloc, &command, ready, &mut weather);
//! match stepped.own {
//!     Ok(answer) => Ok(answer),
//!     Err(fault) => retry_or_give_up(stepped.doubted, fault),
//! }
//! ```
#![tactic(auto)]

mod adopting;
mod group;
pub mod laws;
mod ready;

pub use group::{Stepped, StoreGroup};
pub use ready::Ready;
