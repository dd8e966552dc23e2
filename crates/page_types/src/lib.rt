//! What is said to a store and what it answers: commands, answers, outcomes and holds, as values; the
//! journal of them; and a pass's way to the stores.
//!
//! It promises that a value is what its name says, and that a copy of one is equal to it, or memory lacks:
//! copies of a command and of an entry share what is large ([`Shared`]). A [`Port`] takes a command only as
//! the pass's own entries allow it, and each step stands in them; what a store does at a command is said
//! above. It stands on `pair_types` for pages and transaction ids, and on `nfs3_types` for entries and lists.
//!
//! ```text
//! let numbers = ListOf::from_vec(vec![in alloc; 7, 9]?);
//! let command = Command::look(alloc, numbers)?;
//! match port.step(store, &command)? {
//!     Answer::Versions { versions } => Ok(versions),
//!     answer => Err(crossed(answer)),
//! }
//! ```
#![tactic(auto)]

mod answer;
mod command;
mod copying;
mod fused_port;
mod hold;
mod journal;
mod outcome;
mod port;
mod shared;
mod versions;

pub use answer::Answer;
pub use command::{Command, Decision, Part, Resolution, Transaction};
pub use copying::{copy_entry, copy_numbers};
pub use fused_port::FusedPort;
pub use hold::{Hold, WriteHold};
pub use journal::{JEntry, Journaled};
pub use outcome::Outcome;
pub use port::{Meaning, Port};
pub use shared::Shared;
pub use versions::{PageRead, PageWrite};
