//! A group of replicas that settles commands one after another by Paxos, over any weather.
//!
//! It promises that each settled command was accepted by a majority of the replicas under one ballot;
//! that a command is settled only where a majority is heard; and that it answers a doubt only where a
//! majority of the replicas had a bad fate in that call, and never in calm weather ([`Group::append`]).
//! It is generic over the command, and stands on `paxos_core`, `outside`, `nfs3_types` and `slab`.
//!
//! ```text
//! let mut group = Group::new(alloc, store, 3)?;
//! let appended = group.append(alloc, &command, &mut weather);
//! match appended.own {
//!     Ok(()) => answer(group.log()),
//!     Err(GroupFault::Doubt) => retry(&command),
//!     Err(GroupFault::NoMemory) => give_up(appended.doubted),
//! }
//! ```
#![tactic(auto)]

mod fault;
mod group;
mod letter;
mod net;
mod parts;

pub use fault::{Appended, GroupFault};
pub use group::Group;
