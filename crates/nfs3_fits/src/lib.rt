//! Replies of NFS version 3 whose numbers are those of Rust's types have a spelling.
//!
//! It promises that a reply with a body of its procedure, whose texts and lists are within bounds, and a
//! reply that failed can be written, in at most [`LONGEST_REPLY`] bytes: no caller of `nfs3_res` shows of each
//! number that it fits its word.
//! It stands on `nfs3_res` for what has a spelling, and on `nfs3_types` for replies and their grammar.
#![tactic(auto)]

mod attributes;
mod bodies;
mod entries;
mod laws;
mod numbers;
mod reply;

pub use laws::{LONGEST_REPLY, replies_are_short};
pub use reply::spelled;
