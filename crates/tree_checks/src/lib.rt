//! Tests of the plain tree and of what files hold, over public calls.
//!
//! It promises nothing, and has tests alone: that a call which takes memory succeeds where there is memory, what a
//! file shows after writes and cuts, the counts of nodes and bytes behind a table of calls, and the tree that a
//! history leads to. They stand apart from the crates that they are about, since a crate with tests is proved again
//! whole. It stands on `plain_tree`, `file_content` and `history_replay`.
#![tactic(auto)]

#[cfg(test)]
mod contents;
#[cfg(test)]
mod counts;
#[cfg(test)]
mod histories;
