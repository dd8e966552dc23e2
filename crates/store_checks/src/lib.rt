//! What is run, and not proved, of the crates for stores and their replicas: that calls which take memory
//! succeed where there is some, that each generic type works at the commands of a store, and what no clause
//! says: the fate of each single message is heeded, and a held message may come at any later moment.
//!
//! It promises nothing to callers: all its content is tests over public calls.
#![tactic(auto)]

#[cfg(test)]
mod groups;
#[cfg(test)]
mod ports;
#[cfg(test)]
mod proposals;
#[cfg(test)]
mod values;
