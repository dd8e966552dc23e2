//! Sweeps: stale extents are ended, and records that no view sees are purged.
//!
//! It promises that a sweep, from any place on, keeps every tree that may lie below, with each of its snapshots, and ends or
//! purges no more than it was told to ([`sweep_from`]); and that one from the start to the end that did less left nothing
//! ([`sweep_some`]). A file loses its mark only where none of its extents is stale, and a purged extent's block is dropped. It
//! stands on `pairs` for transactions, on `fs_keys` and `inode_ops` for records, and on `fs_shows` for what they show.
#![tactic(auto)]

mod finding;
mod place;
mod steps;
mod sweep;

pub use place::{SweepPlace, Swept};
pub use sweep::{sweep_from, sweep_some};
