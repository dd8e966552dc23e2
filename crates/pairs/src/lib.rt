//! A transaction over pairs of key and value, with their births and deaths, and over blocks of bytes.
//!
//! It promises what a call of a transaction tells of everything that may lie below ([`Pairs`], [`Blocks`]): the lives of
//! each key, what a live view and a view by number see of them, and how they change; and the laws of these changes
//! ([`laws`]): a change is seen live at its key alone, no view of an earlier number changes, and lives stay in order. It
//! stands on `pair_types`.
//!
//! ```text
//! let old = pairs.get_at(&key, At::Live)?;
//! pairs.put(&key, &value)?;
//! let kept = pairs.get_at(&key, At::Snap(number))?;
//! ```
#![tactic(auto)]

mod at;
mod blocks;
pub mod laws;
mod pairs;

pub use at::{At, Purged};
pub use blocks::{Blocks, store_for};
pub use pairs::Pairs;
