//! A store of pages: it obeys commands, one after another, exactly by the rule for stores.
//!
//! It promises that each answer and each state is the one that the rule gives ([`Store::obey`]), that a
//! plan changes nothing, and that adopting a plan is obeying its commands and takes no memory. It stands on
//! `page_types` for commands and the rule. Its cost knows neither the number of commands nor that of pages,
//! but for a logarithm.
//!
//! ```text
//! let mut store = Store::new(alloc, Some(page))?;
//! let plan = store.plan(alloc, None, &command)?;
//! let (_, answer) = store.adopt_both(plan);
//! ```
#![tactic(auto)]

mod commands;
mod holds;
mod look;
mod party;
mod patch;
mod resolve;
mod row;
mod shelf;
mod store;
mod transactions;

pub use store::{Plan, Store};
