//! A transaction over pages in stores: what it read and wrote, and its commit.
//!
//! It promises that each page that it knows was answered since it began, that a fault is answered only where a command of
//! that call was answered so ([`Txn`] as `Pages`), and that it hands down to be committed what it read and wrote
//! ([`Txn::commit`]), and that it tells whether all that it read is still so ([`Txn::recheck`]). It asks only what keeps its
//! pass's own entries fair. It stands on `two_phase`, over a port that tells one page for one version (`steady_port`).
//!
//! ```text
//! let mut txn = Txn::<P, B>::new(alloc, port, tid);
//! let root = Slot { store: 0, number: 0 };
//! let page = changed(txn.read(root)?)?;
//! txn.write(root, page)?;
//! let (port, commit) = txn.commit(Some(entry));
//! ```
#![tactic(auto)]

mod asking;
mod begun;
mod committing;
mod learning;
mod parts;
mod rechecking;
mod row;
mod rows;
mod txn;

pub use begun::Begun;
pub use row::Row;
pub use txn::Txn;
