//! A hall: the queue in which visits wait for a worker.
//!
//! It promises that each visit that is handed over is taken once: each pass tells how many visits and marks of the
//! end it handed over and took, and where the pass into which all others were joined finds nothing, it took as many
//! as it handed over. A worker that waits sleeps. Nothing is promised of waiting. It stands on the kit's
//! `crossbeam_queue`.
//!
//! ```text
//! let (hall, mut pass) = Hall::new(alloc, workers)?;
//! let mut theirs = hall.split(&mut pass)?;
//! hall.wait_hand(rt, &mut pass, visit);
//! let next = hall.wait_next(rt, &mut theirs);
//! hall.join(&mut pass, theirs);
//! ```
#![tactic(auto)]

mod moves;
mod passing;
mod places;
mod rule;

pub use passing::{Hall, HallPass};
pub use places::Next;
