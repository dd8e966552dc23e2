//! A turnstile: a lock that hands over one shared state, which keeps a journal, to one pass at a time.
//!
//! It promises that what is taken is what was given back last, that its journal goes on from what the pass had
//! seen, and that the pass's own entries in it are those that it had seen; that a pass's numbers can be split off
//! and joined again; and that the closed state has each pass's entries in their order. Nothing is promised of
//! waiting. It stands on `page_types` for journals, and on the kit's `atomic_table`.
//!
//! ```text
//! let (turn, mut pass) = Turn::new(alloc, fabric)?;
//! let mut fabric = turn.take(rt, &mut pass);
//! let answer = fabric.step(pass_number, store, &command);
//! turn.give(&mut pass, fabric);
//! let fabric = turn.close(pass);
//! ```
#![tactic(auto)]

mod lock;
mod rule;
mod turn;
mod view;

pub use turn::{Pass, Turn};
