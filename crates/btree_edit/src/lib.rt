//! Edits of a tree of versioned records that lies in pages.
//!
//! It promises that [`insert`], [`remove`], [`replace`] and [`end`] are each one edit of the list of
//! records for which the pages stand, that the pages are a tree afterwards, which of them may have changed,
//! and how far the root may grow. On pages that make no tree they end too, and say so only where no
//! tree agrees with what was read.
//! It stands on `btree_search`, `btree_page` and `pair_types`.
#![tactic(auto)]

mod below;
mod build;
mod change;
mod edit;
mod leaf;
mod outcome;

pub use edit::{end, insert, remove, replace};
