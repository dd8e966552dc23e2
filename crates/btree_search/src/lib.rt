//! Search in a tree of versioned records that lies in pages.
//!
//! It promises the least record at or after, or after, a key and a birth, and the greatest at or
//! below them: [`seek`], [`next`] and [`seek_back`] of the tree that any pages make which agree with
//! what was read, and [`find_in`] and [`find_past`] in one page. [`load`], [`view_of`] and [`child_at`] are the steps of every walk. On
//! pages that make no tree they end too, and give up at the latest where they see it.
//! It stands on `btree_page` and `pair_types`.
#![tactic(auto)]

mod aim;
mod find;
mod laws;
mod search;
mod steps;
mod walk;

pub use aim::Aim;
pub use find::{find_in, find_past};
pub use laws::meets_records;
pub use search::{next, seek, seek_back};
pub use steps::{child_at, load, view_of};
