//! Pages of a tree of versioned records, and what a map of such pages stands for.
//!
//! It promises that a page is read exactly where the page grammar has it, with the first bad place
//! else; that a page that is built holds the cells that were added; and, as laws, what a formed
//! B-tree of pages is. It stands on `cursor` and `pair_types`.
#![tactic(auto)]

mod builder;
mod cell;
mod format;
mod laws;
mod reading;
mod view;

pub use builder::{PageBuilder, TooBig};
pub use cell::Cell;
pub use format::PageFormat;
pub use laws::{keeps_trees, one_content, one_list, reaches_pages, small_trees};
pub use view::PageView;
