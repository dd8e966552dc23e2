//! A tree of versioned records, as a transaction over pairs and blocks.
//!
//! It promises that [`Tree`], over any transaction over pages, keeps every clause of `Pairs` and `Blocks`: the pages show
//! the lives of each key and the blocks beside them, and a look-up is one search down the tree, however many versions a
//! key has. It stands on `btree_edit`, `btree_search` and `pairs`.
//!
//! ```text
//! let mut tree = Tree::new(alloc, pages, store);
//! tree.put(&key, &value)?;
//! let slot = tree.fresh_block(file, index)?;
//! tree.write_block(slot, &bytes)?;
//! let pages = tree.part();
//! ```
#![tactic(auto)]

mod blocks;
mod edits;
mod lookups;
mod purges;
mod tree;
mod walks;

pub use tree::Tree;
