//! The page on which an empty file system begins.
//!
//! It promises that the page, alone in the slot (0, 0), is a B-tree whose records stand for the first tree: the tree of a file
//! system with this number and this verifier, whose root is empty and was made at this moment ([`first_page`]).
//! It stands on `btree_page` for pages, on `fs_keys` for keys and values, on `fs_shows` for what records show of a tree,
//! and on `fs_sound` for that the first tree is sound.
//!
//! ```text
//! let page = first_page(alloc, fsid, verifier, clock.now())?;
//! pages.write(Slot { store: 0, number: 0 }, page)?;
//! ```
#![tactic(auto)]

mod making;

pub use making::first_page;
