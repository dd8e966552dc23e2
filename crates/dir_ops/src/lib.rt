//! Names of directories of the file tree, over pairs.
//!
//! It promises of each call what it does to every tree that may lie below: a name is looked up in any view ([`look_up`]), and
//! the names are read one after another, by rising cookie ([`first_behind`], [`is_empty`]); a name is added and dropped by name
//! and by cookie at once ([`add`], [`drop_name`], [`drop_directory`]), each as the table of answers edits the directory's node;
//! and a call that gives up says why. It stands on `inode_ops` for nodes, on `fs_shows` for what pairs show as a tree, and on
//! `fs_keys` for records.
#![tactic(auto)]

mod adding;
mod dropping;
mod entries;
mod listing;
mod looking;

pub use adding::add;
pub use dropping::{drop_directory, drop_name};
pub use listing::{first_behind, is_empty};
pub use looking::look_up;
