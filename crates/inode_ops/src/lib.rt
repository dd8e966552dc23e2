//! Inodes, nodes, lanes and the first record of the file tree, over pairs.
//!
//! It promises of each call what it does to every tree that may lie below: an edit is one word of the table of answers
//! ([`touch`], [`lose_name`], [`make`], [`give`] and others), a read tells what the tree has ([`load`], [`peek`], [`first`]),
//! and a call that gives up says why. It stands on `fs_shows` for what pairs show as a tree, on `fs_keys` for records, and on
//! `pairs` for transactions.
#![tactic(auto)]

mod change;
mod edits;
mod inodes;
mod lanes;
mod nodes;
mod rows;

pub use edits::{add_link, describe, drop_link, link, move_to, set_ctime, touch};
pub use inodes::{load, load_live, save};
pub use lanes::{first, give, peek};
pub use nodes::{forget, lose_name, make};
pub use rows::{del_row, get_row, put_row};
