//! The procedures that make a node and its name, as transactions over records: SYMLINK and MKDIR, in the live tree; and what
//! CREATE shares with them.
//!
//! It promises of each, whatever it reads: it ends as its row of the answer table says, on every sound tree that may lie below,
//! and the tree that lies below then is the row's; or it gives up, and why (`Performs`). What they share is one edit, a new
//! node with its name ([`make_in`]). It stands on `inode_ops` and `dir_ops` for edits of records, on `procs_object` for what
//! handles lead to, on `fs_shows` for what records show as a tree, and on `fs_rules` for the table and its rules.
#![tactic(auto)]

mod checks;
mod child;
mod directories;
mod links;
mod making;
mod room;

pub use checks::check_node;
pub use child::{Making, NewNode, child_in};
pub use directories::mkdir;
pub use links::symlink;
pub use making::{make_and_tell, make_in};
pub use room::{Room, find_room};
