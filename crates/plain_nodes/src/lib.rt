//! The nodes of the plain tree, the one-thread file tree that the service is measured against.
//!
//! It promises that each edit of the nodes is the edit that the answer table names, and that where memory runs
//! out, the nodes are as they were; it counts them, and the bytes of the files.
//! It stands on `fs_rules` for the edits and the rules, on `file_content` for what files hold, and on `nfs3_types`
//! for texts, times and want of memory.
//!
//! ```
//! let mut nodes = Nodes::new(alloc);
//! nodes.insert(1, root)?;
//! nodes.add(alloc, 16, file, 1, FileType::Reg, b"f", now)?;
//! nodes.write(alloc, 16, 0, b"hello", now)?;
//! nodes.lose_link(16, now);
//! nodes.drop_name(1, b"f", now);
//! ```
#![tactic(auto)]

mod entries;
mod node;
mod nodes;

pub use node::Node;
pub use nodes::Nodes;
