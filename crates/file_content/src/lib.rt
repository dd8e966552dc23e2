//! What a file holds, as the one-thread file tree that the service is measured against keeps it.
//!
//! It promises that a file's content is its bytes: what is written stands where it was written, what was
//! never written is zeros, and a hole takes no memory.
//! It stands on `fs_rules` for what a write and a cut leave, and on `nfs3_types` for texts and want of memory.
#![tactic(auto)]

mod content;
mod piece;
mod pieces;

pub use content::Content;
