//! The bytes of files, as extents over pairs and blocks.
//!
//! It promises that a range is read exactly as the view shows it, holes as zeros ([`read`]); that a write changes exactly its
//! range, and no other byte of any file in any view ([`write`]); and that a cut shows zeros from there on, also when the file
//! grows again, at one cost for all sizes ([`cut`]). Each keeps what `fs_shows` asks of extents and blocks, and each fault has
//! its cause. It stands on `pairs` for transactions, `fs_keys` for records and `fs_shows` for what they show.
#![tactic(auto)]

mod cutting;
pub mod laws;
mod loading;
mod marks;
mod placing;
mod ranges;

pub use cutting::cut;
pub use marks::Marks;
pub use ranges::{read, write};
