//! What the pages of the stores stand for: the file tree; and where each call leads it.
//!
//! It promises that what is done of a call over records is right by this: the reply with what was written
//! ([`replies_are_right`]), NOSPC with nothing written, where the tree of pages is as high as trees get ([`full_is_right`]), and a
//! sweep, which serves no call ([`sweeps_are_right`]); and that the first page stands for the first tree ([`first_page_stands`]).
//! It has definitions, and these laws as contracts of functions that do nothing. It stands on `nfs3_procs` for what is done of a
//! call, on `birth_death` for records in pages, on `fs_shows` for what they show, and on `page_types` for what is right.
//!
//! ```text
//! type Stores = Fabric<FssMeaning, LostReplicas>;
//! ```
#![tactic(auto)]

mod laws;
mod meaning;

pub use laws::{first_page_stands, full_is_right, replies_are_right, sweeps_are_right};
pub use meaning::FssMeaning;
