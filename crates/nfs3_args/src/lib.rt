//! The arguments of NFS version 3's calls (RFC 1813, section 3.3), read and written.
//!
//! It promises that [`read_args`] gives exactly the call that the whole text spells, or the first fault,
//! with names and content lent and no memory taken; and that [`write_args`] adds the one spelling of a call.
//! It stands on `nfs3_items` for what calls share, and on `nfs3_types` for calls and their grammar.
#![tactic(auto)]

mod putting;
mod readers;
mod reading;
mod size;
mod texts;
mod writing;

pub use reading::read_args;
pub use size::args_size;
pub use writing::write_args;
