//! The results of NFS version 3's calls (RFC 1813, section 3.3), read and written.
//!
//! It promises that [`write_reply`] adds the one spelling of a result, of [`reply_size`] bytes; and that
//! [`read_reply`] gives exactly the reply of the result that the whole text spells, or the first fault.
//! It stands on `nfs3_items` for what results share, and on `nfs3_types` for replies and their grammar.
#![tactic(auto)]

mod fault;
mod items;
mod putting;
mod reading;
mod result;
mod size;
mod status;
mod texts;
mod writing;

pub use fault::ResFault;
pub use result::read_reply;
pub use size::reply_size;
pub use status::succeeded;
pub use writing::write_reply;
