//! Whether a reply has the shape that its spelling needs.
//!
//! It promises an answer that is exact ([`has_shape`]): yes where the body is that of the reply's procedure, with its texts, its
//! lists and its handles within bounds, or where the procedure failed and says nothing more; such a reply is spelled within a
//! record. A transaction that read anything at all is asked by it before its reply is handed on. It takes no memory.
//! It stands on `nfs3_fits` for the shape, and on `nfs3_types` for replies.
#![tactic(auto)]

mod bodies;
mod lists;
mod reply;

pub use reply::has_shape;
