//! Any call of NFS version 3, as one transaction over pairs and blocks, whatever it reads.
//!
//! It promises ([`body`]): a reply is the answer table's, and the tree that lies below then is the table's, on every sound tree
//! that may lie below; or a sweep of a file has to come first; or the transaction is to be given up, and why. Whatever was
//! read, a reply can be spelled within a record. It stands on the crates of the procedures, on `fs_rules` for the table, on
//! `nfs3_shapes` for what can be spelled, and on `fs_laws`, by which replies on sound trees can be.
#![tactic(auto)]

mod answering;
mod changing;
mod fault;
mod looking;

pub use answering::body;
pub use fault::BodyFault;
