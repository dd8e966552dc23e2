//! The rules of the file tree: which tree the service keeps, and what it answers to each call.
//!
//! Its definitions are the plain tree, the answer table and what a sound tree is (in `specs/`); its calls are
//! the rules on rights, names and attributes ([`checks`] those that refuse) that several layers share, which take no memory.
//! It stands on `nfs3_types`, and on `byteorder` for words among bytes.
#![tactic(auto)]

pub mod checks;
mod inode;
pub mod limits;
mod name_entry;
mod place;
mod plans;
mod rules;
mod times;

pub use inode::Inode;
pub use name_entry::NameEntry;
pub use place::Place;
pub use plans::{
    Climb, CreatePlan, LinkPlan, NewPlan, RemovePlan, RenamePlan, Replaced, SetAttrPlan, WritePlan,
};
pub use rules::{
    apply_sattr, is_in_group, is_too_large, may_read, may_search, may_write, name_fault, owns,
    sattr_fault, target_fault, time_by, wcc_of,
};
pub use times::Times;
