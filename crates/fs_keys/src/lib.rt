//! The records of the file tree: their keys and values.
//!
//! It promises that a key is written and read exactly as the table of keys has it ([`key_of`], [`parts_of`]), and so is an
//! inode ([`value_of`], [`inode_of`]), and the value of every other record ([`first_of`] and others); and that each of the
//! two undoes the other ([`laws`]). It stands on `pair_types` for keys and values, on `fs_rules` for what is kept of a file,
//! and on `xdr` and `xdr_grammar` for numbers.
//!
//! ```text
//! let key = key_of(alloc, &KeyParts::Inode(id))?;
//! let value = value_of(alloc, &inode)?;
//! let inode = inode_of(alloc, value.as_slice())?;
//! ```
#![tactic(auto)]

mod inode;
mod key;
mod key_parts;
pub mod laws;
mod rows;
mod value;
mod values;

pub use inode::{Head, Inode};
pub use key::{key_of, parts_of};
pub use key_parts::KeyParts;
pub use rows::{CookieRow, Extent, First, NameRow};
pub use value::{inode_of, value_of};
pub use values::{
    cookie_of, cookie_value, extent_of, extent_value, first_of, first_value, lane_of, lane_value,
    name_of, name_value, times_of, times_value,
};
