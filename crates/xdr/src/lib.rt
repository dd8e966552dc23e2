//! XDR (RFC 4506) over bytes: a [`Reader`] of items, and one call to write each item.
//!
//! It promises that each reading call gives exactly what the grammar's item reads, with the first
//! fault and with no memory taken, that a refusal leaves the reader unchanged, and that each writing
//! call adds the item's one spelling at the end and never fails where room was reserved.
//! It stands on `xdr_grammar` for what is spelled how, and on `cursor` for the place in a text.
//!
//! ```
//! let mut reader = Reader::new(text);
//! let kind = reader.pick(1, 7)?;
//! let name = reader.opaque(255)?;
//! reader.end()?;
//! put_word(out, kind)?;
//! put_opaque(out, name)?;
//! ```
#![tactic(auto)]

mod pad;
mod put;
mod reader;

pub use pad::padding;
pub use put::{put_fixed, put_hyper, put_opaque, put_truth, put_word};
pub use reader::Reader;
