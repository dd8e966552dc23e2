//! The grammar of XDR (RFC 4506): what bytes spell a value, and how values are read and written.
//!
//! It promises for each item and each way of composing items that what is read was spelled so, that
//! every spelling is read, that a fault is the first in the order of reading, that what is written
//! spells the value, and that no spelling of a value begins another spelling.
//! It has definitions and laws alone, and stands on `byteorder` for numbers as bytes.
#![tactic(auto)]

mod fault;

pub use fault::XdrFault;

pub mod laws;
