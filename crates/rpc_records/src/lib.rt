//! Record marking (RFC 5531, section 11): how a stream of bytes is cut into records.
//!
//! It promises that in whatever pieces a stream comes, the records kept one after another are those
//! of the stream as a whole, and that a stream is refused exactly at the head that breaks a limit.
//! After `Records::new` it takes no memory.
//! It stands on `xdr_grammar` for words as bytes, and on `nfs3_types` for want of memory.
//!
//! ```
//! let mut records = Records::new(alloc)?;
//! let taken = records.feed(piece)?;
//! if let Some(content) = records.whole() {
//!     answer(content);
//!     records.next();
//! }
//! ```
#![tactic(auto)]

mod fault;
mod laws;
mod limits;
mod records;
mod stage;

pub use fault::RecordFault;
pub use laws::{
    a_longer_text_keeps_its_records, a_marked_record_is_read, a_reader_follows_the_marking,
    a_record_in_fragments_is_read, a_refusal_stays, a_tail_is_the_rest,
    any_calls_follow_the_marking, marked_records_are_read, marking_goes_record_by_record,
    records_are_short, the_rest_is_no_record, what_is_read_was_written,
};
pub use limits::{MOST_BYTES, MOST_FRAGMENTS};
pub use nfs3_types::NoMemory;
pub use records::Records;
