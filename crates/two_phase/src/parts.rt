//! The parts of a transaction.

use nfs3_types::ListOf;
use page_types::{PageRead, PageWrite};

/// What a transaction reads and writes at one store. Reads and writes stand in rising number, no number twice in
/// either, and each written number is among the reads.
#[derive(Debug, Drop)]
pub struct Part {
    /// The store.
    pub store: u32,
    /// What it read there.
    pub reads: ListOf<PageRead>,
    /// What it writes there.
    pub writes: ListOf<PageWrite>,
}
