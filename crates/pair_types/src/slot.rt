//! Where a page lies, and who writes it.

/// The place of a page: a store, and a number in it.
#[derive(Clone, Copy, Debug, PartialEq, Eq, Hash, PartialOrd, Ord)]
pub struct Slot {
    /// The store, counted from 0.
    pub store: u32,
    /// The number in the store.
    pub number: u64,
}

/// The identity of a transaction: the pass (one worker's identity) that began it, and its serial
/// number there. Serials begin with 1; pass 0 with serial 0 names nobody.
#[derive(Clone, Copy, Debug, PartialEq, Eq, Hash, PartialOrd, Ord)]
pub struct Tid {
    /// The pass.
    pub pass: u32,
    /// The serial number of the transaction in its pass.
    pub serial: u64,
}
