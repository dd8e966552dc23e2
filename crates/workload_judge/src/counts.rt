//! What the workload leaves.

/// How many nodes the live tree has, the root included, and how many bytes its files hold.
#[derive(Clone, Copy, Debug, PartialEq, Eq)]
pub struct Counts {
    /// The nodes.
    pub nodes: u64,
    /// The bytes, which are the sum of the files' sizes.
    pub bytes: u128,
}
