//! Visits.

/// One connection: where its bytes come from, where its replies go, and its clock.
#[derive(Debug, Drop)]
pub struct Visit<S, K, C> {
    /// Where its bytes come from.
    pub input: S,
    /// Where its replies go.
    pub output: K,
    /// What time it is for it.
    pub clock: C,
}
