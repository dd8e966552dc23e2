//! What waits in a hall.

/// What stands in the queue.
#[derive(Drop)]
pub(crate) enum Placed<V: Drop> {
    /// A visit.
    Visit(V),
    /// A mark of the end.
    End,
}

/// What was taken.
#[derive(Debug, Drop)]
pub enum Next<V: Drop> {
    /// A visit.
    Visit(V),
    /// Nothing: the queue was empty.
    Empty,
    /// A mark of the end.
    End,
}
