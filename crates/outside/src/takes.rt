//! Counting takes.

ghost use Rattle.std.specs.Prelude.{min};
ghost use Rattle.nfs3_types.specs.Count.{Counted};

/// How many takes gave at least one byte, after a take that gave `n`.
pub(crate) fn after_take(takes: u64, n: usize) -> u64
    ensures { Counted (min n 1) takes result }
{
    takes.saturating_add(n.min(1) as u64)
}
