//! Counts of what happened, and their laws.

ghost use Rattle.std.specs.Prelude.{◌≡◌, ◌<◌, ◌≤◌, ◌+◌, ◌-◌, ◌^◌, min, ℕ};
ghost use Rattle.nfs3_types.specs.Count.{Counted, RoseBy, one_more, sum_below};

/// One more, or where the count stands still.
pub fn one_more(count: u64) -> u64
    ensures exact { result ≡ one_more count }
    ensures never_falls { count ≤ result }
{
    count.saturating_add(1)
}

/// What counts in a row and sums of counts do. A count that rose by two numbers in a row rose by their
/// sum, and by no more where it rose by no more than each. Where none of many counts falls, and one
/// of them rose, their sum rose as much; and where each rose by a number, their sum rose by the sum of
/// these. A sum that stands still at the end of a count rises as the sum does.
pub fn counts_add_up()
    ensures in_a_row { (m n before mid now : ℕ) → RoseBy m before mid → RoseBy n mid now → RoseBy (m + n) before now }
    ensures counted { (m n before mid now : ℕ) → Counted m before mid → Counted n mid now → Counted (m + n) before now }
    ensures one { (many i n : ℕ) (before now : ℕ → ℕ) → i < many
        → ((k : ℕ) → k < many → before k ≤ now k) → RoseBy n (before i) (now i)
        → RoseBy n (sum_below many before) (sum_below many now) }
    ensures all { (many : ℕ) (by before now : ℕ → ℕ) → ((k : ℕ) → k < many → RoseBy (by k) (before k) (now k))
        → RoseBy (sum_below many by) (sum_below many before) (sum_below many now) }
    ensures still { (n before now : ℕ) → RoseBy n before now
        → RoseBy n (min before (2 ^ 64 - 1)) (min now (2 ^ 64 - 1)) }
{}
