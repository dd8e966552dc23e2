//! The ballots that proposals are made under.

ghost use Rattle.std.specs.Prelude.{◌≡◌};
ghost use Rattle.paxos_core.specs.Ballot.{rank};

/// A ballot: a round, and the proposer that made it, so that proposers never share one. A higher
/// round is a higher ballot, and in one round the higher proposer is.
#[derive(Clone, Copy, Debug, PartialEq, Eq, PartialOrd, Ord)]
pub struct Ballot {
    /// The attempt that it belongs to.
    pub round: u64,
    /// Who proposes under it.
    pub proposer: u32,
}

impl Ballot {
    /// The ballot as one number, which orders ballots: one is higher where its rank is.
    pub fn rank(self) -> u128
        ensures { result ≡ rank self }
    {
        u128::from(self.round) * 0x1_0000_0000 + u128::from(self.proposer)
    }
}
