//! The laws of Paxos, each the contract of a function that does nothing.

ghost use Rattle.std.specs.Prelude.{◌≡◌, ℕ, ◌<◌, ◌^◌, List, ◌∷◌, ◌++◌, Some};
ghost use Rattle.paxos_core.specs.Ballot.{rank};
ghost use Rattle.paxos_core.specs.Majority.{IsMajority};
ghost use Rattle.paxos_core.specs.Proposing.{Proposing, begins, stage_of, value_of};
ghost use Rattle.paxos_core.specs.World.{Event, World, start, run};
ghost use Rattle.paxos_core.specs.Votes.{votes_after, IsChosen, HasOwnBallots, CanChoose, IsHighestVote};
ghost use Rattle.paxos_core.specs.Messages.{told_all, HasPromised, IsStage, IsPreferred};
ghost use Rattle.paxos_core.specs.declared.proposer.Stage.TheVariants.{Chosen};

use crate::ballot::Ballot;
use crate::message::Message;

/// Whatever is lost, repeated, reordered or restarted among `n` replicas, at most one value is chosen at
/// an index, and it stays chosen, as long as no two proposers of an index share a ballot.
pub fn agreement<V>()
    ensures agree { (n i : ℕ) (x y : V) (events more : List (Event V)) →
        HasOwnBallots (events ++ more) →
        IsChosen n (votes_after n events) i x → IsChosen n (votes_after n (events ++ more)) i y → x ≡ y }
    ensures stays { (n i : ℕ) (x : V) (events more : List (Event V)) →
        IsChosen n (votes_after n events) i x → IsChosen n (votes_after n (events ++ more)) i x }

    // What a proposer calls chosen is chosen, and what a replica keeps is its vote of the highest ballot.
    ensures known { (n i b : ℕ) (p : Proposing V) (events : List (Event V)) → HasOwnBallots events →
        (run n events start).proposers i b ≡ Some p → stage_of p ≡ Chosen → IsChosen n (votes_after n events) i (value_of p) }
    ensures kept { (n r i : ℕ) (events : List (Event V)) → HasOwnBallots events →
        IsHighestVote (votes_after n events) r i ((run n events start).standings r i).accepted }

    // The law is not empty: any value may be chosen.
    ensures possible { (v : V) → CanChoose v }
{}

/// How far a proposal is, and what it proposes, after any list of messages, the newest first.
pub fn proposals<V>()
    ensures stage { (n i : ℕ) (b : Ballot) (own : V) (messages : List (Message V)) →
        IsStage n i b messages (stage_of (told_all (begins n i b own) messages)) }

    // The value up to the majority-th promise, which may be the last message, and then for good.
    ensures value { (n i : ℕ) (b : Ballot) (own : V) (last : Message V)
        (messages : List (Message V)) →
        (IsMajority n (HasPromised i b messages) → ⊥) →
        IsPreferred n i b own (last ∷ messages) (value_of (told_all (begins n i b own) (last ∷ messages))) }
    ensures settled { (n i : ℕ) (b : Ballot) (own : V) (later messages : List (Message V)) →
        IsMajority n (HasPromised i b messages) →
        value_of (told_all (begins n i b own) (later ++ messages)) ≡ value_of (told_all (begins n i b own) messages) }
{}

/// Ballots of equal rank are equal: ranks order them all.
pub fn ranks()
    ensures { (b c : Ballot) → b.proposer < 2 ^ 32 → c.proposer < 2 ^ 32 → rank b ≡ rank c → b ≡ c }
{}
