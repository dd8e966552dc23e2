//! The acceptor of one replica.

ghost use Rattle.std.specs.Prelude.{◌≡◌, ◌≢◌, ℕ, ◌<◌, ◌↔◌, if◌then◌else◌, length, IsNone, IsSomeAnd, MatchOption, IfOk, OnOk};
ghost use Rattle.std.specs.Prelude.{OnErr};
ghost use Rattle.paxos_core.specs.Standing.{row_at};

use crate::ballot::Ballot;
use crate::message::{Message, accepted_copy};
use nfs3_types::{Copies, NoMemory};
use std::alloc::Global;

/// What an acceptor keeps at one index.
#[derive(Debug, PartialEq, Eq, Drop)]
pub struct Standing<V> {
    /// The ballot below which it takes part in nothing; round 0 of proposer 0, which is below none,
    /// where it promised nothing.
    pub promised: Ballot,
    /// The value that it accepted last, and under which ballot.
    pub accepted: Option<(Ballot, V)>,
}

/// The acceptor of one replica, at every index. It has a row for each index up to the highest that it promised or accepted
/// anything at, since a log has no gaps.
#[derive(Debug, Drop)]
pub struct Acceptor<V> {
    replica: u32,
    rows: Vec<Standing<V>>,
}

/// Has a row for this index, and for each before it. A new one is blank.
fn reach<V: Copies>(rows: &mut Vec<Standing<V>>, index: u64) -> Result<usize, NoMemory>
    ensures place { IfOk result (λ place. place ≡ index) }
    ensures there { OnOk result (index < length rows.new.items) }
    ensures same { (i : ℕ) → row_at rows.new.items i ≡ row_at rows.old.items i }
{
    let place = index as usize;
    while rows.len() <= place {
        rows.push(Standing {
            promised: Ballot {
                round: 0,
                proposer: 0,
            },
            accepted: None,
        })?;
    }
    Ok(place)
}

impl<V: Copies> Acceptor<V> {
    ghost use Rattle.paxos_core.specs.Standing.{blank, index_of, asked_of, answer, with_message, IsNack};
    ghost use Rattle.paxos_core.specs.Ballot.{rank, is_below};
    ghost use Rattle.paxos_core.specs.Acceptor.{standing_of, replica_of};
    ghost use Rattle.paxos_core.specs.declared.message.Message.TheVariants.{Ask, Put, Nack};

    /// An acceptor that promised and accepted nothing. It takes no memory.
    pub fn new(alloc: Global, replica: u32) -> Acceptor<V>
        ensures replica { replica_of result ≡ replica }
        ensures blank { (i : ℕ) → standing_of result i ≡ blank }
    {
        Acceptor {
            replica,
            rows: Vec::new(alloc),
        }
    }

    /// Takes a message, and answers it.
    pub fn on_message(
        &mut self,
        alloc: Global,
        message: &Message<V>,
    ) -> Result<Option<Message<V>>, NoMemory>
        ensures answer { IfOk result
            (λ reply. reply ≡ answer (replica_of self.old) (standing_of self.old) message.now) }
        ensures none { IfOk result (λ reply. IsNone reply ↔ IsNone (asked_of message.now)) }
        ensures nack { let promised = (standing_of self.old (index_of message.now)).promised in
            IfOk result (λ reply. IsNack reply ↔ IsSomeAnd (asked_of message.now) (λ ballot. rank ballot < rank promised)) }

        ensures keeps { OnOk result ((i : ℕ) →
            standing_of self.new i ≡ with_message (standing_of self.old) message.now i) }
        ensures stays { OnErr result ((i : ℕ) → standing_of self.new i ≡ standing_of self.old i) }
        ensures replica { replica_of self.new ≡ replica_of self.old }
    {
        match message {
            Message::Ask { index, ballot } => self.on_ask(alloc, *index, *ballot),
            Message::Put {
                index,
                ballot,
                value,
            } => self.on_put(alloc, *index, *ballot, value),
            _ => Ok(None),
        }
    }

    /// What it keeps at the index, or `None` where it promised and accepted nothing there.
    pub fn standing(&self, index: u64) -> Option<&Standing<V>>
        ensures { MatchOption result (standing_of self.now index ≡ blank)
            (λ standing. standing.now ≡ standing_of self.now index) }
    {
        self.rows.get(index as usize)
    }

    /// The refusal of a ballot at the index, where a higher one was promised.
    fn refusal(&self, index: u64, ballot: Ballot) -> Option<Message<V>>
        ensures { let promised = (standing_of self.now index).promised in
            result ≡ (if is_below ballot promised then Some (Nack (replica_of self.now) index promised) else None) }
    {
        let promised = self.standing(index)?.promised;
        if promised.rank() <= ballot.rank() {
            return None;
        }
        Some(Message::Nack {
            replica: self.replica,
            index,
            promised,
        })
    }

    /// A copy of what it accepted at the index.
    fn accepted(&self, alloc: Global, index: u64) -> Result<Option<(Ballot, V)>, NoMemory>
        ensures { IfOk result (λ accepted. accepted ≡ (standing_of self.now index).accepted) }
    {
        match self.standing(index) {
            Some(standing) => accepted_copy(alloc, &standing.accepted),
            None => Ok(None),
        }
    }

    fn on_ask(
        &mut self,
        alloc: Global,
        index: u64,
        ballot: Ballot,
    ) -> Result<Option<Message<V>>, NoMemory>
        ensures answer { IfOk result
            (λ reply. reply ≡ answer (replica_of self.old) (standing_of self.old)
            (Ask index ballot)) }
        ensures keeps { OnOk result ((i : ℕ) →
            standing_of self.new i ≡ with_message (standing_of self.old) (Ask index ballot) i) }
        ensures stays { OnErr result ((i : ℕ) → standing_of self.new i ≡ standing_of self.old i) }
        ensures replica { replica_of self.new ≡ replica_of self.old }
    {
        if let Some(nack) = self.refusal(index, ballot) {
            return Ok(Some(nack));
        }
        let accepted = self.accepted(alloc, index)?;
        self.promise(index, ballot)?;
        Ok(Some(Message::Promise {
            replica: self.replica,
            index,
            ballot,
            accepted,
        }))
    }

    /// Promises the ballot at the index, and keeps what it accepted there.
    fn promise(&mut self, index: u64, ballot: Ballot) -> Result<(), NoMemory>
        ensures here { OnOk result
            (standing_of self.new index ≡ record (standing_of self.old index) {
              promised =
                  ballot;
            }) }
        ensures others { OnOk result ((i : ℕ) → i ≢ index →
            standing_of self.new i ≡ standing_of self.old i) }
        ensures stays { OnErr result ((i : ℕ) → standing_of self.new i ≡ standing_of self.old i) }
        ensures replica { replica_of self.new ≡ replica_of self.old }
    {
        let place = reach(&mut self.rows, index)?;
        self.rows[place].promised = ballot;
        Ok(())
    }

    fn on_put(
        &mut self,
        alloc: Global,
        index: u64,
        ballot: Ballot,
        value: &V,
    ) -> Result<Option<Message<V>>, NoMemory>
        ensures answer { IfOk result
            (λ reply. reply ≡ answer (replica_of self.old) (standing_of self.old)
            (Put index ballot value.now)) }
        ensures keeps { OnOk result ((i : ℕ) →
            standing_of self.new i ≡ with_message (standing_of self.old)
            (Put index ballot value.now) i) }
        ensures stays { OnErr result ((i : ℕ) → standing_of self.new i ≡ standing_of self.old i) }
        ensures replica { replica_of self.new ≡ replica_of self.old }
    {
        if let Some(nack) = self.refusal(index, ballot) {
            return Ok(Some(nack));
        }
        let kept = value.copy(alloc)?;
        let place = reach(&mut self.rows, index)?;
        self.rows[place] = Standing {
            promised: ballot,
            accepted: Some((ballot, kept)),
        };
        Ok(Some(Message::Ack {
            replica: self.replica,
            index,
            ballot,
        }))
    }
}
