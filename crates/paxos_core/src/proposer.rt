//! The proposer of one value at one index, under one ballot.

ghost use Rattle.std.specs.Prelude.{◌≡◌, if◌then◌else◌, IfOk, OnOk, OnErr};
ghost use Rattle.paxos_core.specs.Majority.{is_majority};
ghost use Rattle.paxos_core.specs.Proposing.{begins, told, stage_of, value_of, better};
ghost use Rattle.paxos_core.specs.declared.message.Message.TheVariants.{Promise, Ack};

use crate::ballot::Ballot;
use crate::message::{Message, accepted_copy};
use nfs3_types::{Copies, NoMemory};
use std::alloc::Global;
use std::marker::Model;

/// How far a proposal is.
#[derive(Clone, Copy, Debug, PartialEq, Eq)]
pub enum Stage {
    /// Fewer than a majority of the replicas promised.
    Waiting,
    /// A majority promised: the value is settled, and may be put.
    Promised,
    /// A majority accepted the value: it is chosen.
    Chosen,
}

/// The proposer of one value at one index, under one ballot. A contract sees it as a `Proposing`.
#[derive(Debug, Drop)]
pub struct Proposer<V> {
    index: u64,
    ballot: Ballot,
    own: V,
    best: Option<(Ballot, V)>,
    heard: Vec<bool>,
    acked: Vec<bool>,
}

impl<V> Model for Proposer<V> {
    ghost use Rattle.paxos_core.specs.Proposing.{Proposing};

    ghost Value = { Proposing V };

    ghost view = { λ p. record {
      index = p.index;
      ballot = p.ballot;
      own = p.own;
      best =
          p.best;
      heard = p.heard.items;
      acked = p.acked.items;
    } };
}

impl<V: Copies> Proposer<V> {
    /// A proposer that heard nothing yet. Its `Ask` is for its user to send.
    pub fn new(
        alloc: Global,
        index: u64,
        ballot: Ballot,
        replicas: u32,
        value: V,
    ) -> Result<Proposer<V>, NoMemory>
        ensures { IfOk result (λ proposer. proposer ≡ begins replicas index ballot value) }
    {
        let heard = vec![in alloc; false; replicas as usize]?;
        let acked = vec![in alloc; false; replicas as usize]?;
        Ok(Proposer {
            index,
            ballot,
            own: value,
            best: None,
            heard,
            acked,
        })
    }

    /// Takes a message, and says how far the proposal is. Only a promise or an ack of its own index and
    /// ballot tells it anything.
    pub fn on_message(&mut self, alloc: Global, message: &Message<V>) -> Result<Stage, NoMemory>
        ensures told { OnOk result (self.new ≡ told self.old message.now) }
        ensures stage { IfOk result (λ stage. stage ≡ stage_of self.new) }
        ensures stays { OnErr result (self.new ≡ self.old) }
    {
        match message {
            Message::Promise {
                replica,
                index,
                ballot,
                accepted,
            } => self.on_promise(alloc, *replica, *index, *ballot, accepted)?,
            Message::Ack {
                replica,
                index,
                ballot,
            } => self.on_ack(*replica, *index, *ballot),
            _ => {}
        }
        Ok(self.stage())
    }

    /// The value of the proposal: until a majority promised, as the promises so far have it.
    pub fn value(&self) -> &V
        ensures { result.now ≡ value_of self.now }
    {
        match &self.best {
            Some((_, value)) => value,
            None => &self.own,
        }
    }

    /// How far the proposal is.
    pub fn stage(&self) -> Stage
        ensures { result ≡ stage_of self.now }
    {
        if !is_majority(&self.heard) {
            Stage::Waiting
        } else if is_majority(&self.acked) {
            Stage::Chosen
        } else {
            Stage::Promised
        }
    }

    fn on_promise(
        &mut self,
        alloc: Global,
        replica: u32,
        index: u64,
        ballot: Ballot,
        accepted: &Option<(Ballot, V)>,
    ) -> Result<(), NoMemory>
        ensures told { OnOk result
            (self.new ≡ told self.old (Promise replica index ballot accepted.now)) }
        ensures stays { OnErr result (self.new ≡ self.old) }
    {
        let is_heard = self.heard.get(replica as usize).copied().unwrap_or(true);
        if index != self.index
            || ballot.rank() != self.ballot.rank()
            || is_heard
            || is_majority(&self.heard)
        {
            return Ok(());
        }
        if is_better(accepted, &self.best) {
            self.best = accepted_copy(alloc, accepted)?;
        }
        self.heard[replica as usize] = true;
        Ok(())
    }

    fn on_ack(&mut self, replica: u32, index: u64, ballot: Ballot)
        ensures { self.new ≡ told self.old (Ack replica index ballot) }
    {
        if index != self.index || ballot.rank() != self.ballot.rank() || !is_majority(&self.heard) {
            return;
        }
        if (replica as usize) < self.acked.len() {
            self.acked[replica as usize] = true;
        }
    }
}

/// Whether more than half of the marks are true.
fn is_majority(marks: &[bool]) -> bool
    ensures { result ≡ is_majority marks.now }
{
    let count = marks.iter().filter(|mark| **mark).count();
    marks.len() - count < count
}

/// Whether the first accepted value is of a higher ballot than the second.
fn is_better<V>(accepted: &Option<(Ballot, V)>, best: &Option<(Ballot, V)>) -> bool
    ensures { better best.now accepted.now ≡ (if result then accepted.now else best.now) }
{
    match (accepted, best) {
        (Some((ballot, _)), Some((highest, _))) => highest.rank() < ballot.rank(),
        (Some(_), None) => true,
        _ => false,
    }
}
