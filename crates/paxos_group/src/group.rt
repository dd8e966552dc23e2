//! The group.

ghost use Rattle.std.specs.Prelude.{◌≡◌, ℕ, ◌*◌, ◌^◌, ◌<◌, ◌⊎◌, [], None, length, IfOk, IfErr, OnOk, OnErr, IsTrue, true, false};
ghost use Rattle.std.specs.Prelude.{is_some, option_copied, count_by};
ghost use Rattle.paxos_core.specs.declared.ballot.Ballot.{Ballot};
ghost use Rattle.paxos_core.specs.Acceptor.{standing_of};
ghost use Rattle.paxos_core.specs.Standing.{blank};
ghost use Rattle.paxos_group.specs.Scene.{kept_at, number_at};
ghost use Rattle.paxos_group.specs.Settling.{IsCount, Holds, IsSettled};
ghost use Rattle.paxos_group.specs.Ledger.{ledger, IsSettledNow, InDoubt, IsUnasked};
ghost use Rattle.paxos_group.specs.Moments.{Attempts, IsHeard, moment};
ghost use Rattle.paxos_group.specs.declared.fault.GroupFault.{GroupFault};

use crate::fault::Appended;
use crate::net::Net;
use crate::parts::Parts;
use nfs3_types::{Copies, NoMemory};
use outside::Weather;
use paxos_core::Acceptor;
use slab::Slab;
use std::alloc::Global;
use std::marker::Model;

/// A group of replicas that settles commands one after another, over any weather. A contract sees its
/// log, its pending command and what its replicas accepted.
#[derive(Debug, Drop)]
pub struct Group<V> {
    parts: Parts<V>,
}

impl<V> Model for Group<V> {
    ghost use Rattle.paxos_group.specs.Formed.{IsFormed};
    ghost use Rattle.paxos_group.specs.Settling.{Settling};
    ghost use Rattle.paxos_group.specs.Moments.{seen_of};

    ghost Value = { Settling V };

    ghost view = { λ group. seen_of group.parts };

    ghost invariant = { λ group. IsFormed group.parts.replicas group.parts.net
        group.parts.log.items group.parts.pending group.parts.round };
}

/// The acceptors of replicas that kept nothing yet.
fn acceptors_of<V: Copies>(alloc: Global, replicas: u32) -> Result<Vec<Acceptor<V>>, NoMemory>
    ensures count { IfOk result (λ acceptors. length acceptors.items ≡ replicas) }
    ensures numbers { IfOk result (λ acceptors. (r : ℕ) → r < replicas →
        number_at acceptors.items r ≡ r) }
    ensures nothing { IfOk result (λ acceptors. (r i : ℕ) → kept_at acceptors.items r i ≡ blank) }
{
    let mut acceptors = Vec::new(alloc);
    for replica in 0..replicas {
        acceptors.push(Acceptor::new(alloc, replica))?;
    }
    Ok(acceptors)
}

/// Whether the acceptor accepted a value at the index.
fn has_accepted<V: Copies>(acceptor: &Acceptor<V>, index: u64) -> bool
    ensures { result ≡ is_some (standing_of acceptor.now index).accepted }
{
    match acceptor.standing(index) {
        Some(standing) => standing.accepted.is_some(),
        None => false,
    }
}

/// How many of the acceptors accepted a value at the index.
fn accepted_count<V: Copies>(acceptors: &[Acceptor<V>], index: u64) -> usize
    ensures { result ≡ count_by (λ a. is_some (standing_of a index).accepted) acceptors.now }
{
    acceptors
        .iter()
        .filter(|acceptor| has_accepted(acceptor, index))
        .count()
}

impl<V: Copies> Group<V> {
    /// A group of three or five replicas of a store, with an empty log.
    pub fn new(alloc: Global, store: u32, replicas: u32) -> Result<Group<V>, NoMemory>
        requires { (replicas ≡ 3) ⊎ (replicas ≡ 5) }
        ensures { IfOk result (λ group. group ≡ record {
          store = store;
          replicas =
              replicas;
          accepted = [];
          log = [];
          pending = None;
          round = 1;
          held = 0;
        }) }
    {
        let acceptors = acceptors_of(alloc, replicas)?;
        Ok(Group {
            parts: Parts {
                replicas,
                net: Net {
                    store,
                    acceptors,
                    held: Slab::new(alloc),
                },
                log: Vec::new(alloc),
                pending: None,
                round: 1,
            },
        })
    }

    /// Appends a command. The pending command, where there is one, is proposed again first, and this one
    /// only once that is settled. A command whose outcome is in doubt is pending from then on.
    pub fn append<W: Weather>(&mut self, alloc: Global, command: &V, weather: &mut W) -> Appended
        requires round { self.old.round < 2 ^ 63 }
        requires next { length self.old.log < 2 ^ 63 }

        // What it leaves.
        ensures ok { OnOk result.own (IsSettledNow (ledger self.old) (ledger self.new) command.now
            result) }
        ensures in_doubt { IsTrue result.doubted →
            InDoubt result.late (ledger self.old) (ledger self.new) command.now }
        ensures unasked { OnErr result.own (result.doubted ≡ false →
            IsUnasked (ledger self.old) (ledger self.new) result) }
        ensures untouched { OnErr result.own (result.doubted ≡ false →
            (self.new ≡ self.old) × (weather.new ≡ weather.old)) }
        ensures doubt_is_doubted { IfErr result.own (λ fault. fault ≡ GroupFault.Doubt →
            result.doubted ≡ true) }

        // When it ends so: at most two attempts, of at most four fates for each replica.
        ensures attempts { Attempts W.told 8 (moment self.old weather.old)
            (moment self.new weather.new) result.own }
        ensures late_heard { IsTrue result.late → IsHeard W.told (moment self.old weather.old) }
    {
        self.parts.append(alloc, command, weather)
    }

    /// The round of the next attempt.
    pub fn round(&self) -> u64
        ensures { result ≡ self.now.round }
    {
        self.parts.round
    }

    /// The settled commands, from index 0 on.
    pub fn log(&self) -> &[V]
        ensures log { result.now ≡ self.now.log }
        ensures settled { (i : ℕ) → i < length self.now.log → IsSettled self.now i }
    {
        &self.parts.log
    }

    /// The command that may be settled already, where there is one.
    pub fn pending(&self) -> Option<&V>
        ensures { option_copied result ≡ self.now.pending }
    {
        self.parts.pending.as_ref()
    }

    /// How many replicas accepted the settled command of the index: a majority, under one ballot.
    pub fn holders(&self, index: u64) -> u32
        requires { index < length self.now.log }
        ensures count { IsCount self.now.replicas (λ r. (b : Ballot) × Holds self.now index r b)
            result }
        ensures majority { self.now.replicas < 2 * result }
        ensures settled { IsSettled self.now index }
    {
        accepted_count(&self.parts.net.acceptors, index) as u32
    }
}
