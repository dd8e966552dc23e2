//! What a group is made of, and how it appends.

ghost use Rattle.std.specs.Prelude.{◌≡◌, ◌+◌, ◌^◌, ◌<◌, ◌≤◌, ◌⊎◌, [], ◌∷◌, ◌++◌, length, vec_len, vec_capacity, Some, None, IfOk};
ghost use Rattle.std.specs.Prelude.{OnOk, OnErr, IsTrue, true, false};
ghost use Rattle.paxos_core.specs.Proposing.{begins};
ghost use Rattle.paxos_group.specs.Sound.{ballot_of};
ghost use Rattle.paxos_group.specs.Formed.{IsFormed, list_of};
ghost use Rattle.paxos_group.specs.Ledger.{Leaves, ledger_of};
ghost use Rattle.paxos_group.specs.Moments.{Attempts, IsHeard, moment, seen_of};

use crate::fault::{Appended, GroupFault};
use crate::net::Net;
use nfs3_types::{Copies, NoMemory};
use outside::Weather;
use paxos_core::{Ballot, Proposer};
use std::alloc::Global;

/// The answer where memory ran out before the first message: nothing changed.
const UNASKED: Appended = Appended {
    late: false,
    doubted: false,
    own: Err(GroupFault::NoMemory),
};

/// What a group is made of.
#[derive(Debug, Drop)]
pub(crate) struct Parts<V> {
    pub replicas: u32,
    pub net: Net<V>,
    pub log: Vec<V>,
    pub pending: Option<V>,
    pub round: u64,
}

impl<V: Copies> Parts<V> {
    /// The index of the next command to be settled.
    fn next_index(&self) -> u64
        ensures { result ≡ length self.now.log.items }
    {
        self.log.len() as u64
    }

    /// A proposer of a value, that many indices and rounds ahead of the next attempt.
    fn proposer(&self, alloc: Global, ahead: u64, value: &V) -> Result<Proposer<V>, NoMemory>
        requires index { length self.now.log.items + ahead < 2 ^ 64 }
        requires round { self.now.round + ahead < 2 ^ 64 }
        ensures { IfOk result
            (λ proposer. proposer ≡ begins self.now.replicas (length self.now.log.items + ahead)
            (ballot_of (self.now.round + ahead)) value.now) }
    {
        let ballot = Ballot {
            round: self.round + ahead,
            proposer: 0,
        };
        let value = value.copy(alloc)?;
        let index = self.next_index() + ahead;
        Proposer::new(alloc, index, ballot, self.replicas, value)
    }

    /// Makes one attempt to settle a command at the next index; else it is pending.
    fn settle<W: Weather>(
        &mut self,
        alloc: Global,
        own: V,
        proposer: &mut Proposer<V>,
        weather: &mut W,
    ) -> Result<(), GroupFault>
        requires formed { IsFormed self.old.replicas self.old.net self.old.log.items None
            self.old.round ⊎ IsFormed self.old.replicas self.old.net self.old.log.items (Some own)
            self.old.round }
        requires proposer { proposer.old ≡ begins self.old.replicas (length self.old.log.items)
            (ballot_of self.old.round) own }
        requires room { vec_len self.old.log < vec_capacity self.old.log }
        requires round { self.old.round + 1 < 2 ^ 64 }
        ensures attempts { Attempts W.told 4 (moment (seen_of self.old) weather.old)
            (moment (seen_of self.new) weather.new) result }
        ensures formed { IsFormed self.new.replicas self.new.net self.new.log.items
            self.new.pending self.new.round }
        ensures log { OnOk result (self.new.log.items ≡ self.old.log.items ++ own ∷ []) }
        ensures none_pending { OnOk result (self.new.pending ≡ None) }
        ensures same_log { OnErr result (self.new.log.items ≡ self.old.log.items) }
        ensures pending { OnErr result (self.new.pending ≡ Some own) }
        ensures round { self.new.round ≡ self.old.round + 1 }
        ensures replicas { self.new.replicas ≡ self.old.replicas }
        ensures capacity { vec_capacity self.new.log ≡ vec_capacity self.old.log }
    {
        let index = self.next_index();
        let ballot = Ballot {
            round: self.round,
            proposer: 0,
        };
        match self
            .net
            .attempt(alloc, self.replicas, proposer, weather, index, ballot)
        {
            Ok(()) => {
                self.round += 1;
                self.log.push_reserved(own);
                self.pending = None;
                Ok(())
            }
            Err(fault) => {
                self.round += 1;
                self.pending = Some(own);
                Err(fault)
            }
        }
    }

    /// Appends where no command is pending.
    fn append_alone<W: Weather>(
        &mut self,
        alloc: Global,
        own: V,
        proposer: &mut Proposer<V>,
        weather: &mut W,
    ) -> Appended
        requires formed { IsFormed self.old.replicas self.old.net self.old.log.items None
            self.old.round }
        requires proposer { proposer.old ≡ begins self.old.replicas (length self.old.log.items)
            (ballot_of self.old.round) own }
        requires room { vec_len self.old.log < vec_capacity self.old.log }
        requires round { self.old.round + 1 < 2 ^ 64 }
        ensures attempts { Attempts W.told 8 (moment (seen_of self.old) weather.old)
            (moment (seen_of self.new) weather.new) result.own }
        ensures formed { IsFormed self.new.replicas self.new.net self.new.log.items
            self.new.pending self.new.round }
        ensures leaves { Leaves result.own result.doubted
            (record { log = self.old.log.items; pending = None; round = self.old.round })
            (ledger_of self.new) own result }
        ensures asked { OnErr result.own (result.doubted ≡ true) }
        ensures late_heard { IsTrue result.late →
            IsHeard W.told (moment (seen_of self.old) weather.old) }
    {
        match self.settle(alloc, own, proposer, weather) {
            Ok(()) => Appended {
                late: false,
                doubted: false,
                own: Ok(()),
            },
            Err(fault) => Appended {
                late: false,
                doubted: true,
                own: Err(fault),
            },
        }
    }

    /// Settles the pending command first, and appends once it is settled.
    fn append_after<W: Weather>(
        &mut self,
        alloc: Global,
        pending: V,
        late: &mut Proposer<V>,
        own: V,
        proposer: &mut Proposer<V>,
        weather: &mut W,
    ) -> Appended
        requires formed { IsFormed self.old.replicas self.old.net self.old.log.items (Some pending)
            self.old.round }
        requires late { late.old ≡ begins self.old.replicas (length self.old.log.items)
            (ballot_of self.old.round) pending }
        requires proposer { proposer.old ≡ begins self.old.replicas (length self.old.log.items + 1)
            (ballot_of (self.old.round + 1)) own }
        requires room { vec_len self.old.log + 1 < vec_capacity self.old.log }
        requires round { self.old.round + 2 < 2 ^ 64 }
        ensures attempts { Attempts W.told 8 (moment (seen_of self.old) weather.old)
            (moment (seen_of self.new) weather.new) result.own }
        ensures formed { IsFormed self.new.replicas self.new.net self.new.log.items
            self.new.pending self.new.round }
        ensures leaves { Leaves result.own result.doubted
            (record { log = self.old.log.items; pending = Some pending; round = self.old.round })
            (ledger_of self.new) own result }
        ensures asked { OnErr result.own (result.doubted ≡ true) }
        ensures late_heard { IsTrue result.late →
            IsHeard W.told (moment (seen_of self.old) weather.old) }
    {
        match self.settle(alloc, pending, late, weather) {
            Ok(()) => match self.settle(alloc, own, proposer, weather) {
                Ok(()) => Appended {
                    late: true,
                    doubted: false,
                    own: Ok(()),
                },
                Err(fault) => Appended {
                    late: true,
                    doubted: true,
                    own: Err(fault),
                },
            },
            Err(fault) => Appended {
                late: false,
                doubted: true,
                own: Err(fault),
            },
        }
    }

    /// How many commands are pending.
    fn ahead(&self) -> u64
        ensures { result ≡ length (list_of self.now.pending) }
    {
        match &self.pending {
            Some(_) => 1,
            None => 0,
        }
    }

    /// What an append of the command takes of memory: room in the log, a copy, and a proposer of it.
    fn prepare(&mut self, alloc: Global, command: &V) -> Result<(V, Proposer<V>), NoMemory>
        requires log { length self.old.log.items < 2 ^ 63 }
        requires round { self.old.round < 2 ^ 63 }
        ensures own { IfOk result (λ ready. ready.0 ≡ command.now) }
        ensures proposer { IfOk result
            (λ ready. ready.1 ≡ begins self.old.replicas
            (length self.old.log.items + length (list_of self.old.pending))
            (ballot_of (self.old.round + length (list_of self.old.pending))) command.now) }
        ensures room { OnOk result (vec_len self.new.log + 2 ≤ vec_capacity self.new.log) }
        ensures log { self.new.log.items ≡ self.old.log.items }
        ensures others { self.new ≡ record self.old { log = self.new.log } }
    {
        self.log.reserve(2)?;
        let own = command.copy(alloc)?;
        let ahead = self.ahead();
        let proposer = self.proposer(alloc, ahead, command)?;
        Ok((own, proposer))
    }

    /// Appends a command: the pending one is settled first.
    pub(crate) fn append<W: Weather>(
        &mut self,
        alloc: Global,
        command: &V,
        weather: &mut W,
    ) -> Appended
        requires formed { IsFormed self.old.replicas self.old.net self.old.log.items
            self.old.pending self.old.round }
        requires log { length self.old.log.items < 2 ^ 63 }
        requires round { self.old.round < 2 ^ 63 }
        ensures attempts { Attempts W.told 8 (moment (seen_of self.old) weather.old)
            (moment (seen_of self.new) weather.new) result.own }
        ensures formed { IsFormed self.new.replicas self.new.net self.new.log.items
            self.new.pending self.new.round }
        ensures leaves { Leaves result.own result.doubted (ledger_of self.old) (ledger_of self.new)
            command.now result }
        ensures untouched { OnErr result.own (result.doubted ≡ false → self.new.net ≡ self.old.net) }
        ensures not_asked { OnErr result.own (result.doubted ≡ false → weather.new ≡ weather.old) }
        ensures late_heard { IsTrue result.late →
            IsHeard W.told (moment (seen_of self.old) weather.old) }
    {
        let Ok((own, mut proposer)) = self.prepare(alloc, command) else {
            return UNASKED;
        };
        let Some(pending) = self.pending.take() else {
            return self.append_alone(alloc, own, &mut proposer, weather);
        };
        let Ok(mut late) = self.proposer(alloc, 0, &pending) else {
            self.pending = Some(pending);
            return UNASKED;
        };
        self.append_after(alloc, pending, &mut late, own, &mut proposer, weather)
    }
}
