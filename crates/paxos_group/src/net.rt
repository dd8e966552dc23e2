//! The net of a group: its replicas, and the messages that the weather holds back.

ghost use Rattle.std.specs.Prelude.{◌≡◌, ℕ, ◌<◌, ◌≤◌, length, Some, None, IfOk, IfSome, IfNone, IfErr, OnOk, OnErr, ◌*◌, ⊤, true};
ghost use Rattle.slab.specs.Slab.{get, slab_len};
ghost use Rattle.paxos_core.specs.Standing.{answer};
ghost use Rattle.paxos_core.specs.Proposing.{is_promised, stage_of};
ghost use Rattle.paxos_core.specs.declared.proposer.Stage.{Stage};
ghost use Rattle.paxos_group.specs.declared.fault.GroupFault.{GroupFault};
ghost use Rattle.paxos_group.specs.Scene.{number_at, kept_at, IsMoved, IsKept, GainsAtMost, scene};
ghost use Rattle.paxos_group.specs.Sound.{Attempt, IsSent, IsNotLost};
ghost use Rattle.paxos_group.specs.Steps.{Came, IsAwaited, IsCounted, Goes, Tells, IsFreshOf, Reaches, ReachesBelow, IsAt};
ghost use Rattle.paxos_group.specs.Steps.{StaysCalm, Doubts, Endures};

use crate::fault::GroupFault;
use crate::letter::{Letter, fate_of, is_for_replica};
use nfs3_types::{Copies, NoMemory};
use outside::{Fate, Weather};
use paxos_core::{Acceptor, Ballot, Message, Proposer, Stage};
use slab::Slab;
use std::alloc::Global;

/// The most messages that are held back; one more is lost.
pub(crate) const MOST_HELD: usize = 64;

/// The replicas of a store, and the messages between them and their group that are held back.
#[derive(Debug, Drop)]
pub(crate) struct Net<V> {
    pub store: u32,
    pub acceptors: Vec<Acceptor<V>>,
    pub held: Slab<Letter<V>>,
}

/// Brings a message to a replica, and takes its answer.
fn take_in<V: Copies>(
    alloc: Global,
    acceptors: &mut Vec<Acceptor<V>>,
    replica: usize,
    message: &Message<V>,
) -> Result<Option<Message<V>>, NoMemory>
    requires { replica < length acceptors.old.items }
    ensures moved { OnOk result (IsMoved acceptors.old.items acceptors.new.items replica
        message.now) }
    ensures answer { IfOk result (λ reply. reply ≡ answer (number_at acceptors.old.items replica)
        (kept_at acceptors.old.items replica) message.now) }
    ensures stays { OnErr result (IsKept acceptors.old.items acceptors.new.items) }
{
    let acceptor = &mut acceptors[replica];
    acceptor.on_message(alloc, message)
}

/// Holds a message back, while there is room; else it is lost.
fn hold<V: Drop>(held: &mut Slab<Letter<V>>, letter: Letter<V>) -> Result<(), NoMemory>
    ensures gains { GainsAtMost held.old held.new letter }
    ensures within { slab_len held.old ≤ MOST_HELD → slab_len held.new ≤ MOST_HELD }
{
    if held.len() < MOST_HELD {
        held.insert(letter)?;
    }
    Ok(())
}

/// Takes the held message of this place, in the order of keys.
fn take_held<V: Drop>(held: &mut Slab<Letter<V>>, place: u64) -> Option<Letter<V>>
    ensures others { (key : ℕ) (l : Letter V) → get held.new key ≡ Some l →
        get held.old key ≡ Some l }
    ensures known { IfSome result (λ l. (key : ℕ) × (get held.old key ≡ Some l)) }
    ensures fewer { slab_len held.new ≤ slab_len held.old }
    ensures none { slab_len held.old ≤ place → (result ≡ None) }
    ensures unchanged { IfNone result (held.new ≡ held.old) }
{
    let (key, _) = held.iter().nth(place as usize)?;
    held.try_remove(key)
}

/// Brings an answer to the proposer.
fn tell<V: Copies>(
    alloc: Global,
    proposer: &mut Proposer<V>,
    message: &Message<V>,
) -> Result<(), NoMemory>
    ensures came { Came message.now proposer.old proposer.new }
    ensures counted { OnOk result (IsAwaited proposer.old message.now →
        IsCounted proposer.new message.now) }
{
    proposer.on_message(alloc, message)?;
    Ok(())
}

impl<V: Copies> Net<V> {
    /// Sends the answer of a replica: the weather decides whether it comes to the proposer.
    fn answer<W: Weather>(
        &mut self,
        alloc: Global,
        proposer: &mut Proposer<V>,
        weather: &mut W,
        letter: Letter<V>,
    ) -> Result<(), NoMemory>
        ensures endures { Endures W.told weather.old weather.new }
        ensures goes { Goes (λ x. (letter.replica < length self.old.acceptors.items) × IsSent x
            (kept_at self.old.acceptors.items) letter.replica letter.message)
            (scene W.told weather.old self.old proposer.old)
            (scene W.told weather.new self.new proposer.new) }
        ensures tells { OnOk result (Tells letter.message letter.replica
            (scene W.told weather.old self.old proposer.old)
            (scene W.told weather.new self.new proposer.new)) }
    {
        match fate_of(self.store, letter.replica, &letter.message, weather) {
            Fate::Lose => Ok(()),
            Fate::Hold => hold(&mut self.held, letter),
            Fate::Deliver => tell(alloc, proposer, &letter.message),
            Fate::Repeat => {
                tell(alloc, proposer, &letter.message)?;
                tell(alloc, proposer, &letter.message)
            }
        }
    }

    /// Brings a message to a replica, and sends its answer.
    fn bring<W: Weather>(
        &mut self,
        alloc: Global,
        proposer: &mut Proposer<V>,
        weather: &mut W,
        replica: u32,
        message: &Message<V>,
    ) -> Result<(), NoMemory>
        requires { replica < length self.old.acceptors.items }
        ensures endures { Endures W.told weather.old weather.new }
        ensures goes { Goes (λ x. IsSent x (kept_at self.old.acceptors.items) replica message.now ×
            IsNotLost x replica message.now)
            (scene W.told weather.old self.old proposer.old)
            (scene W.told weather.new self.new proposer.new) }
        ensures reaches { OnOk result (Reaches 1 message.now replica
            (scene W.told weather.old self.old proposer.old)
            (scene W.told weather.new self.new proposer.new)) }
    {
        match take_in(alloc, &mut self.acceptors, replica as usize, message)? {
            Some(reply) => self.answer(
                alloc,
                proposer,
                weather,
                Letter {
                    replica,
                    message: reply,
                },
            ),
            None => Ok(()),
        }
    }

    /// Lets a held message come, where the weather has it so: where it answers k, the k-th by rising key in
    /// the slab, from 0, which gives the key of a message that came to the next one that is held back.
    fn let_stray<W: Weather>(
        &mut self,
        alloc: Global,
        proposer: &mut Proposer<V>,
        weather: &mut W,
    ) -> Result<(), NoMemory>
        ensures endures { Endures W.told weather.old weather.new }
        ensures goes { Goes (λ x. ⊤)
            (scene W.told weather.old self.old proposer.old)
            (scene W.told weather.new self.new proposer.new) }
        ensures idle { slab_len self.old.held ≡ 0 →
            (self.new ≡ self.old) × (W.told.to_come weather.new ≡ W.told.to_come weather.old) ×
            (proposer.new ≡ proposer.old) }
    {
        let Some(place) = weather.stray(self.held.len() as u64) else {
            return Ok(());
        };
        let Some(letter) = take_held(&mut self.held, place) else {
            return Ok(());
        };
        if !is_for_replica(&letter.message) {
            return tell(alloc, proposer, &letter.message);
        }
        if letter.replica as usize >= self.acceptors.len() {
            return Ok(());
        }
        self.bring(alloc, proposer, weather, letter.replica, &letter.message)
    }

    /// Sends a message to a replica, after a held one where the weather lets one come: the weather decides whether it
    /// comes to the replica.
    fn send<W: Weather>(
        &mut self,
        alloc: Global,
        proposer: &mut Proposer<V>,
        weather: &mut W,
        replica: u32,
        message: &Message<V>,
    ) -> Result<(), NoMemory>
        requires { replica < length self.old.acceptors.items }
        ensures endures { Endures W.told weather.old weather.new }
        ensures goes { Goes (λ x. IsFreshOf x message.now)
            (scene W.told weather.old self.old proposer.old)
            (scene W.told weather.new self.new proposer.new) }
        ensures reaches { OnOk result (Reaches 2 message.now replica
            (scene W.told weather.old self.old proposer.old)
            (scene W.told weather.new self.new proposer.new)) }
    {
        self.let_stray(alloc, proposer, weather)?;
        match fate_of(self.store, replica, message, weather) {
            Fate::Lose => Ok(()),
            Fate::Hold => {
                let message = message.copy(alloc)?;
                hold(&mut self.held, Letter { replica, message })
            }
            Fate::Deliver => self.bring(alloc, proposer, weather, replica, message),
            Fate::Repeat => {
                self.bring(alloc, proposer, weather, replica, message)?;
                self.bring(alloc, proposer, weather, replica, message)
            }
        }
    }

    /// Sends a message to all replicas, in rising number.
    pub(crate) fn send_all<W: Weather>(
        &mut self,
        alloc: Global,
        replicas: u32,
        proposer: &mut Proposer<V>,
        weather: &mut W,
        message: &Message<V>,
    ) -> Result<(), NoMemory>
        requires { length self.old.acceptors.items ≡ replicas }
        ensures endures { Endures W.told weather.old weather.new }
        ensures goes { Goes (λ x. IsFreshOf x message.now)
            (scene W.told weather.old self.old proposer.old)
            (scene W.told weather.new self.new proposer.new) }
        ensures reaches { OnOk result (ReachesBelow replicas message.now
            (scene W.told weather.old self.old proposer.old)
            (scene W.told weather.new self.new proposer.new)) }
    {
        for replica in 0..replicas {
            self.send(alloc, proposer, weather, replica, message)?;
        }
        Ok(())
    }

    /// Asks all replicas for their promise. Ok where a majority promised.
    fn ask<W: Weather>(
        &mut self,
        alloc: Global,
        replicas: u32,
        proposer: &mut Proposer<V>,
        weather: &mut W,
        index: u64,
        ballot: Ballot,
    ) -> Result<(), GroupFault>
        requires { length self.old.acceptors.items ≡ replicas }
        ensures endures { Endures W.told weather.old weather.new }
        ensures goes { Goes (IsAt index ballot)
            (scene W.told weather.old self.old proposer.old)
            (scene W.told weather.new self.new proposer.new) }
        ensures promised { OnOk result (is_promised proposer.new ≡ true) }
        ensures calm { OnOk result (StaysCalm (2 * replicas) (IsAt index ballot)
            (scene W.told weather.old self.old proposer.old)
            (scene W.told weather.new self.new proposer.new)) }
        ensures doubt { IfErr result (λ fault. fault ≡ GroupFault.Doubt →
            Doubts replicas (2 * replicas) (IsAt index ballot)
            (scene W.told weather.old self.old proposer.old)
            (scene W.told weather.new self.new proposer.new)) }
    {
        let message = Message::Ask { index, ballot };
        let Ok(()) = self.send_all(alloc, replicas, proposer, weather, &message) else {
            return Err(GroupFault::NoMemory);
        };
        match proposer.stage() {
            Stage::Waiting => Err(GroupFault::Doubt),
            Stage::Promised | Stage::Chosen => Ok(()),
        }
    }

    /// Puts the proposer's value to all replicas. Ok where a majority accepted it.
    fn put<W: Weather>(
        &mut self,
        alloc: Global,
        replicas: u32,
        proposer: &mut Proposer<V>,
        weather: &mut W,
        index: u64,
        ballot: Ballot,
    ) -> Result<(), GroupFault>
        requires count { length self.old.acceptors.items ≡ replicas }
        requires promised { is_promised proposer.old ≡ true }
        ensures endures { Endures W.told weather.old weather.new }
        ensures goes { Goes (IsAt index ballot)
            (scene W.told weather.old self.old proposer.old)
            (scene W.told weather.new self.new proposer.new) }
        ensures chosen { OnOk result (stage_of proposer.new ≡ Stage.Chosen) }
        ensures calm { OnOk result (StaysCalm (2 * replicas) (IsAt index ballot)
            (scene W.told weather.old self.old proposer.old)
            (scene W.told weather.new self.new proposer.new)) }
        ensures doubt { IfErr result (λ fault. fault ≡ GroupFault.Doubt →
            Doubts replicas (2 * replicas) (IsAt index ballot)
            (scene W.told weather.old self.old proposer.old)
            (scene W.told weather.new self.new proposer.new)) }
    {
        let Ok(value) = proposer.value().copy(alloc) else {
            return Err(GroupFault::NoMemory);
        };
        let message = Message::Put {
            index,
            ballot,
            value,
        };
        let Ok(()) = self.send_all(alloc, replicas, proposer, weather, &message) else {
            return Err(GroupFault::NoMemory);
        };
        match proposer.stage() {
            Stage::Chosen => Ok(()),
            Stage::Waiting | Stage::Promised => Err(GroupFault::Doubt),
        }
    }

    /// Makes the attempt of a proposer. Ok where its value is chosen.
    pub(crate) fn attempt<W: Weather>(
        &mut self,
        alloc: Global,
        replicas: u32,
        proposer: &mut Proposer<V>,
        weather: &mut W,
        index: u64,
        ballot: Ballot,
    ) -> Result<(), GroupFault>
        requires { length self.old.acceptors.items ≡ replicas }
        ensures endures { Endures W.told weather.old weather.new }
        ensures goes { Goes (IsAt index ballot)
            (scene W.told weather.old self.old proposer.old)
            (scene W.told weather.new self.new proposer.new) }
        ensures chosen { OnOk result (stage_of proposer.new ≡ Stage.Chosen) }
        ensures calm { OnOk result (StaysCalm (4 * replicas) (IsAt index ballot)
            (scene W.told weather.old self.old proposer.old)
            (scene W.told weather.new self.new proposer.new)) }
        ensures doubt { IfErr result (λ fault. fault ≡ GroupFault.Doubt →
            Doubts replicas (4 * replicas) (IsAt index ballot)
            (scene W.told weather.old self.old proposer.old)
            (scene W.told weather.new self.new proposer.new)) }
    {
        match self.ask(alloc, replicas, proposer, weather, index, ballot) {
            Ok(()) => self.put(alloc, replicas, proposer, weather, index, ballot),
            Err(fault) => Err(fault),
        }
    }
}
