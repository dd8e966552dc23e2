//! The hall, and its passes.

ghost use Rattle.std.specs.Prelude.{◌≡◌, ◌≢◌, ◌<◌, ◌-◌, true, false, IfOk, IfErr, OnOk, OnErr, MatchBool};
ghost use Rattle.crossbeam_queue.specs.Passes.{ruled_capacity};
ghost use Rattle.hall.specs.Passes.{Full, HandedOver, Joined, Marked, Told, first, fresh, split_off};
ghost use Rattle.hall.specs.declared.places.Next.TheVariants.{Empty};

use crate::moves::Moves;
use crate::places::{Next, Placed};
use crate::rule::{Cut, Fair, Hands, Takes, Tally};
use crossbeam_queue::{Pass, RuledArrayQueue};
use nfs3_types::NoMemory;
use std::alloc::Global;
use std::marker::Model;
use std::sync::Wait;

/// How many places a hall has.
const PLACES: usize = 64;

/// A queue of 64 places in which visits, and marks of the end, wait to be taken. Contracts see which one it is.
#[derive(Drop)]
pub struct Hall<V: Drop> {
    queue: RuledArrayQueue<Placed<V>, Tally, Fair>,
    moves: Moves,
    ghost room: { ruled_capacity queue ≡ 64 },
}

impl<V: Drop> Model for Hall<V> {
    ghost use Rattle.atomic_table.specs.Seated.{TableId};

    ghost Value = { TableId };

    ghost view = { λ hall. hall.queue.table.shared.table_id };
}

/// The right to hand over and to take: one worker's count. Contracts see what it tells.
#[derive(Drop)]
pub struct HallPass<V: Drop> {
    pass: Pass<Placed<V>, Tally>,
    splits: u32,
}

impl<V: Drop> Model for HallPass<V> {
    ghost use Rattle.std.specs.Prelude.{◌≡◌, ◌<◌, []};
    ghost use Rattle.hall.specs.Passes.{HallPassState};
    ghost use Rattle.hall.specs.Counts.{state_of};

    ghost Value = { HallPassState };

    ghost view = { λ p. state_of p.pass.table_id p.splits p.pass.me.0.client };

    ghost invariant = { λ p. (p.pass.me.1 ≡ []) × (p.splits < p.pass.me.0.client.parts) };
}

impl<V: Drop> Hall<V> {
    /// An empty hall, and its first pass, from which one pass a worker can be split off.
    pub fn new(alloc: Global, workers: u32) -> Result<(Hall<V>, HallPass<V>), NoMemory>
        ensures { IfOk result (λ made. made.1 ≡ first made.0 workers) }
    {
        let (queue, pass) = RuledArrayQueue::ruled(alloc, PLACES)?;
        let hall = Hall {
            queue,
            moves: Moves::new(),
        };
        let pass = HallPass {
            pass,
            splits: workers,
        };
        Ok((hall, pass))
    }

    /// Splits off a pass that has handed over and taken nothing. There is no place for one only where as many were
    /// split off as there are workers.
    pub fn split(&self, pass: &mut HallPass<V>) -> Result<HallPass<V>, NoMemory>
        requires mine { pass.old.hall ≡ self.now }
        ensures off { IfOk result (λ other. other ≡ fresh self.now) }
        ensures kept { OnOk result (pass.new ≡ split_off pass.old) }
        ensures err { OnErr result (pass.new ≡ pass.old) }
        ensures none_left { OnErr result (pass.old.splits ≡ 0) }
    {
        if pass.splits == 0 {
            return Err(NoMemory);
        }
        pass.splits -= 1;
        let other = self.queue.another::<Cut>(&mut pass.pass);
        Ok(HallPass {
            pass: other,
            splits: 0,
        })
    }

    /// Takes in another pass, with its numbers. It takes no memory.
    pub fn join(&self, pass: &mut HallPass<V>, other: HallPass<V>)
        requires mine { (pass.old.hall ≡ self.now) × (other.hall ≡ self.now) }
        ensures { Joined pass.old other pass.new }
    {
        pass.splits = pass.splits.saturating_add(other.splits);
        self.queue.absorb::<Cut>(&mut pass.pass, other.pass);
    }

    /// Hands a visit over, or gives it back where the queue is full.
    pub fn hand<R: Wait>(&self, rt: &R, pass: &mut HallPass<V>, visit: V) -> Result<(), V>
        requires mine { pass.old.hall ≡ self.now }
        ensures ok { OnOk result (HandedOver pass.old pass.new) }
        ensures err { OnErr result (pass.new ≡ pass.old) }
        ensures full { OnErr result (Full pass.old) }
        ensures back { IfErr result (λ same. same ≡ visit) }
    {
        match self
            .queue
            .push_as::<Hands, R>(rt, &mut pass.pass, Placed::Visit(visit))
        {
            Ok(()) => {
                self.moves.tell(rt);
                Ok(())
            }
            Err(Placed::Visit(back)) => Err(back),
            Err(Placed::End) => unreachable!(),
        }
    }

    /// Hands a mark of the end over. False where the queue is full.
    pub fn hand_end<R: Wait>(&self, rt: &R, pass: &mut HallPass<V>) -> bool
        requires mine { pass.old.hall ≡ self.now }
        ensures marked { MatchBool result (Marked pass.old pass.new) (pass.new ≡ pass.old) }
        ensures full { result ≡ false → Full pass.old }
    {
        match self
            .queue
            .push_as::<Hands, R>(rt, &mut pass.pass, Placed::End)
        {
            Ok(()) => {
                self.moves.tell(rt);
                true
            }
            Err(_) => false,
        }
    }

    /// Takes what stands first. The pass into which all others were joined learns at `Empty` that it took all that it
    /// handed over.
    pub fn next<R: Wait>(&self, rt: &R, pass: &mut HallPass<V>) -> Next<V>
        requires mine { pass.old.hall ≡ self.now }
        ensures { Told result pass.old pass.new }
    {
        match self.queue.pop_as::<Takes, R>(rt, &mut pass.pass) {
            Some(Placed::Visit(visit)) => {
                self.moves.tell(rt);
                Next::Visit(visit)
            }
            Some(Placed::End) => {
                self.moves.tell(rt);
                Next::End
            }
            None => Next::Empty,
        }
    }

    /// Takes what stands first, and sleeps while nothing is there.
    pub fn wait_next<R: Wait>(&self, rt: &R, pass: &mut HallPass<V>) -> Next<V>
        requires mine { pass.old.hall ≡ self.now }
        ensures told { Told result pass.old pass.new }
        ensures some { result ≢ Empty }
    {
        for _ in rt.forever() {
            let seen = self.moves.seen(rt);
            match self.next(rt, pass) {
                Next::Empty => self.moves.wait_past(rt, seen),
                some => return some,
            }
        }
        unreachable!()
    }

    /// Hands a visit over, and sleeps while the queue is full.
    pub fn wait_hand<R: Wait>(&self, rt: &R, pass: &mut HallPass<V>, visit: V)
        requires mine { pass.old.hall ≡ self.now }
        ensures { HandedOver pass.old pass.new }
    {
        let mut left = visit;
        for _ in rt.forever() {
            let seen = self.moves.seen(rt);
            match self.hand(rt, pass, left) {
                Ok(()) => return,
                Err(back) => left = back,
            }
            self.moves.wait_past(rt, seen);
        }
        unreachable!()
    }

    /// Hands a mark of the end over, and sleeps while the queue is full.
    pub fn wait_hand_end<R: Wait>(&self, rt: &R, pass: &mut HallPass<V>)
        requires mine { pass.old.hall ≡ self.now }
        ensures { Marked pass.old pass.new }
    {
        for _ in rt.forever() {
            let seen = self.moves.seen(rt);
            if self.hand_end(rt, pass) {
                return;
            }
            self.moves.wait_past(rt, seen);
        }
        unreachable!()
    }
}
