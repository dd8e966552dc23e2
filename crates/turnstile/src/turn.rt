//! The turnstile, and its passes.

ghost use Rattle.std.specs.Prelude.{◌≡◌, ◌<◌, true, false, IfOk};
ghost use Rattle.turnstile.specs.Growth.{GrowsBy};
ghost use Rattle.turnstile.specs.Passes.{Borders, IsPassOf, KeepsBoth, Took, above, below, first, holding, resting};
ghost use Rattle.turnstile.specs.Passes.{HasAll};

use crate::lock::{Lock, Place};
use nfs3_types::NoMemory;
use page_types::Journaled;
use std::alloc::Global;
use std::marker::Model;
use std::sync::Wait;

/// What passes share: one state, which one pass at a time takes. Contracts see which turnstile it is, and what
/// the stores of its state began with.
#[derive(Drop)]
pub struct Turn<S: Journaled> {
    lock: Lock<S>,
}

impl<S: Journaled> Model for Turn<S> {
    ghost use Rattle.turnstile.specs.Passes.{TurnState};

    ghost Value = { TurnState };

    ghost view = { λ turn. record {
      table = turn.lock.table.shared.table_id;
      origin = S.origin turn.lock.table.shared.key.value;
    } };
}

/// The right to take the state, of a range of numbers: the identity of one worker. Contracts see what it knows.
#[derive(Drop)]
pub struct Pass<S: Journaled> {
    seat: Place<S>,
}

impl<S: Journaled> Model for Pass<S> {
    ghost use Rattle.std.specs.Prelude.{◌≡◌, ◌<◌, []};
    ghost use Rattle.turnstile.specs.Passes.{PassState};
    ghost use Rattle.turnstile.specs.Views.{state_of, slots_of};

    ghost Value = { PassState };

    ghost view = { λ pass. state_of pass.seat.table_id pass.seat.me.0 };

    ghost invariant = { λ pass. (pass.seat.me.0.claims ≡ [])
        × (pass.seat.me.0.low < pass.seat.me.0.high)
        × (pass.seat.me.1 ≡ slots_of pass.seat.me.0.holds) };
}

impl<S: Journaled> Turn<S> {
    /// A turnstile over this state, and the pass that has every number and has seen the state's journal.
    pub fn new(alloc: Global, state: S) -> Result<(Turn<S>, Pass<S>), NoMemory>
        ensures origin { IfOk result (λ made. made.0.origin ≡ S.origin state) }
        ensures pass { IfOk result (λ made. made.1 ≡ first made.0 (S.journal state)) }
    {
        let (lock, seat) = Lock::new(alloc, state)?;
        Ok((Turn { lock }, Pass { seat }))
    }

    /// Waits until no pass holds the turn, and takes the state. It takes no memory.
    pub fn take<R: Wait>(&self, rt: &R, pass: &mut Pass<S>) -> S
        requires mine { IsPassOf self.now pass.old }
        requires free { pass.old.holds ≡ false }
        ensures pass { pass.new ≡ holding pass.old (S.journal result) }
        ensures took { Took S.journal S.origin pass.old result }
    {
        self.lock.take(rt, &mut pass.seat)
    }

    /// Gives the state back. Its journal is the one that was taken, and newer entries that are of the pass's
    /// number, or were settled late. It takes no memory.
    pub fn give(&self, pass: &mut Pass<S>, state: S)
        requires mine { IsPassOf self.now pass.old }
        requires holds { pass.old.holds ≡ true }
        requires origin { S.origin state ≡ self.now.origin }
        requires grows { GrowsBy pass.old.number pass.old.seen (S.journal state) }
        ensures { pass.new ≡ resting pass.old (S.journal state) }
    {
        self.lock.give(&mut pass.seat, state);
    }

    /// Splits off a pass with the numbers from there on. It takes no memory and waits for nobody.
    pub fn split(&self, pass: &mut Pass<S>, from: u32) -> Pass<S>
        requires mine { IsPassOf self.now pass.old }
        requires range { (pass.old.number < from) × (from < pass.old.end) }
        ensures kept { pass.new ≡ below from pass.old }
        ensures off { result ≡ above from pass.old }
    {
        Pass {
            seat: self.lock.split(&mut pass.seat, from),
        }
    }

    /// Takes in the numbers of a pass that borders. It takes no memory and waits for nobody.
    pub fn join(&self, pass: &mut Pass<S>, other: Pass<S>)
        requires mine { IsPassOf self.now pass.old × IsPassOf self.now other }
        requires free { (pass.old.holds ≡ false) × (other.holds ≡ false) }
        requires border { Borders pass.old other }
        ensures { KeepsBoth pass.old other pass.new }
    {
        self.lock.join(&mut pass.seat, other.seat);
    }

    /// Ends the turnstile, and gives the state. It takes no memory and waits for nobody.
    pub fn close(self, pass: Pass<S>) -> S
        requires mine { IsPassOf self pass }
        requires free { pass.holds ≡ false }
        requires all { HasAll pass }
        ensures { Took S.journal S.origin pass result }
    {
        self.lock.close(pass.seat)
    }
}
