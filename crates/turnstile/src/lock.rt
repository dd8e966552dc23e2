//! The lock below the turnstile: one word, and one slot for the state.

ghost use Rattle.std.specs.Prelude.{◌≡◌, ◌<◌, true, false, [], ◌∷◌, IfOk, None};
ghost use Rattle.turnstile.specs.Growth.{GrowsBy};
ghost use Rattle.turnstile.specs.Views.{Border, above, below, holding, resting, whole};
ghost use Rattle.turnstile.specs.Rules.{Bears, Found, TookIn, Takes};

use crate::rule::{At, Cut, Give, Law, Look, Take, Whole};
use crate::view::View;
use atomic_table::{Seat, Table};
use nfs3_types::NoMemory;
use page_types::Journaled;
use std::alloc::Global;
use std::marker::Brand;
use std::snapshot::Snapshot;
use std::sync::Wait;
use std::thread;

/// A way to the lock.
pub(crate) type Place<S> = Seat<Option<S>, View>;

/// A word, which is 1 while the state is out, and a slot for the state.
#[derive(Drop)]
pub(crate) struct Lock<S: Journaled> {
    table: Table<Option<S>, View, Snapshot<S>, Law<S>, Global>,
    ghost shape: { (table.shared.table_id.words ≡ 1) × (table.shared.table_id.slots ≡ 1) },
}

impl<S: Journaled> Lock<S> {
    /// A lock over this state, and the way to it that has every number.
    pub(crate) fn new(alloc: Global, state: S) -> Result<(Lock<S>, Place<S>), NoMemory>
        ensures mine { IfOk result (λ t. t.1.table_id ≡ t.0.table.shared.table_id) }
        ensures origin { IfOk result (λ t. S.origin t.0.table.shared.key.value ≡ S.origin state) }
        ensures view { IfOk result (λ t. t.1.me ≡ (whole (S.origin state) (S.journal state), [])) }
    {
        let about = Snapshot::of(&state);
        let mut slots = Vec::with_capacity(alloc, 1)?;
        slots.push(Some(state))?;
        match Table::new(alloc, &[0], slots, &about) {
            Ok((table, seat)) => Ok((Lock { table }, seat)),
            Err(_) => Err(NoMemory),
        }
    }

    fn try_take(&self, seat: &mut Place<S>) -> u64
        requires mine { seat.old.table_id ≡ self.now.table.shared.table_id }
        requires free { (seat.old.me.0.holds ≡ false) × (seat.old.me.1 ≡ []) }
        requires some { seat.old.me.0.low < seat.old.me.0.high }
        ensures mine { seat.new.table_id ≡ seat.old.table_id }
        ensures takes { Takes S.journal S.origin seat.old.me result seat.new.me }
    {
        self.table.shared.swap::<Take<S>>(seat, 0, 1)
    }

    /// Waits until the state is there, and takes it.
    pub(crate) fn take<R: Wait>(&self, rt: &R, seat: &mut Place<S>) -> S
        requires mine { seat.old.table_id ≡ self.now.table.shared.table_id }
        requires free { (seat.old.me.0.holds ≡ false) × (seat.old.me.1 ≡ []) }
        requires some { seat.old.me.0.low < seat.old.me.0.high }
        ensures mine { seat.new.table_id ≡ seat.old.table_id }
        ensures view { seat.new.me ≡ (holding seat.old.me.0 (S.journal result), (0, None) ∷ []) }
        ensures found { Found S.journal S.origin seat.old.me.0 result }
    {
        for _ in rt.forever() {
            if self.try_take(seat) == 0 {
                match self.table.shared.exchange(seat, 0, None) {
                    Some(state) => return state,
                    None => unreachable!(),
                }
            }
            thread::yield_now();
        }
        unreachable!()
    }

    /// Gives the state back.
    pub(crate) fn give(&self, seat: &mut Place<S>, state: S)
        requires mine { seat.old.table_id ≡ self.now.table.shared.table_id }
        requires holds { (seat.old.me.0.holds ≡ true) × (seat.old.me.1 ≡ (0, None) ∷ []) }
        requires some { seat.old.me.0.low < seat.old.me.0.high }
        requires origin { S.origin state ≡ seat.old.me.0.origin }
        requires grows { GrowsBy seat.old.me.0.low seat.old.me.0.seen (S.journal state) }
        ensures mine { seat.new.table_id ≡ seat.old.table_id }
        ensures view { seat.new.me ≡ (resting seat.old.me.0 (S.journal state), []) }
    {
        let None = self.table.shared.exchange(seat, 0, Some(state)) else {
            unreachable!()
        };
        self.table.shared.swap::<Give<S>>(seat, 0, 0);
    }

    fn split_at<C: Cut>(&self, seat: &mut Place<S>, from: u32) -> Place<S>
        requires mine { seat.old.table_id ≡ self.now.table.shared.table_id }
        requires range { (seat.old.me.0.low < from) × (from < seat.old.me.0.high) }
        requires cut { from ≡ C.from }
        ensures mine { (seat.new.table_id ≡ seat.old.table_id) × (result.table_id ≡ seat.old.table_id) }
        ensures kept { seat.new.me ≡ (below from seat.old.me.0, seat.old.me.1) }
        ensures off { result.me ≡ (above from seat.old.me.0, []) }
    {
        self.table.shared.split_seat::<At<C>>(seat)
    }

    /// Splits off the numbers from there on.
    pub(crate) fn split(&self, seat: &mut Place<S>, from: u32) -> Place<S>
        requires mine { seat.old.table_id ≡ self.now.table.shared.table_id }
        requires range { (seat.old.me.0.low < from) × (from < seat.old.me.0.high) }
        ensures mine { (seat.new.table_id ≡ seat.old.table_id) × (result.table_id ≡ seat.old.table_id) }
        ensures kept { seat.new.me ≡ (below from seat.old.me.0, seat.old.me.1) }
        ensures off { result.me ≡ (above from seat.old.me.0, []) }
    {
        self.split_at::<Brand>(seat, from)
    }

    /// Takes in the numbers of another way, which border, and looks at the word: so it knows the entries of both.
    pub(crate) fn join(&self, seat: &mut Place<S>, other: Place<S>)
        requires mine { (seat.old.table_id ≡ self.now.table.shared.table_id) × (other.table_id ≡ self.now.table.shared.table_id) }
        requires free { (seat.old.me.0.holds ≡ false) × (seat.old.me.1 ≡ []) × (other.me.0.holds ≡ false) }
        requires empty { other.me.1 ≡ [] }
        requires some { (seat.old.me.0.low < seat.old.me.0.high) × (other.me.0.low < other.me.0.high) }
        requires border { Border seat.old.me.0 other.me.0 }
        ensures mine { seat.new.table_id ≡ seat.old.table_id }
        ensures empty { seat.new.me.1 ≡ [] }
        ensures took_in { TookIn seat.old.me.0 other.me.0 seat.new.me.0 }
    {
        self.table.shared.join_seat::<Whole>(seat, other);
        self.table.shared.load::<Look>(seat, 0);
    }

    /// Ends the lock, and gives the state.
    pub(crate) fn close(self, seat: Place<S>) -> S
        requires mine { seat.table_id ≡ self.table.shared.table_id }
        requires free { (seat.me.0.holds ≡ false) × (seat.me.1 ≡ []) }
        requires all { (seat.me.0.low ≡ 0) × (seat.me.0.high ≡ 4294967296) }
        ensures { Found S.journal S.origin seat.me.0 result }
    {
        let Lock { table } = self;
        let mut closed = table.close_with(seat);
        let state = closed.take(0);
        closed.free();
        match state {
            Some(state) => state,
            None => unreachable!(),
        }
    }
}
