//! The rule of the turnstile, and its kinds of step.

ghost use Rattle.std.specs.Prelude.{ℕ};

use crate::view::View;
use atomic_table::{Join, Play, Split, TableRule};
use page_types::Journaled;
use std::marker::{Brand, PhantomData};
use std::snapshot::Snapshot;

/// The rule.
pub(crate) struct Law<S: Journaled> {
    of: PhantomData<S>,
}

impl<S: Journaled> TableRule<Option<S>, View, Snapshot<S>> for Law<S> {
    ghost use Rattle.turnstile.specs.Rules.{TurnRule};
    ghost use Rattle.turnstile.specs.Views.{whole};

    ghost holds = { λ key s. TurnRule S.journal S.origin (S.origin key.value) s };

    ghost first = { λ key. whole (S.origin key.value) (S.journal key.value) };
}

/// A swap of 1 into the word: it takes the state, or misses it.
pub(crate) struct Take<S: Journaled> {
    of: PhantomData<S>,
}

impl<S: Journaled> Play<Option<S>, View> for Take<S> {
    ghost use Rattle.turnstile.specs.Rules.{Takes};

    ghost then = { λ s v found w. Takes S.journal S.origin v found w };
}

/// A swap of 0 into the word: it gives the state back.
pub(crate) struct Give<S: Journaled> {
    of: PhantomData<S>,
}

impl<S: Journaled> Play<Option<S>, View> for Give<S> {
    ghost use Rattle.turnstile.specs.Rules.{Gives};

    ghost then = { λ s v found w. Gives S.journal v w };
}

/// A load: it cashes the claims of two passes that were joined.
pub(crate) struct Look;

impl<S: Journaled> Play<Option<S>, View> for Look {
    ghost use Rattle.turnstile.specs.Rules.{Looks};

    ghost then = { λ s v found w. Looks v w };
}

/// Where a range of numbers is cut. Each call picks it.
pub(crate) trait Cut {
    ghost from: { ℕ };
}

impl Cut for Brand {
    ghost from = { 0 };
}

/// The lower part stays, and the upper is split off.
pub(crate) struct At<C: Cut> {
    of: PhantomData<C>,
}

impl<C: Cut> Split<View> for At<C> {
    ghost use Rattle.turnstile.specs.Views.{below, above};

    ghost left = { below C.from };

    ghost right = { above C.from };
}

/// Both ranges, and the longer journal.
pub(crate) struct Whole;

impl Join<View> for Whole {
    ghost use Rattle.turnstile.specs.Views.{joined, spent};

    ghost both = { joined };

    ghost spent = { spent };
}
