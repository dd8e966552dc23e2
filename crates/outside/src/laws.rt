//! Laws of what the outside tells, each as the contract of a function that does nothing.

ghost use Rattle.std.specs.Prelude.{◌≡◌, ◌<◌, ◌≤◌, ◌+◌, ◌++◌, ℕ, List, [], IsTrue};
ghost use Rattle.nfs3_types.specs.Count.{Rose};
ghost use Rattle.outside.specs.declared.weather.Fate.{Fate};
ghost use Rattle.outside.specs.declared.weather.MessageName.{MessageName};
ghost use Rattle.outside.specs.Clock.{GaveMoments};
ghost use Rattle.outside.specs.Steps.{Composes};
ghost use Rattle.outside.specs.Told.{GaveBytes, GotBytes};
ghost use Rattle.outside.specs.Weather.{Counts, bad_fates, is_bad};

use crate::clock::Clock;
use crate::sink::Sink;
use crate::source::Source;
use crate::weather::{MOST_REPLICAS, MOST_STORES};

/// A source that stays as it is gave nothing in no take, and steps in a row gave their parts in a row, in
/// as many takes as both together.
pub fn bytes_compose<S: Source>()
    ensures nothing { (here : S) → GaveBytes S.told here here 0 [] }
    ensures in_a_row { (old mid now : S) (m n : ℕ) (p q : List ℕ)
        → GaveBytes S.told old mid m p → GaveBytes S.told mid now n q
        → GaveBytes S.told old now (m + n) (p ++ q) }
{}

/// A sink that stays as it is gained nothing, and steps in a row gained their parts in a row.
pub fn puts_compose<K: Sink>()
    ensures { Composes (GotBytes K.told) }
{}

/// A clock that stays as it is gave no moment, and steps in a row gave their moments in a row.
pub fn moments_compose<C: Clock>()
    ensures { Composes (GaveMoments C.told) }
{}

/// A weather's count of bad fates is the sum of those of its stores and replicas: it does not fall
/// where none of them falls, stays where they stay, and rises where a message below the limits met
/// a bad fate.
pub fn bad_fates_add_up()
    ensures never_falls { (before now : ℕ → ℕ → ℕ)
        → ((store replica : ℕ) → before store replica ≤ now store replica)
        → bad_fates before ≤ bad_fates now }
    ensures stays { (before now : ℕ → ℕ → ℕ)
        → ((store replica : ℕ) → store < MOST_STORES → replica < MOST_REPLICAS
        → now store replica ≡ before store replica)
        → bad_fates now ≡ bad_fates before }
    ensures rises { (before now : ℕ → ℕ → ℕ) (message : MessageName) (fate : Fate)
        → Counts before now message fate
        → IsTrue (is_bad fate) → message.store < MOST_STORES → message.replica < MOST_REPLICAS
        → Rose (bad_fates before) (bad_fates now) }
{}
