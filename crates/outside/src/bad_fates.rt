//! Counts of bad fates.

ghost use Rattle.std.specs.Prelude.{◌≡◌, ◌+◌, ◌*◌, ◌<◌, ℕ};
ghost use Rattle.outside.specs.BadFates.{place_of, counts_at, no_counts, counted};
ghost use Rattle.outside.specs.Weather.{Counts};

use crate::weather::{Fate, MOST_REPLICAS, MOST_STORES, MessageName};
use nfs3_types::count::one_more;
use std::marker::Model;

/// A place for each store and replica below the limits, and one that all others share.
const PLACES: usize = (MOST_STORES * MOST_REPLICAS + 1) as usize;

/// How many bad fates the messages of each store and replica met. Those that are not below the
/// limits share one count. A contract sees the counts in their places. It takes no memory.
#[derive(Debug, Drop)]
pub struct BadFates {
    counts: [u64; PLACES],
}

impl Model for BadFates {
    ghost use Rattle.std.specs.Prelude.{ℕ, List};

    ghost Value = { List ℕ };

    ghost view = { λ a. a.counts };
}

/// Where the count of a store and a replica stands.
#[tactic(auto, unfolding(crate::specs::BadFates::place_of))]
fn place_of(store: u32, replica: u32) -> usize
    ensures place { result ≡ place_of store replica }
    ensures within { result < PLACES }
{
    if store < MOST_STORES && replica < MOST_REPLICAS {
        (store * MOST_REPLICAS + replica) as usize
    } else {
        (MOST_STORES * MOST_REPLICAS) as usize
    }
}

impl BadFates {
    /// No bad fate yet.
    pub fn new() -> BadFates
        ensures empty { result ≡ no_counts }
        ensures none { (store replica : ℕ) → counts_at result store replica ≡ 0 }
    {
        BadFates {
            counts: [0; PLACES],
        }
    }

    /// Counts the fate of a message, where it is bad.
    pub fn count(&mut self, message: MessageName, fate: Fate)
        ensures exact { self.new ≡ counted self.old message fate }
        ensures counts { Counts (counts_at self.old) (counts_at self.new) message fate }
    {
        if fate.is_bad() {
            let place = place_of(message.store, message.replica);
            self.counts[place] = one_more(self.counts[place]);
        }
    }

    /// How many bad fates the messages of a store and a replica met.
    pub fn count_of(&self, store: u32, replica: u32) -> u64
        ensures { result ≡ counts_at self.now store replica }
    {
        self.counts[place_of(store, replica)]
    }
}
