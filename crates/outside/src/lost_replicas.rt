//! A weather that some replicas are lost in.

ghost use Rattle.std.specs.Prelude.{◌≡◌, ℕ, None, nat_lt, if◌then◌else◌};
ghost use Rattle.outside.specs.declared.weather.Fate.{Fate};
ghost use Rattle.outside.specs.BadFates.{counts_at, no_counts, counted};
ghost use Rattle.outside.specs.LostReplicas.{lost_told};
ghost use Rattle.outside.specs.Weather.{MetFate, MetNone};

use crate::bad_fates::BadFates;
use crate::weather::{Fate, MessageName, Weather};
use std::marker::Model;

/// A weather that loses each message to or from a replica numbered below `lost`, in every store, and
/// delivers all others. It lets no held message come. It does not tell its fates to come.
#[derive(Debug, Drop)]
pub struct LostReplicas {
    lost: u32,
    bad: BadFates,
}

impl Model for LostReplicas {
    ghost use Rattle.outside.specs.LostReplicas.{LostBelow};

    ghost Value = { LostBelow };

    ghost view = { λ a. record { lost = a.lost; bad = a.bad } };
}

impl LostReplicas {
    /// A weather in which the replicas numbered below `lost` are lost. It takes no memory.
    pub fn new(lost: u32) -> LostReplicas
        ensures made { result ≡ record { lost = lost; bad = no_counts } }
        ensures none_yet { (store replica : ℕ) → counts_at result.bad store replica ≡ 0 }
    {
        LostReplicas {
            lost,
            bad: BadFates::new(),
        }
    }

    /// How many bad fates the messages of a store and a replica met.
    pub fn bad_fates(&self, store: u32, replica: u32) -> u64
        ensures { result ≡ counts_at self.now.bad store replica }
    {
        self.bad.count_of(store, replica)
    }
}

impl Weather for LostReplicas {
    ghost told = { lost_told };

    fn fate(&mut self, message: MessageName) -> Fate
        ensures met { MetFate lost_told self.old self.new message result }

        // It loses those messages and no others, and counts them.
        ensures exact { result
            ≡ (if nat_lt message.replica self.old.lost then Fate.Lose else Fate.Deliver) }
        ensures counted { self.new ≡ record self.old { bad = counted self.old.bad message result } }
    {
        let fate = if message.replica < self.lost {
            Fate::Lose
        } else {
            Fate::Deliver
        };
        self.bad.count(message, fate);
        fate
    }

    fn stray(&mut self, held: u64) -> Option<u64>
        ensures met { MetNone lost_told self.old self.new }
        ensures exact { result ≡ None }
        ensures unchanged { self.new ≡ self.old }
    {
        let _held = held;
        None
    }
}
