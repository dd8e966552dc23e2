//! A weather over a list of fates.

ghost use Rattle.std.specs.Prelude.{◌≡◌, ℕ, None, drop};
ghost use Rattle.outside.specs.BadFates.{counts_at, no_counts, counted};
ghost use Rattle.outside.specs.ListWeather.{list_told, next_fate};
ghost use Rattle.outside.specs.Weather.{MetFate, MetNone};

use crate::bad_fates::BadFates;
use crate::weather::{Fate, MessageName, Weather};
use std::marker::Model;

/// A weather that gives the fates of a list, one after another, and delivers after the last one. It
/// lets no held message come. It tells everything.
#[derive(Debug, Drop)]
pub struct ListWeather {
    fates: Vec<Fate>,
    place: usize,
    bad: BadFates,
}

impl Model for ListWeather {
    ghost use Rattle.std.specs.Prelude.{drop};
    ghost use Rattle.outside.specs.ListWeather.{FateList};

    ghost Value = { FateList };

    ghost view = { λ a. record { to_come = drop a.place a.fates.items; bad = a.bad } };
}

/// The fate at a place, and the place after it.
fn draw(fates: &[Fate], place: usize) -> (Fate, usize)
    ensures fate { result.0 ≡ next_fate (drop place fates.now) }
    ensures later { drop result.1 fates.now ≡ drop 1 (drop place fates.now) }
{
    match fates.get(place) {
        Some(fate) => (*fate, place + 1),
        None => (Fate::Deliver, place),
    }
}

impl ListWeather {
    /// A weather that gives these fates. It takes no memory.
    pub fn new(fates: Vec<Fate>) -> ListWeather
        ensures made { result ≡ record { to_come = fates.items; bad = no_counts } }
        ensures none_yet { (store replica : ℕ) → counts_at result.bad store replica ≡ 0 }
    {
        ListWeather {
            fates,
            place: 0,
            bad: BadFates::new(),
        }
    }

    /// How many bad fates the messages of a store and a replica met.
    pub fn bad_fates(&self, store: u32, replica: u32) -> u64
        ensures { result ≡ counts_at self.now.bad store replica }
    {
        self.bad.count_of(store, replica)
    }
}

impl Weather for ListWeather {
    ghost told = { list_told };

    fn fate(&mut self, message: MessageName) -> Fate
        ensures met { MetFate list_told self.old self.new message result }

        // It gives the first fate, or delivers, and counts it.
        ensures exact { result ≡ next_fate self.old.to_come }
        ensures later { self.new.to_come ≡ drop 1 self.old.to_come }
        ensures counted { self.new.bad ≡ counted self.old.bad message result }
    {
        let (fate, place) = draw(&self.fates, self.place);
        self.place = place;
        self.bad.count(message, fate);
        fate
    }

    fn stray(&mut self, held: u64) -> Option<u64>
        ensures met { MetNone list_told self.old self.new }
        ensures exact { result ≡ None }
        ensures unchanged { self.new ≡ self.old }
    {
        let _held = held;
        None
    }
}
