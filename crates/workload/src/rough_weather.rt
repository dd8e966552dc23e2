//! A weather that draws the fates of messages.

ghost use Rattle.std.specs.Prelude.{◌≡◌, ◌<◌, ◌+◌, ◌%◌, ◌^◌, ◌≤◌, ℕ};
ghost use Rattle.outside.specs.BadFates.{counts_at, no_counts};
ghost use Rattle.outside.specs.Weather.{MetFate, MetNone};
ghost use Rattle.workload.specs.Draws.{draw_of, drawn};
ghost use Rattle.workload.specs.Rough.{IsClear, after_stray, drawn_fate, fate_of, met, rough_told, state_after, stray_of};

use crate::choice::{draw_of, drawn};
use outside::{BadFates, Fate, MessageName, Weather};
use std::marker::Model;

/// A weather that loses each message to or from a replica numbered below `lost`, in every store, and
/// draws the fate of each other one where it is rough. It does not tell its fates to come.
#[derive(Debug, Drop)]
pub struct RoughWeather {
    state: u64,
    lost: u32,
    rough: u32,
    bad: BadFates,
}

impl Model for RoughWeather {
    ghost use Rattle.std.specs.Prelude.{◌<◌, ◌^◌};
    ghost use Rattle.workload.specs.Rough.{IsClear, Rough};

    ghost Value = { Rough };

    ghost view = { λ a. record { state = a.state; lost = a.lost; rough = a.rough; bad = a.bad } };

    ghost invariant = { λ a. (a.state < 2 ^ 31) × IsClear a.rough a.lost a.bad };
}

/// The fate that a draw gives.
fn drawn_fate(draw: u64) -> Fate
    ensures { result ≡ drawn_fate draw }
{
    match draw {
        0 => Fate::Lose,
        1 => Fate::Hold,
        2 => Fate::Repeat,
        _ => Fate::Deliver,
    }
}

impl RoughWeather {
    /// The weather of this number, in which the replicas numbered below `lost` are lost. It takes no memory.
    pub fn new(number: u64, lost: u32, rough: u32) -> RoughWeather
        ensures made { result ≡ record { state = (number + 1) % 2147483648; lost = lost; rough = rough; bad = no_counts } }
        ensures none_yet { (store replica : ℕ) → counts_at result.bad store replica ≡ 0 }
    {
        RoughWeather {
            state: (number % 2_147_483_648 + 1) % 2_147_483_648,
            lost,
            rough,
            bad: BadFates::new(),
        }
    }

    /// How many bad fates the messages of a store and a replica met.
    pub fn bad_fates(&self, store: u32, replica: u32) -> u64
        ensures { result ≡ counts_at self.now.bad store replica }
    {
        self.bad.count_of(store, replica)
    }

    /// Where the weather is not rough, no message of a replica that is not lost was lost or held: this
    /// holds of every weather of this kind, whatever was done with it.
    pub fn clear_where_calm(&self)
        ensures { IsClear self.now.rough self.now.lost self.now.bad }
    {
        let _bad = &self.bad;
    }

    /// One draw.
    fn draw(&mut self) -> u64
        ensures draw { result ≡ draw_of self.new.state }
        ensures next { self.new ≡ record self.old { state = drawn self.old.state } }
    {
        self.state = drawn(self.state);
        draw_of(self.state)
    }

    /// The fate of a message, drawn where it is.
    fn drawn_for(&mut self, message: MessageName) -> Fate
        ensures fate { result ≡ fate_of self.old message }
        ensures next { self.new ≡ record self.old { state = state_after self.old message } }
    {
        if message.replica < self.lost {
            return Fate::Lose;
        }
        if self.rough == 0 {
            return Fate::Deliver;
        }
        let draw = self.draw();
        drawn_fate(draw % u64::from(self.rough))
    }
}

impl Weather for RoughWeather {
    ghost told = { rough_told };

    fn fate(&mut self, message: MessageName) -> Fate
        ensures met { MetFate rough_told self.old self.new message result }

        // It loses those messages, draws for the others where it is rough, and counts.
        ensures exact { result ≡ fate_of self.old message }
        ensures later { self.new ≡ met self.old message }
    {
        let fate = self.drawn_for(message);
        self.bad.count(message, fate);
        fate
    }

    fn stray(&mut self, held: u64) -> Option<u64>
        ensures met { MetNone rough_told self.old self.new }
        ensures exact { result ≡ stray_of self.old held }
        ensures later { self.new ≡ after_stray self.old held }
    {
        if held == 0 {
            return None;
        }
        if self.rough == 0 {
            return None;
        }
        let draw = self.draw();
        if draw % 4 == 0 { Some(0) } else { None }
    }
}
