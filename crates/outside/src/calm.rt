//! The calm weather.

ghost use Rattle.std.specs.Prelude.{◌≡◌, None};
ghost use Rattle.outside.specs.declared.weather.Fate.{Fate};
ghost use Rattle.outside.specs.Weather.{MetFate, MetNone, calm_told};

use crate::weather::{Fate, MessageName, Weather};

/// A weather that delivers each message. It tells everything.
#[derive(Clone, Copy, Debug, PartialEq, Eq)]
pub struct Calm;

impl Weather for Calm {
    ghost told = { calm_told };

    fn fate(&mut self, message: MessageName) -> Fate
        ensures met { MetFate calm_told self.old self.new message result }

        // It delivers each message.
        ensures exact { result ≡ Fate.Deliver }
    {
        let _message = message;
        Fate::Deliver
    }

    fn stray(&mut self, held: u64) -> Option<u64>
        ensures met { MetNone calm_told self.old self.new }
        ensures exact { result ≡ None }
    {
        let _held = held;
        None
    }
}
