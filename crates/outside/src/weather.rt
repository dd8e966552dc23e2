//! The weather: what becomes of the messages among the replicas of a store.

ghost use Rattle.std.specs.Prelude.{◌≡◌};
ghost use Rattle.outside.specs.Weather.{WeatherTold, MetFate, MetNone, is_bad};

/// Bad fates are counted apart for each store numbered below this.
pub const MOST_STORES: u32 = 16;

/// Bad fates are counted apart for each replica numbered below this.
pub const MOST_REPLICAS: u32 = 5;

/// The kinds of message of the Paxos protocol.
#[derive(Clone, Copy, Debug, PartialEq, Eq)]
pub enum MessageKind {
    /// A proposer asks a replica for its promise.
    Ask = 1,
    /// A replica promises.
    Promise = 2,
    /// A proposer puts a value to a replica.
    Put = 3,
    /// A replica acknowledges that it accepted a value.
    Ack = 4,
    /// A replica refuses, since it promised a higher ballot.
    Nack = 5,
}

/// Which message is under way.
#[derive(Clone, Copy, Debug, PartialEq, Eq)]
pub struct MessageName {
    /// The store whose replicas talk.
    pub store: u32,
    /// The replica that sends or receives.
    pub replica: u32,
    /// Whether the replica receives it.
    pub to_replica: bool,
    /// Its kind.
    pub kind: MessageKind,
    /// Its index in the store's log.
    pub index: u64,
    /// The round of its ballot.
    pub round: u64,
}

/// What becomes of a message.
#[derive(Clone, Copy, Debug, PartialEq, Eq)]
pub enum Fate {
    /// It comes once, at once.
    Deliver,
    /// It never comes.
    Lose,
    /// It is held back, and may come later.
    Hold,
    /// It comes twice.
    Repeat,
}

impl Fate {
    /// Whether it keeps the message from its receiver.
    pub fn is_bad(self) -> bool
        ensures { result ≡ is_bad self }
    {
        matches!(self, Fate::Lose | Fate::Hold)
    }
}

/// Decides what becomes of each message. A fate that loses or holds a message is a bad one.
pub trait Weather {
    /// What it tells: how many bad fates the messages of a store and a replica met; the fates to come,
    /// where it tells them, after the last of which all are `Deliver`; and whether every message of a
    /// store, replica and kind is lost.
    ghost told: { WeatherTold Self };

    /// The fate of a message.
    fn fate(&mut self, message: MessageName) -> Fate
        ensures met { MetFate told self.old self.new message result };

    /// Which of the `held` messages comes now, before a fresh one is sent: the k-th in the order in
    /// which they were held back, from 0, where k is below `held`; else none. Which one it is, or
    /// none, is free.
    fn stray(&mut self, held: u64) -> Option<u64>
        ensures met { MetNone told self.old self.new };
}

impl<W: Weather> Weather for &mut W {
    ghost told = { record {
      bad = λ weather. W.told.bad weather.now;
      to_come = λ weather. W.told.to_come weather.now;
      silent = λ weather. W.told.silent weather.now;
    } };

    fn fate(&mut self, message: MessageName) -> Fate {
        Weather::fate(&mut **self, message)
    }

    fn stray(&mut self, held: u64) -> Option<u64> {
        Weather::stray(&mut **self, held)
    }
}
