//! Messages under way between the group and a replica.

ghost use Rattle.std.specs.Prelude.{◌≡◌};
ghost use Rattle.paxos_group.specs.Scene.{weather_at};
ghost use Rattle.paxos_group.specs.Letters.{kind_of, name_of, is_to_replica};
ghost use Rattle.paxos_group.specs.Steps.{Met, Endures};

use outside::{Fate, MessageKind, MessageName, Weather};
use paxos_core::Message;

/// A message under way, to this replica or from it.
#[derive(Debug, Drop)]
pub(crate) struct Letter<V> {
    /// The replica that it is for, or that it is from.
    pub replica: u32,
    /// What it says.
    pub message: Message<V>,
}

/// The name by which the weather knows a message between the group and a replica.
fn name_of<V>(store: u32, replica: u32, message: &Message<V>) -> MessageName
    ensures { result ≡ name_of store replica message.now }
{
    let (to_replica, kind, index, round) = match message {
        Message::Ask { index, ballot } => (true, MessageKind::Ask, *index, ballot.round),
        Message::Promise { index, ballot, .. } => (
            false,
            MessageKind::Promise,
            *index,
            ballot.round,
        ),
        Message::Put { index, ballot, .. } => (true, MessageKind::Put, *index, ballot.round),
        Message::Ack { index, ballot, .. } => (false, MessageKind::Ack, *index, ballot.round),
        Message::Nack {
            index,
            promised,
            ..
        } => (false, MessageKind::Nack, *index, promised.round),
    };
    MessageName {
        store,
        replica,
        to_replica,
        kind,
        index,
        round,
    }
}

/// Whether a replica receives the message.
pub(crate) fn is_for_replica<V>(message: &Message<V>) -> bool
    ensures { result ≡ is_to_replica message.now }
{
    matches!(message, Message::Ask { .. } | Message::Put { .. })
}

/// What becomes of a message between the group of this store and this replica.
pub(crate) fn fate_of<V, W: Weather>(
    store: u32,
    replica: u32,
    message: &Message<V>,
    weather: &mut W,
) -> Fate
    ensures endures { Endures W.told weather.old weather.new }
    ensures met { Met (weather_at W.told weather.old store) (weather_at W.told weather.new store)
        replica (kind_of message.now) result }
{
    weather.fate(name_of(store, replica, message))
}
