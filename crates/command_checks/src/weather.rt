//! The weather of a number.

use anyhow::Result;
use outside::{Fate, MessageKind, MessageName, Weather};
use std::alloc::Global;
use workload::RoughWeather;

/// A message to this replica of store 0.
fn message(replica: u32) -> MessageName {
    MessageName {
        store: 0,
        replica,
        to_replica: true,
        kind: MessageKind::Put,
        index: 0,
        round: 1,
    }
}

/// What is said of a fate.
fn fate_text(fate: Fate) -> &'static str {
    match fate {
        Fate::Deliver => "deliver ",
        Fate::Lose => "lose ",
        Fate::Hold => "hold ",
        Fate::Repeat => "repeat ",
    }
}

/// The fates of so many messages to the replicas 0 and 1 in turn, and how many of them were bad at 0, at 1 and at 2.
pub fn fates(alloc: Global, number: u64, lost: u32, rough: u32, count: u32) -> Result<String> {
    let mut weather = RoughWeather::new(number, lost, rough);
    let mut text = String::new(alloc);
    for k in 0..count {
        text.push_str(fate_text(weather.fate(message(k % 2))))?;
    }
    let bad = [
        weather.bad_fates(0, 0),
        weather.bad_fates(0, 1),
        weather.bad_fates(0, 2),
    ];
    let [first, second, third] = bad;
    Ok(format!(in alloc; "{text}bad {first} {second} {third}")?)
}

/// Which message comes in so many turns, where none, one and two are held in turn.
pub fn strays(alloc: Global, number: u64, rough: u32, count: u32) -> Result<String> {
    let mut weather = RoughWeather::new(number, 0, rough);
    let mut text = String::from_str(alloc, "comes")?;
    for k in 0..count {
        match weather.stray(u64::from(k % 3)) {
            Some(place) => text.push_str(&format!(in alloc; " {place}")?)?,
            None => text.push_str(" none")?,
        }
    }
    Ok(text)
}
