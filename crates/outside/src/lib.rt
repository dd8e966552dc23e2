//! What lies outside of the program: bytes that come in and go out, clocks, and the weather of the
//! messages among replicas.
//!
//! It promises traits whose contracts say what was taken, put and given, where an object tells it,
//! and that a fault comes only where the object's own count of faults rose. Beside the traits it has
//! objects in memory, which tell everything, and thin adapters over the machine's, which tell nothing.
//! Its laws say that steps in a row compose, and that the sum of bad fates rises with its parts.
//! It stands on `nfs3_types`.
#![tactic(auto)]

mod bad_fates;
mod calm;
mod clock;
mod failed;
mod laws;
mod list_clock;
mod list_weather;
mod lost_replicas;
mod mem_sink;
mod mem_source;
mod plan;
mod sink;
mod source;
mod std_sink;
mod std_source;
mod takes;
mod wall_clock;
mod weather;

pub use bad_fates::BadFates;
pub use calm::Calm;
pub use clock::Clock;
pub use failed::Failed;
pub use laws::{bad_fates_add_up, bytes_compose, moments_compose, puts_compose};
pub use list_clock::ListClock;
pub use list_weather::ListWeather;
pub use lost_replicas::LostReplicas;
pub use mem_sink::MemSink;
pub use mem_source::MemSource;
pub use nfs3_types::{Moment, NoMemory, Text};
pub use sink::Sink;
pub use source::Source;
pub use std_sink::StdSink;
pub use std_source::StdSource;
pub use wall_clock::WallClock;
pub use weather::{Fate, MOST_REPLICAS, MOST_STORES, MessageKind, MessageName, Weather};
