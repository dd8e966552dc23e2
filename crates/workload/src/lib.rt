//! The workload: the calls that come from a number, and a rough weather that comes from one too.
//!
//! It promises that the driver's next call is the stated function of the number and of the replies so far, which
//! looks back over them and keeps no table; and that the weather draws the fates of messages as stated, loses
//! each message of a lost replica, and is clear to all others where it is not rough; and that the nine lines of a
//! tally are as stated.
//! It stands on `nfs3_types` for calls and replies, on `outside` for weathers, and on `itoa` for names.
//!
//! ```text
//! let mut driver = Driver::new(alloc, 1, 0)?;
//! let call = driver.next_call(alloc)?;
//! let reply = tree.answer(alloc, &cred, &call, moment, 0)?;
//! driver.learn(&reply);
//! ```
#![tactic(auto)]

mod calls;
mod choice;
mod driver;
mod learning;
mod lines;
mod rough_weather;

pub use driver::Driver;
pub use lines::{Tally, lines_of};
pub use rough_weather::RoughWeather;
