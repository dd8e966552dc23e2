//! What is run, and not proved, of the crates for threads: that takers of one state lose no turn, that visits to a hall
//! are each taken once, that a refused thread gives its work back, and that the adapters over TCP carry bytes.
//!
//! It promises nothing to callers: all its content is tests over public calls. They end by themselves, and come out the
//! same whatever the schedule.
#![tactic(auto)]

#[cfg(test)]
mod streams;
#[cfg(test)]
mod turns;
#[cfg(test)]
mod visits;
