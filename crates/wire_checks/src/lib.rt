//! What no clause of the wire's crates says, tried on values from outside: a file of tests for each crate.
//!
//! It has no call of its own. Tests stand here and not in the crates that they are about, since a crate with
//! tests is proved again whole.
#![tactic(auto)]

#[cfg(test)]
mod grammars;
#[cfg(test)]
mod items;
#[cfg(test)]
mod messages;
#[cfg(test)]
mod mounting;
#[cfg(test)]
mod records;
#[cfg(test)]
mod routing;
#[cfg(test)]
mod streams;
