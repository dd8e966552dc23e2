//! What versions of pairs, with their blocks, show as a file tree; and what a call does to every tree that may lie below.
//!
//! It has definitions: which tree versions show, sound or not (`Shows`), and stand for (`Stands`); edits of every tree that may
//! lie below (`Edits`), reads of it (`Reads`, `Checked`), and why a call gives up; and why a check that reads ends early
//! ([`Halt`]). It stands on `pairs` for versions, on `fs_keys` for records, and on `fs_rules` for the tree.
#![tactic(auto)]

mod halt;

pub use halt::Halt;
