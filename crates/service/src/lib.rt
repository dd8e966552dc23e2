//! The service: what the program runs.
//!
//! It promises, of its top call [`run`], that what is written is the stated function of what is read, of the
//! moments that the clock gave, and of where memory lacked, with the cause of each exit status. Of RPC records,
//! in any fragments and pieces, each gets the reply that needs no tree, or that of a tree behind a trait; the
//! first that is no call ends the session. Each reply is written whole before the input is read again. The tree
//! is the plain one, in memory: it answers every call as the answer table has it.
//! It stands on `outside` for what is read and written, on `rpc_records` for record marking, on `rpc_route` for
//! what needs no tree and for the records of replies, on `plain_tree` for the tree, on `fs_rules` for the answer
//! table, and on `fs_sound`, `fs_laws` and `nfs3_fits` for the spelling of each of its replies.
#![tactic(auto)]

mod answering;
mod command;
mod laws;
mod one_call;
mod put_all;
mod room;
mod served_tree;
mod session;
mod tree;
mod words;

pub use command::run;
pub use laws::{fed_as_if_memory_sufficed, one_reading, trees_stay_sound};
pub use tree::Tree;
