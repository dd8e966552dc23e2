//! Soundness of the plain tree: what holds of every tree that calls have made from the first one.
//!
//! It promises that the first tree is sound, and that every call leaves a sound tree sound: numbers, texts and lists
//! are within their bounds, names lead to nodes and stand once, each node has the names that its links count, and
//! parents lead to the root, in the live tree and in every snapshot. Its functions do nothing: what is proved is that
//! their clauses hold. And in a sound tree each entry leads to a node, and no reply leaves out what it may.
//! It stands on `fs_rules` for the answer table, and on `fs_laws` for the bounds.
#![tactic(auto)]

mod sound;

pub use sound::{
    calls_keep_trees_sound, first_tree_is_sound, names_lead_to_nodes, replies_leave_nothing_out,
};
