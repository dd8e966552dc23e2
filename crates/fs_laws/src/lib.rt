//! The laws of the answer table: what holds of it whatever the tree and the call are.
//!
//! It promises that a failing call and a call that only reads leave the tree as it was, that no reply blames the
//! server, that a tree within its bounds stays so, and that each of its replies has a spelling; and what an edit
//! shows, how a listing goes on, which bytes a content has, what SETATTR tells, and that snapshots stay. Its
//! functions do nothing: what is proved is that their clauses hold.
//! It stands on `fs_rules` for the answer table, and on `nfs3_fits` for what has a spelling.
#![tactic(auto)]

mod after;
mod bounds;
mod edits;
mod replies;

pub use after::{calls_keep_snapshots, listings_go_on};
pub use bounds::{calls_keep_bounds, first_tree_has_bounds};
pub use edits::{
    bytes_of_a_resized_content, bytes_of_a_written_content, edits_show_one_node,
    set_attr_tells_what_it_set,
};
pub use replies::{
    failures_change_nothing, no_reply_blames_the_server, readings_change_nothing,
    replies_have_shape,
};
