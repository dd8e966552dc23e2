//! Replaying a history.

ghost use Rattle.std.specs.Prelude.{◌≡◌, ◌<◌, true, nat_lt, All, IfOk, OnOk};
ghost use Rattle.std.specs.List.{list_all};
ghost use Rattle.fs_rules.specs.Tree.{Tree};
ghost use Rattle.plain_tree.specs.Trees.{tree_of};
ghost use Rattle.history_replay.specs.Replayed.{Goes, moved, tree_after};

use nfs3_types::{Entry, NoMemory};
use plain_tree::Plain;
use std::alloc::Global;

/// Makes the call of an entry that succeeded. An entry that failed changed nothing.
fn follow(alloc: Global, tree: &mut Plain, entry: &Entry) -> Result<(), NoMemory>
    requires { entry.now.lane < 16 }
    ensures { OnOk result (tree_of tree.new ≡ moved (tree_of tree.old) entry.now) }
{
    if entry.reply.status.number() == 0 {
        tree.answer(alloc, &entry.cred, &entry.call, entry.moment, entry.lane)?;
    }
    Ok(())
}

/// Whether each entry's lane is one of the sixteen.
#[tactic(auto, using(crate::proofs::Lanes::in_lanes))]
pub fn are_in_lanes(entries: &[Entry]) -> bool
    ensures is { result ≡ list_all (λ e. nat_lt e.lane 16) entries.now }
    ensures low { result ≡ true → All (λ e. e.lane < 16) entries.now }
{
    entries.iter().all(|entry| entry.lane < 16)
}

/// The tree after these entries, the oldest first, which begin at this tree; or `NoMemory`.
pub fn replay(alloc: Global, first: Plain, entries: &[Entry]) -> Result<Plain, NoMemory>
    requires { All (λ e. e.lane < 16) entries.now }

    // Where the list is legal, it is the tree to which it leads.
    ensures legal { (last : Tree) → Goes (tree_of first) entries.now last → IfOk result (λ tree. tree_of tree ≡ last) }

    // Of any list it is the tree after each call that succeeded.
    ensures all { IfOk result (λ tree. tree_of tree ≡ tree_after (tree_of first) entries.now) }
{
    let mut tree = first;
    for entry in entries {
        follow(alloc, &mut tree, entry)?;
    }
    Ok(tree)
}
