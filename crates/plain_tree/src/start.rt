//! The tree as it begins.

ghost use Rattle.std.specs.Prelude.{◌≡◌, ◌≤◌, ◌^◌, ℕ, List, IfOk};
ghost use Rattle.nfs3_types.specs.declared.moment.Moment.{Moment as AnyMoment};
ghost use Rattle.fs_rules.specs.Tree.{always, first_nodes, first_tree};
ghost use Rattle.plain_nodes.specs.Nodes.{nodes_of};
ghost use Rattle.plain_tree.specs.Starting.{begin, root_at};

use crate::plain::{Plain, root_inode};
use file_content::Content;
use fs_rules::Times;
use nfs3_types::{Moment, NoMemory};
use plain_nodes::{Node, Nodes};
use std::alloc::Global;

/// The root.
const ROOT: u64 = 1;

/// All times are this one.
fn always(at: Moment) -> Times
    ensures { result ≡ always at }
{
    Times {
        atime: at,
        mtime: at,
        ctime: at,
    }
}

/// The root as it begins.
fn root(alloc: Global, first: Moment) -> Node
    ensures { result ≡ root_at first }
{
    Node {
        inode: root_inode(2, 3, always(first)),
        content: Content::new(alloc),
        names: Vec::new(alloc),
    }
}

/// The nodes as the tree begins: the root alone.
fn first_nodes(alloc: Global, first: Moment) -> Result<Nodes, NoMemory>
    ensures { IfOk result (λ nodes. nodes_of nodes ≡ first_nodes first) }
{
    let mut nodes = Nodes::new(alloc);
    nodes.insert(ROOT, root(alloc, first))?;
    Ok(nodes)
}

impl Plain {
    ghost use Rattle.plain_tree.specs.Trees.{tree_of};

    /// The tree as it begins, of this file system, with this verifier, at this moment; or `NoMemory`.
    #[tactic(auto, unfolding(fs_rules::specs::Tree::first_tree))]
    pub fn new(
        alloc: Global,
        fsid: u64,
        verifier: [u8; 8],
        first: Moment,
    ) -> Result<Plain, NoMemory>
        requires { fsid ≤ 2 ^ 63 }
        ensures { IfOk result (λ p. tree_of p ≡ first_tree fsid verifier first) }
    {
        Ok(Plain {
            nodes: first_nodes(alloc, first)?,
            next_fileids: [
                16, 17, 18, 19, 20, 21, 22, 23, 24, 25, 26, 27, 28, 29, 30, 31,
            ],
            epoch: 1,
            snapshot_times: always(first),
            snapshots: Vec::new(alloc),
            fsid,
            verifier,
        })
    }

    /// The times of the root and of `.snapshot` are this moment, and all else stays; so a tree as it began at another
    /// moment begins at this one. It takes no memory.
    pub fn begin(&mut self, first: Moment)
        ensures all { tree_of self.new ≡ begin first (tree_of self.old) }
        ensures first { (fsid : ℕ) (verifier : List ℕ) (other : AnyMoment) → tree_of self.old ≡ first_tree fsid verifier other
            → tree_of self.new ≡ first_tree fsid verifier first }
    {
        self.nodes.begin(ROOT, first);
        self.snapshot_times = always(first);
    }
}
