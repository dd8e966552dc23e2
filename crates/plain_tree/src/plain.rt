//! The tree.

ghost use Rattle.std.specs.Option.{option_copied};
ghost use Rattle.std.specs.Prelude.{◌≡◌, ◌+◌, ◌≤◌, ◌<◌, ◌^◌, length, IsSome};
ghost use Rattle.fs_rules.specs.Places.{node_in, snapshot_directory, snapshot_numbered};
ghost use Rattle.fs_rules.specs.Tree.{root_inode};

use crate::snapshot::Snapshot;
use crate::snapshots::numbered;
use fs_rules::{Inode, Times};
use nfs3_types::FileType;
use plain_nodes::{Node, Nodes};

/// The one-thread file tree.
#[derive(Drop)]
pub struct Plain {
    /// The live tree.
    pub(crate) nodes: Nodes,
    /// The numbers of the next new files, by lane.
    pub(crate) next_fileids: [u64; 16],
    /// The number of the next snapshot.
    pub(crate) epoch: u64,
    /// The times of `.snapshot`.
    pub(crate) snapshot_times: Times,
    /// By rising number.
    pub(crate) snapshots: Vec<Snapshot>,
    /// The file system.
    pub(crate) fsid: u64,
    /// What tells a client that nothing that it wrote was lost.
    pub(crate) verifier: [u8; 8],
    ghost few: { length snapshots.items ≤ 1024 },
    ghost low: { fsid ≤ 2 ^ 63 },
    ghost young: { epoch < 2 ^ 32 },
}

/// The inode of a directory in the root, of owner and group 0.
#[tactic(auto, unfolding(fs_rules::specs::Tree::root_inode))]
pub fn root_inode(nlink: u32, next_cookie: u64, times: Times) -> Inode
    ensures { result ≡ root_inode nlink next_cookie times }
{
    Inode {
        kind: FileType::Dir,
        mode: 0o755,
        nlink,
        uid: 0,
        gid: 0,
        atime: times.atime,
        mtime: times.mtime,
        ctime: times.ctime,
        parent: 1,
        next_cookie,
        verifier: None,
        cuts: 0,
    }
}

impl Plain {
    ghost use Rattle.plain_tree.specs.Trees.{tree_of};

    /// The inode of the directory `.snapshot`.
    #[tactic(auto, unfolding(fs_rules::specs::Places::snapshot_directory))]
    pub(crate) fn snapshot_inode(&self) -> Inode
        ensures { result ≡ (snapshot_directory (tree_of self.now)).inode }
    {
        root_inode(
            2 + self.snapshots.len() as u32,
            self.epoch + 2,
            self.snapshot_times,
        )
    }

    /// A node of a snapshot.
    #[tactic(auto, unfolding(fs_rules::specs::Places::snapshot_numbered))]
    pub(crate) fn kept_node(&self, number: u64, fileid: u64) -> Option<&Node>
        ensures node { option_copied result ≡ node_in (snapshot_numbered (tree_of self.now) number) fileid }
        ensures low { IsSome result → number < 2 ^ 63 }
    {
        match numbered(&self.snapshots, number) {
            Some(snapshot) => snapshot.nodes.get(fileid),
            None => None,
        }
    }
}
