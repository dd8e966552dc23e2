//! New nodes: what is to be made, and what its record says.

ghost use Rattle.std.specs.Prelude.{◌≡◌};
ghost use Rattle.fs_rules.specs.Making as table;
ghost use Rattle.procs_making.specs.Children as children;

use crate::room::Room;
use fs_keys::{Head, Inode};
use fs_rules::checks::is_directory;
use fs_rules::{Inode as Kept, NewPlan, time_by};
use nfs3_types::{Cred, FileType, Moment, Sattr, Text};
use std::marker::Model;

/// The size of a directory in bytes.
const DIRECTORY_SIZE: u64 = 4096;

/// What is to be made.
#[derive(Drop)]
pub struct Making {
    /// What kind of node.
    pub kind: FileType,
    /// What is set of its attributes.
    pub attributes: Sattr,
    /// The mode, where none is given.
    pub mode: u32,
    /// The path that a symbolic link leads to, and nothing of what is none.
    pub target: Text,
    /// The verifier of an EXCLUSIVE CREATE.
    pub verifier: Option<[u8; 8]>,
}

impl Model for Making {
    ghost use Rattle.fs_rules.specs.Making.{Making};

    ghost Value = { Making };

    ghost view = { λ m. record {
      kind = m.kind;
      attributes = m.attributes;
      mode = m.mode;
      content = m.target;
      verifier = m.verifier;
    } };
}

/// A new node, where it is made.
#[derive(Drop)]
pub struct NewNode {
    /// The lane of its number.
    pub lane: u8,
    /// Its directory, and its number.
    pub plan: NewPlan,
    /// Its inode.
    pub inode: Inode,
    /// When it is made.
    pub moment: Moment,
}

/// What is kept of a new node, in the directory of this number.
#[tactic(auto, unfolding(fs_rules::specs::Making::new_node))]
fn new_kept(cred: &Cred, now: Moment, parent: u64, m: &Making) -> Kept
    ensures { result ≡ (table.new_node cred.now now parent m.now).inode }
{
    let is_directory = is_directory(m.kind);
    let s = m.attributes;
    Kept {
        kind: m.kind,
        mode: s.mode.unwrap_or(m.mode) % 4096,
        nlink: if is_directory { 2 } else { 1 },
        uid: s.uid.unwrap_or(cred.uid),
        gid: s.gid.unwrap_or(cred.gid),
        atime: time_by(s.atime, now, now),
        mtime: time_by(s.mtime, now, now),
        ctime: now,
        parent: if is_directory { parent } else { 0 },
        next_cookie: if is_directory { 3 } else { 0 },
        verifier: m.verifier,
        cuts: 0,
    }
}

/// The inode of a new node, in the directory of this number.
#[tactic(auto, unfolding(fs_rules::specs::Making::new_node, fs_rules::specs::Attributes::size_of))]
fn new_inode(cred: &Cred, now: Moment, parent: u64, m: Making) -> Inode
    ensures { result ≡ children.new_inode cred.now now parent m }
{
    let kept = new_kept(cred, now, parent, &m);
    let size = if is_directory(m.kind) {
        DIRECTORY_SIZE
    } else {
        m.target.len() as u64
    };
    let head = Head {
        kept,
        size,
        floor: 0,
    };
    Inode {
        head,
        target: m.target,
    }
}

/// A new node, where there is room for it.
pub fn child_in(cred: &Cred, now: Moment, lane: u8, room: &Room, m: Making) -> NewNode
    ensures { result ≡ children.child_in cred.now now lane room.now m }
{
    let plan = NewPlan {
        directory: room.directory.place.fileid(),
        fileid: room.next,
    };
    NewNode {
        lane,
        plan,
        inode: new_inode(cred, now, plan.directory, m),
        moment: now,
    }
}
