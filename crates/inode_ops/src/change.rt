//! Changes of what is kept of a file beside its content and its names.

ghost use Rattle.std.specs.Prelude.{◌≡◌, IfSome, IfNone};
ghost use Rattle.inode_ops.specs.Changes.{changed_by, MayChange};

use fs_rules::Inode;
use nfs3_types::{Fattr, Moment};

/// A change of what is kept of a file beside its content and its names.
#[derive(Clone, Copy)]
pub(crate) enum Change {
    /// The content or the names are others.
    Touch(Moment),
    /// The attributes are others.
    SetCtime(Moment),
    /// A directory has a subdirectory more.
    AddLink,
    /// A file has a name more.
    Link(Moment),
    /// A directory has a subdirectory less.
    DropLink,
    /// A file has a name less.
    Unlink(Moment),
    /// A directory stands in another one.
    MoveTo(u64, Moment),
    /// These attributes are set, but for a size.
    Describe(Fattr),
}

/// What is kept behind a change; `None` where a count of links would not fit.
#[tactic(auto, unfolding(fs_rules::specs::Limits::most_links))]
pub(crate) fn changed(change: &Change, inode: Inode) -> Option<Inode>
    ensures ok { IfSome result (λ after. after ≡ changed_by change.now inode) }
    ensures none { IfNone result (MayChange change.now inode → ⊥) }
{
    match *change {
        Change::Touch(now) => Some(Inode {
            mtime: now,
            ctime: now,
            ..inode
        }),
        Change::SetCtime(now) => Some(Inode {
            ctime: now,
            ..inode
        }),
        Change::AddLink => Some(Inode {
            nlink: inode.nlink.checked_add(1)?,
            ..inode
        }),
        Change::Link(now) => Some(Inode {
            nlink: inode.nlink.checked_add(1)?,
            ctime: now,
            ..inode
        }),
        Change::DropLink => Some(Inode {
            nlink: inode.nlink.saturating_sub(1),
            ..inode
        }),
        Change::Unlink(now) => Some(Inode {
            nlink: inode.nlink.saturating_sub(1),
            ctime: now,
            ..inode
        }),
        Change::MoveTo(parent, now) => Some(Inode {
            parent,
            ctime: now,
            ..inode
        }),
        Change::Describe(a) => Some(Inode {
            mode: a.mode,
            uid: a.uid,
            gid: a.gid,
            atime: a.atime,
            mtime: a.mtime,
            ctime: a.ctime,
            ..inode
        }),
    }
}
