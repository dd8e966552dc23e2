//! A directory loses a name.

ghost use Rattle.std.specs.Prelude.{◌≡◌, ◌≤◌, length, OnOk, IfErr};
ghost use Rattle.fs_rules.specs.Edits.{edit_node, touch, drop_link, drop_name as without_name};
ghost use Rattle.fs_rules.specs.Limits.{longest_name};
ghost use Rattle.pairs.specs.Told.{Goes};
ghost use Rattle.fs_shows.specs.Steps.{Edits, EditGivesUp};
ghost use Rattle.dir_ops.specs.Directories.{lost_by, lose_entry, CanDrop};

use crate::entries::del_entry;
use crate::looking::look_up;
use fs_keys::{Head, Inode};
use fs_rules::Inode as Kept;
use inode_ops::{load_live, save};
use nfs3_types::Moment;
use pair_types::PairFault;
use pairs::{At, Pairs};
use std::alloc::Global;

/// What is kept of a directory that loses a name, of a directory or of another node.
fn lost(kept: Kept, is_directory: bool, now: Moment) -> Kept
    ensures { result ≡ lost_by is_directory now kept }
{
    if is_directory {
        Kept {
            nlink: kept.nlink.saturating_sub(1),
            mtime: now,
            ctime: now,
            ..kept
        }
    } else {
        Kept {
            mtime: now,
            ctime: now,
            ..kept
        }
    }
}

/// A directory loses a name that it has, of a directory or of another node.
fn lose<P: Pairs>(
    alloc: Global,
    pairs: &mut P,
    directory: u64,
    name: &[u8],
    is_directory: bool,
    now: Moment,
) -> Result<(), PairFault>
    requires { length name.now ≤ longest_name }
    ensures goes { Goes P.told pairs.old pairs.new 1 }
    ensures ok { OnOk result (Edits P.told pairs.old pairs.new (CanDrop directory name.now)
        (edit_node directory (lose_entry is_directory name.now now))) }
    ensures fault { IfErr result (EditGivesUp P.told pairs.old pairs.new (CanDrop directory name.now)) }
{
    let found = match look_up(alloc, pairs, At::Live, directory, name) {
        Ok(found) => found,
        Err(fault) => return Err(fault),
    };
    let row = match found {
        Some(row) => row,
        None => return Err(PairFault::Odd),
    };
    let inode = match load_live(alloc, pairs, directory) {
        Ok(inode) => inode,
        Err(fault) => return Err(fault),
    };
    match del_entry(alloc, pairs, directory, name, row.cookie) {
        Ok(()) => {}
        Err(fault) => return Err(fault),
    }
    let kept = lost(inode.head.kept, is_directory, now);
    let head = Head { kept, ..inode.head };
    let after = Inode {
        head,
        target: inode.target,
    };
    save(alloc, pairs, directory, &after)
}

/// A directory loses a name that it has, of what is no directory or stays.
pub fn drop_name<P: Pairs>(
    alloc: Global,
    pairs: &mut P,
    directory: u64,
    name: &[u8],
    now: Moment,
) -> Result<(), PairFault>
    requires { length name.now ≤ longest_name }
    ensures goes { Goes P.told pairs.old pairs.new 1 }
    ensures ok { OnOk result (Edits P.told pairs.old pairs.new (CanDrop directory name.now)
        (edit_node directory (λ n. touch now (without_name name.now n)))) }
    ensures fault { IfErr result (EditGivesUp P.told pairs.old pairs.new (CanDrop directory name.now)) }
{
    lose(alloc, pairs, directory, name, false, now)
}

/// A directory loses a name that it has, of a directory that goes.
pub fn drop_directory<P: Pairs>(
    alloc: Global,
    pairs: &mut P,
    directory: u64,
    name: &[u8],
    now: Moment,
) -> Result<(), PairFault>
    requires { length name.now ≤ longest_name }
    ensures goes { Goes P.told pairs.old pairs.new 1 }
    ensures ok { OnOk result (Edits P.told pairs.old pairs.new (CanDrop directory name.now)
        (edit_node directory (λ n. touch now (drop_link (without_name name.now n))))) }
    ensures fault { IfErr result (EditGivesUp P.told pairs.old pairs.new (CanDrop directory name.now)) }
{
    lose(alloc, pairs, directory, name, true, now)
}
