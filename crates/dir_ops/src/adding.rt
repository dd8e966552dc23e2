//! A directory gains a name.

ghost use Rattle.std.specs.Prelude.{◌≡◌, ◌≤◌, ◌+◌, length, if◌then◌else◌, IfSome, IfNone, OnOk, IfErr};
ghost use Rattle.fs_rules.specs.Attributes.{is_directory};
ghost use Rattle.fs_rules.specs.Edits.{edit_node};
ghost use Rattle.fs_rules.specs.Limits.{longest_name, most_links};
ghost use Rattle.fs_rules.specs.Making.{gain_name};
ghost use Rattle.pairs.specs.Told.{Goes};
ghost use Rattle.fs_shows.specs.Steps.{Edits, EditGivesUp};
ghost use Rattle.dir_ops.specs.Directories.{gained_by, CanGain, CanAdd};

use crate::entries::put_entry;
use fs_keys::{Head, Inode, NameRow};
use fs_rules::Inode as Kept;
use inode_ops::{load_live, save};
use nfs3_types::{FileType, Moment};
use pair_types::PairFault;
use pairs::Pairs;
use std::alloc::Global;

/// How many links a directory has that gains a name of a node of this kind.
#[tactic(auto, unfolding(fs_rules::specs::Limits::most_links))]
fn links_with(kind: FileType, nlink: u32) -> Option<u32>
    ensures ok { IfSome result (λ links. links ≡ (if is_directory kind then nlink + 1 else nlink)) }
    ensures none { IfNone result (nlink ≤ most_links → ⊥) }
{
    if kind == FileType::Dir {
        nlink.checked_add(1)
    } else {
        Some(nlink)
    }
}

/// What is kept of a directory that gains a name of a node of this kind; `None` where a count would not fit.
#[tactic(auto, unfolding(fs_rules::specs::Limits::most_numbers))]
fn gained(kept: Kept, kind: FileType, now: Moment) -> Option<Kept>
    ensures ok { IfSome result (λ after. after ≡ gained_by kind now kept) }
    ensures none { IfNone result (CanGain kept → ⊥) }
{
    let nlink = match links_with(kind, kept.nlink) {
        Some(nlink) => nlink,
        None => return None,
    };
    let next_cookie = match kept.next_cookie.checked_add(1) {
        Some(next_cookie) => next_cookie,
        None => return None,
    };
    Some(Kept {
        nlink,
        next_cookie,
        mtime: now,
        ctime: now,
        ..kept
    })
}

/// A directory gains a name that it does not have, which leads to a node of this number and kind.
pub fn add<P: Pairs>(
    alloc: Global,
    pairs: &mut P,
    directory: u64,
    name: &[u8],
    kind: FileType,
    fileid: u64,
    now: Moment,
) -> Result<(), PairFault>
    requires { length name.now ≤ longest_name }
    ensures goes { Goes P.told pairs.old pairs.new 3 }
    ensures ok { OnOk result (Edits P.told pairs.old pairs.new (CanAdd directory name.now)
        (edit_node directory (gain_name kind name.now fileid now))) }
    ensures fault { IfErr result (EditGivesUp P.told pairs.old pairs.new (CanAdd directory name.now)) }
{
    let inode = match load_live(alloc, pairs, directory) {
        Ok(inode) => inode,
        Err(fault) => return Err(fault),
    };
    let kept = match gained(inode.head.kept, kind, now) {
        Some(kept) => kept,
        None => return Err(PairFault::Odd),
    };
    let row = NameRow {
        cookie: inode.head.kept.next_cookie,
        fileid,
    };
    match put_entry(alloc, pairs, directory, name, row) {
        Ok(()) => {}
        Err(fault) => return Err(fault),
    }
    let head = Head { kept, ..inode.head };
    let after = Inode {
        head,
        target: inode.target,
    };
    save(alloc, pairs, directory, &after)
}
