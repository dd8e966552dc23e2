//! The edits of REMOVE, RMDIR and LINK, each as the table's, and what they show.

ghost use Rattle.std.specs.Prelude.{◌≡◌, ◌≤◌, false, length, OnOk, IfErr};
ghost use Rattle.fs_rules.specs.Attributes.{is_directory};
ghost use Rattle.fs_rules.specs.Limits.{longest_name, most_links};
ghost use Rattle.fs_rules.specs.Removing as table;
ghost use Rattle.pairs.specs.Told.{Goes};
ghost use Rattle.fs_shows.specs.Steps.{Edits, EditGivesUp};
ghost use Rattle.procs_names.specs.Readying.{CanRemove, CanRemoveDirectory, CanLink, linked};
ghost use Rattle.procs_names.specs.Readying as ready;

use dir_ops::{add, drop_directory, drop_name};
use inode_ops::{forget, link, lose_name};
use nfs3_types::{Fattr, FileType, Moment};
use pair_types::PairFault;
use pairs::Pairs;
use std::alloc::Global;

// ---- edits

/// A file loses its name in a directory, and goes with its last.
#[tactic(none)]
pub(crate) fn remove_file<P: Pairs>(
    alloc: Global,
    pairs: &mut P,
    directory: u64,
    name: &[u8],
    file: u64,
    now: Moment,
) -> Result<(), PairFault>
    requires { length name.now ≤ longest_name }
    ensures goes { Goes P.told pairs.old pairs.new 2 }
    ensures ok { OnOk result (Edits P.told pairs.old pairs.new (CanRemove now directory name.now file)
        (table.remove_file now directory name.now file)) }
    ensures fault { IfErr result (EditGivesUp P.told pairs.old pairs.new (CanRemove now directory name.now file)) }
{
    match lose_name(alloc, pairs, file, now) {
        Ok(()) => {}
        Err(fault) => return Err(fault),
    }
    drop_name(alloc, pairs, directory, name, now)
}

/// An empty directory goes, with its name in the one above.
#[tactic(none)]
pub(crate) fn remove_directory<P: Pairs>(
    alloc: Global,
    pairs: &mut P,
    directory: u64,
    name: &[u8],
    within: u64,
    now: Moment,
) -> Result<(), PairFault>
    requires { length name.now ≤ longest_name }
    ensures goes { Goes P.told pairs.old pairs.new 2 }
    ensures ok { OnOk result (Edits P.told pairs.old pairs.new (CanRemoveDirectory directory name.now within)
        (table.drop_directory now directory name.now within)) }
    ensures fault { IfErr result (EditGivesUp P.told pairs.old pairs.new (CanRemoveDirectory directory name.now within)) }
{
    match forget(alloc, pairs, within) {
        Ok(()) => {}
        Err(fault) => return Err(fault),
    }
    drop_directory(alloc, pairs, directory, name, now)
}

/// A file of this kind has a further name in a directory.
#[tactic(none)]
pub(crate) fn add_link<P: Pairs>(
    alloc: Global,
    pairs: &mut P,
    directory: u64,
    name: &[u8],
    kind: FileType,
    file: u64,
    now: Moment,
) -> Result<(), PairFault>
    requires name { length name.now ≤ longest_name }
    requires kind { is_directory kind ≡ false }
    ensures goes { Goes P.told pairs.old pairs.new 4 }
    ensures ok { OnOk result (Edits P.told pairs.old pairs.new (CanLink now directory name.now file)
        (linked now directory name.now file)) }
    ensures fault { IfErr result (EditGivesUp P.told pairs.old pairs.new (CanLink now directory name.now file)) }
{
    match link(alloc, pairs, file, now) {
        Ok(()) => {}
        Err(fault) => return Err(fault),
    }
    add(alloc, pairs, directory, name, kind, file, now)
}

// ---- what they show

/// The attributes of a directory behind a change of its names.
pub(crate) fn touched(a: &Fattr, now: Moment) -> Fattr
    ensures { result ≡ ready.touched now a.now }
{
    Fattr {
        mtime: now,
        ctime: now,
        ..*a
    }
}

/// Those of one that lost a subdirectory.
pub(crate) fn touched_less(a: &Fattr, now: Moment) -> Fattr
    ensures { result ≡ ready.touched_less now a.now }
{
    Fattr {
        nlink: a.nlink.saturating_sub(1),
        mtime: now,
        ctime: now,
        ..*a
    }
}

/// Those of a file with a name more.
#[tactic(auto, unfolding(fs_rules::specs::Limits::most_links))]
pub(crate) fn linked_more(a: &Fattr, now: Moment) -> Fattr
    ensures { a.now.nlink ≤ most_links → result ≡ ready.linked_more now a.now }
{
    Fattr {
        nlink: a.nlink.saturating_add(1),
        ctime: now,
        ..*a
    }
}
