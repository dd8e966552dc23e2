//! A node is made, and its name.

ghost use Rattle.std.specs.Prelude.{◌≡◌, ◌≤◌, length, IfOk, OnOk, IfErr};
ghost use Rattle.fs_rules.specs.Limits.{longest_name, longest_target, most_links};
ghost use Rattle.fs_shows.specs.Files.{IsNew};
ghost use Rattle.fs_shows.specs.Steps.{Edits, EditGivesUp};
ghost use Rattle.pairs.specs.Told.{Goes};
ghost use Rattle.procs_making.specs.Children.{node_by, made_in, CanMake, gained_attributes, told_new};

use crate::child::NewNode;
use dir_ops::add;
use fs_rules::checks::is_directory;
use fs_rules::wcc_of;
use inode_ops::{give, make};
use nfs3_types::{CreateOk, Fattr, FileType, Handle, Moment, NoMemory, Text};
use pair_types::PairFault;
use pairs::Pairs;
use std::alloc::Global;

/// Makes a node and its name: its inode is saved before its number is given.
#[tactic(none)]
pub fn make_in<P: Pairs>(
    alloc: Global,
    pairs: &mut P,
    name: &[u8],
    child: &NewNode,
) -> Result<(), PairFault>
    requires name { length name.now ≤ longest_name }
    requires target { length child.now.inode.target ≤ longest_target }
    requires blank { IsNew child.now.inode (node_by child.now.inode) }
    ensures goes { Goes P.told pairs.old pairs.new 5 }
    ensures ok { OnOk result (Edits P.told pairs.old pairs.new (CanMake name.now child.now) (made_in name.now child.now)) }
    ensures fault { IfErr result (EditGivesUp P.told pairs.old pairs.new (CanMake name.now child.now)) }
{
    let plan = child.plan;
    match make(alloc, pairs, plan.fileid, &child.inode) {
        Ok(()) => {}
        Err(fault) => return Err(fault),
    }
    match give(alloc, pairs, child.lane) {
        Ok(()) => {}
        Err(fault) => return Err(fault),
    }
    let kind = child.inode.head.kept.kind;
    add(
        alloc,
        pairs,
        plan.directory,
        name,
        kind,
        plan.fileid,
        child.moment,
    )
}

// ---- what is told of it

/// The attributes of a directory that has gained a name of a node of this kind.
#[tactic(auto, unfolding(fs_rules::specs::Limits::most_links))]
fn gained(directory: &Fattr, kind: FileType, now: Moment) -> Fattr
    ensures { directory.now.nlink ≤ most_links → result ≡ gained_attributes kind now directory.now }
{
    let nlink = if is_directory(kind) {
        directory.nlink.saturating_add(1)
    } else {
        directory.nlink
    };
    Fattr {
        nlink,
        mtime: now,
        ctime: now,
        ..*directory
    }
}

/// What is told of a new node in a directory that had these attributes.
fn tell_new(alloc: Global, directory: &Fattr, child: &NewNode) -> Result<CreateOk, NoMemory>
    ensures { IfOk result (λ told. directory.now.nlink ≤ most_links → told ≡ told_new directory.now child.now) }
{
    let handle = Handle {
        fsid: directory.fsid,
        snapshot: 0,
        fileid: child.plan.fileid,
    };
    let object = Text::from_slice(alloc, &handle.spell())?;
    let head = child.inode.head;
    let attributes = head
        .kept
        .attributes(directory.fsid, child.plan.fileid, head.size);
    Ok(CreateOk {
        object: Some(object),
        attributes: Some(attributes),
        directory: wcc_of(
            Some(*directory),
            Some(gained(directory, head.kept.kind, child.moment)),
        ),
    })
}

/// Makes a node and its name, in a directory that had these attributes, and tells of it.
#[tactic(none)]
pub fn make_and_tell<P: Pairs>(
    alloc: Global,
    pairs: &mut P,
    name: &[u8],
    directory: &Fattr,
    child: &NewNode,
) -> Result<CreateOk, PairFault>
    requires name { length name.now ≤ longest_name }
    requires target { length child.now.inode.target ≤ longest_target }
    requires blank { IsNew child.now.inode (node_by child.now.inode) }
    ensures goes { Goes P.told pairs.old pairs.new 5 }
    ensures ok { OnOk result (Edits P.told pairs.old pairs.new (CanMake name.now child.now) (made_in name.now child.now)) }
    ensures tells { IfOk result (λ told. directory.now.nlink ≤ most_links → told ≡ told_new directory.now child.now) }
    ensures fault { IfErr result (EditGivesUp P.told pairs.old pairs.new (CanMake name.now child.now)) }
{
    let told = match tell_new(alloc, directory, child) {
        Ok(told) => told,
        Err(fault) => return Err(PairFault::from(fault)),
    };
    match make_in(alloc, pairs, name, child) {
        Ok(()) => Ok(told),
        Err(fault) => Err(fault),
    }
}
