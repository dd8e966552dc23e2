//! LINK.

ghost use Rattle.std.specs.Prelude.{◌≡◌, ◌≤◌, true, false, length, OnOk, IfOk};
ghost use Rattle.fs_rules.specs.Attributes as attributes;
ghost use Rattle.fs_rules.specs.Checks.{is_live as is_live_place};
ghost use Rattle.fs_rules.specs.Limits.{longest_name};
ghost use Rattle.fs_rules.specs.Making as making;
ghost use Rattle.fs_rules.specs.Renaming as table;
ghost use Rattle.fs_rules.specs.Sound.{IsSound};
ghost use Rattle.pairs.specs.Told.{Goes};
ghost use Rattle.procs_object.specs.Finding.{CheckedOn};
ghost use Rattle.procs_object.specs.Performing.{Performs};
ghost use Rattle.procs_names.specs.Naming as naming;
ghost use Rattle.procs_names.specs.Naming.{IsLinking, linking_of as linking_as, seen};

use crate::checks::{need_directory, need_search};
use crate::editing::{add_link, linked_more, touched};
use dir_ops::look_up;
use fs_rules::checks::{
    is_directory, is_dots, is_live, is_snapshots_name, need, need_good_name, refuse_if,
};
use fs_rules::limits::{MOST_LINKS, MOST_NUMBERS};
use fs_rules::{Inode, LinkPlan, Place, may_write, wcc_of};
use fs_shows::Halt;
use nfs3_types::{Body, Cred, Fattr, FileType, LinkArgs, LinkOk, Moment, Status, Text};
use pairs::{At, Pairs};
use procs_object::{Found, see};
use std::alloc::Global;

/// What LINK is going to do, the kind of its file, and the attributes before of the file and of the directory.
#[derive(Clone, Copy)]
pub(crate) struct Linking {
    /// The file, and the directory of its further name.
    pub(crate) plan: LinkPlan,
    /// The kind of the file.
    pub(crate) kind: FileType,
    /// The attributes of the file.
    pub(crate) file: Fattr,
    /// The attributes of the directory.
    pub(crate) directory: Fattr,
}

// ---- checks

/// What LINK asks of a file, a directory and a name before it looks the name up.
#[tactic(auto, unfolding(crate::specs::Naming::need_linkable))]
fn need_linkable(cred: &Cred, file: &Found, d: &Found, name: &[u8]) -> Result<(), Status>
    ensures check { result ≡ naming.need_linkable cred.now (seen file.now) (seen d.now) name.now }
    ensures live { OnOk result (is_live_place d.now.place ≡ true) }
    ensures file { OnOk result (is_live_place file.now.place ≡ true) }
    ensures directory { OnOk result (attributes.is_directory d.now.inode.head.kept.kind ≡ true) }
    ensures plain { OnOk result (attributes.is_directory file.now.inode.head.kept.kind ≡ false) }
    ensures short { OnOk result (length name.now ≤ longest_name) }
{
    need_directory(d)?;
    need(is_live(d.place), Status::Rofs)?;
    need(is_live(file.place), Status::Xdev)?;
    need_good_name(name)?;
    refuse_if(is_directory(file.inode.head.kept.kind), Status::Inval)?;
    need_search(cred, d)
}

/// Whether a directory has no cookie left.
#[tactic(auto, unfolding(fs_rules::specs::Limits::most_numbers))]
fn lacks_cookies(directory: &Inode) -> bool
    ensures { result ≡ making.lacks_cookies directory.now }
{
    directory.next_cookie >= MOST_NUMBERS
}

/// Whether a name is taken, where it has an entry or has none.
fn is_taken(place: Place, name: &[u8], is_entry: bool) -> bool
    ensures { result ≡ naming.is_taken_by place name.now is_entry }
{
    is_dots(name) || is_snapshots_name(place, name) || is_entry
}

/// What LINK asks once the name is looked up.
#[tactic(auto, unfolding(crate::specs::Naming::need_room, fs_rules::specs::Limits::most_links))]
fn need_room(cred: &Cred, file: &Found, d: &Found, taken: bool) -> Result<(), Status>
    ensures { result ≡ naming.need_room cred.now (seen file.now) (seen d.now) taken }
{
    refuse_if(taken, Status::Exist)?;
    need(may_write(cred, &d.inode.head.kept), Status::Acces)?;
    refuse_if(file.inode.head.kept.nlink >= MOST_LINKS, Status::MLink)?;
    refuse_if(lacks_cookies(&d.inode.head.kept), Status::NoSpc)
}

/// What LINK is going to do with what was found.
fn linking_of(file: &Found, d: &Found) -> Linking
    ensures { result ≡ linking_as file.now d.now }
{
    Linking {
        plan: LinkPlan {
            file: file.place.fileid(),
            directory: d.place.fileid(),
        },
        kind: file.inode.head.kept.kind,
        file: file.attributes,
        directory: d.attributes,
    }
}

// ---- the call

/// What LINK is going to do.
#[tactic(none)]
fn find_linking<P: Pairs>(
    alloc: Global,
    pairs: &mut P,
    cred: &Cred,
    a: &LinkArgs<Text>,
) -> Result<Linking, Halt>
    ensures goes { Goes P.told pairs.old pairs.new 0 }
    ensures check { CheckedOn P.told pairs.old pairs.new IsSound (IsLinking a.now.link.name)
        (λ t. table.link_plan t cred.now a.now) result }
    ensures short { OnOk result (length a.now.link.name ≤ longest_name) }
    ensures plain { IfOk result (λ x. attributes.is_directory x.kind ≡ false) }
{
    let name = a.link.name.as_slice();
    let file = match see(alloc, pairs, a.file.as_slice()) {
        Ok(file) => file,
        Err(halt) => return Err(halt),
    };
    let d = match see(alloc, pairs, a.link.directory.as_slice()) {
        Ok(d) => d,
        Err(halt) => return Err(halt),
    };
    match need_linkable(cred, &file, &d, name) {
        Ok(()) => {}
        Err(status) => return Err(Halt::Refused(status)),
    }
    let found = match look_up(alloc, pairs, At::Live, d.place.fileid(), name) {
        Ok(found) => found,
        Err(fault) => return Err(Halt::Fault(fault)),
    };
    match need_room(cred, &file, &d, is_taken(d.place, name, found.is_some())) {
        Ok(()) => Ok(linking_of(&file, &d)),
        Err(status) => Err(Halt::Refused(status)),
    }
}

/// LINK.
#[tactic(none)]
pub fn link<P: Pairs>(
    alloc: Global,
    pairs: &mut P,
    cred: &Cred,
    a: &LinkArgs<Text>,
    now: Moment,
) -> Result<Body, Halt>
    ensures { Performs P.told pairs.old pairs.new 4 (λ t. table.link t cred.now a.now now) result }
{
    let r = match find_linking(alloc, pairs, cred, a) {
        Ok(r) => r,
        Err(halt) => return Err(halt),
    };
    let plan = r.plan;
    let name = a.link.name.as_slice();
    match add_link(alloc, pairs, plan.directory, name, r.kind, plan.file, now) {
        Ok(()) => {
            let file = linked_more(&r.file, now);
            let after = touched(&r.directory, now);
            Ok(Body::Link(LinkOk {
                attributes: Some(file),
                directory: wcc_of(Some(r.directory), Some(after)),
            }))
        }
        Err(fault) => Err(Halt::Fault(fault)),
    }
}
