//! What is told of a snapshot that is taken.

ghost use Rattle.std.specs.Prelude.{◌≡◌, ◌<◌, ◌+◌, ◌^◌, option_map, IfOk};
ghost use Rattle.procs_mkdir.specs.Taking.{root_told, snapshot_told, touched_more};

use fs_keys::First;
use fs_rules::wcc_of;
use nfs3_types::{CreateOk, Fattr, Handle, Moment, NoMemory, Text};
use procs_object::Found;
use std::alloc::Global;

/// The attributes of a directory that gains a subdirectory now.
fn touched_more(a: &Fattr, now: Moment) -> Fattr
    ensures { result ≡ touched_more now a.now }
{
    Fattr {
        nlink: a.nlink.wrapping_add(1),
        mtime: now,
        ctime: now,
        ..*a
    }
}

/// The attributes of what was found, as those of a file system of this number.
pub(crate) fn root_of(root: &Option<Found>, fsid: u64) -> Option<Fattr>
    ensures { result ≡ option_map (root_told fsid) root.now }
{
    match root {
        Some(x) => Some(Fattr {
            fsid,
            ..x.attributes
        }),
        None => None,
    }
}

/// What is told of the snapshot that is taken by this first record.
pub(crate) fn told_of(
    alloc: Global,
    begins: &First,
    root: Option<Fattr>,
    directory: &Fattr,
    now: Moment,
) -> Result<CreateOk, NoMemory>
    ensures { IfOk result (λ ok. ok ≡ snapshot_told begins.now root directory.now now) }
{
    let of = Handle {
        fsid: begins.fsid,
        snapshot: begins.epoch,
        fileid: 1,
    };
    Ok(CreateOk {
        object: Some(Text::from_slice(alloc, &of.spell())?),
        attributes: root,
        directory: wcc_of(Some(*directory), Some(touched_more(directory, now))),
    })
}
