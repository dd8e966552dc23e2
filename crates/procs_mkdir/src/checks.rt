//! The checks of a snapshot that is to be taken.

ghost use Rattle.std.specs.Prelude.{◌≡◌, ◌≤◌, is_some, length, OnOk};
ghost use Rattle.fs_rules.specs.Limits.{longest_name};
ghost use Rattle.fs_rules.specs.Names.{named};
ghost use Rattle.procs_mkdir.specs.Taking as rules;

use fs_rules::NameEntry;
use fs_rules::checks::{is_dots, need, need_good_name, refuse_if};
use fs_rules::limits::{LAST_EPOCH, MOST_SNAPSHOTS};
use nfs3_types::{Cred, Status};

/// Whether an entry has this name.
#[tactic(auto, unfolding(fs_rules::specs::Names::named, fs_rules::specs::Names::has_name))]
fn has_name(entries: &[NameEntry], name: &[u8]) -> bool
    ensures { is_some (named name.now entries.now) ≡ result }
{
    let mut rest = entries;
    while !rest.is_empty() {
        if rest[0].name.as_slice() == name {
            return true;
        }
        rest = &rest[1..];
    }
    false
}

/// Why no snapshot of this name is taken beside these, at this epoch.
#[tactic(auto, unfolding(crate::specs::Taking::new_check, fs_rules::specs::Limits::most_snapshots, fs_rules::specs::Limits::last_epoch))]
pub(crate) fn check_new(
    cred: &Cred,
    name: &[u8],
    entries: &[NameEntry],
    epoch: u64,
) -> Result<(), Status>
    ensures check { result ≡ rules.new_check cred.now name.now entries.now epoch }
    ensures short { OnOk result (length name.now ≤ longest_name) }
{
    need_good_name(name)?;
    need(cred.uid == 0, Status::Acces)?;
    refuse_if(is_dots(name) || has_name(entries, name), Status::Exist)?;
    refuse_if(entries.len() >= MOST_SNAPSHOTS, Status::NoSpc)?;
    refuse_if(epoch >= LAST_EPOCH, Status::NoSpc)
}
