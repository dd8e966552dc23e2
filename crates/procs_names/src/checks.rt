//! The checks of these procedures on what was found and on names: each is the answer table's of the same name.

ghost use Rattle.std.specs.Prelude.{◌≡◌};
ghost use Rattle.fs_rules.specs.Checks as checks;
ghost use Rattle.fs_rules.specs.Names as names;
ghost use Rattle.procs_names.specs.Naming as naming;
ghost use Rattle.procs_names.specs.Naming.{seen};

use fs_rules::checks::{is_directory, is_snapshots_name, may_alter, need, refuse_if};
use fs_rules::may_search;
use nfs3_types::{Cred, Status};
use procs_object::Found;

/// A directory is asked for.
pub(crate) fn need_directory(d: &Found) -> Result<(), Status>
    ensures { result ≡ checks.need_directory (seen d.now) }
{
    need(is_directory(d.inode.head.kept.kind), Status::NotDir)
}

/// The caller may look names up in the directory.
pub(crate) fn need_search(cred: &Cred, d: &Found) -> Result<(), Status>
    ensures { result ≡ checks.need_search cred.now (seen d.now) }
{
    need(may_search(cred, &d.inode.head.kept), Status::Acces)
}

// ---- names that go

/// The caller may take the name out of the directory.
#[tactic(auto, unfolding(crate::specs::Naming::need_alterable))]
pub(crate) fn need_alterable(cred: &Cred, d: &Found, name: &[u8]) -> Result<(), Status>
    ensures { result ≡ naming.need_alterable cred.now (seen d.now) name.now }
{
    refuse_if(is_snapshots_name(d.place, name), Status::Acces)?;
    need(may_alter(cred, &d.inode.head.kept), Status::Acces)
}
