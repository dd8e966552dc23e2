//! The checks that procedures share: each is the answer table's of the same name.

ghost use Rattle.std.specs.Prelude.{◌≡◌, true, IfOk, OnOk};
ghost use Rattle.fs_rules.specs.Checks as checks;
ghost use Rattle.plain_tree.specs.Needs.{Stands};

use crate::object::Object;
use crate::plain::Plain;
use fs_rules::checks::{is_directory, is_file, is_live, need, need_good_name};
use fs_rules::{Place, may_search};
use nfs3_types::{Cred, DirOp, Handle, Status, Text};

/// A directory is asked for.
pub fn need_directory(o: &Object) -> Result<(), Status>
    ensures { result ≡ checks.need_directory o.now }
{
    need(is_directory(o.inode.kind), Status::NotDir)
}

/// A file is asked for.
pub fn need_file(o: &Object) -> Result<(), Status>
    ensures { result ≡ checks.need_file o.now }
{
    need(is_file(o.inode.kind), Status::Inval)
}

/// What is changed has to be in the live tree.
pub fn need_live(o: &Object) -> Result<(), Status>
    ensures { result ≡ checks.need_live o.now }
{
    need(is_live(o.place), Status::Rofs)
}

/// A live directory, and an own name for it.
#[tactic(auto, unfolding(fs_rules::specs::Checks::need_place_for))]
pub fn need_place_for(o: &Object, name: &[u8]) -> Result<(), Status>
    ensures check { result ≡ checks.need_place_for o.now name.now }
    ensures live { OnOk result (checks.is_live o.now.place ≡ true) }
{
    need_directory(o)?;
    need_live(o)?;
    need_good_name(name)
}

/// The caller may look names up in the directory.
pub fn need_search(cred: &Cred, o: &Object) -> Result<(), Status>
    ensures { result ≡ checks.need_search cred.now o.now }
{
    need(may_search(cred, &o.inode), Status::Acces)
}

impl Plain {
    ghost use Rattle.plain_tree.specs.Trees.{tree_of};

    /// What a handle leads to: BADHANDLE where it is not 24 bytes long, and STALE where it names nothing.
    #[tactic(auto, unfolding(fs_rules::specs::Checks::find_object, fs_rules::specs::Places::object_of), using(crate::proofs::Standing::stands_by))]
    pub(crate) fn find_object(&self, handle: &[u8]) -> Result<Object, Status>
        ensures check { result ≡ checks.find_object (tree_of self.now) handle.now }
        ensures stands { IfOk result (Stands (tree_of self.now)) }
    {
        let Some(h) = Handle::of(handle) else {
            return Err(Status::BadHandle);
        };
        if h.fsid != self.fsid {
            return Err(Status::Stale);
        }
        match self.object_at(Place::of(&h)) {
            Some(o) => Ok(o),
            None => Err(Status::Stale),
        }
    }

    /// A live directory, and an own name for it.
    #[tactic(auto, unfolding(fs_rules::specs::Checks::find_directory))]
    pub(crate) fn find_directory(&self, a: &DirOp<Text>) -> Result<Object, Status>
        ensures check { result ≡ checks.find_directory (tree_of self.now) a.now }
        ensures live { IfOk result (λ o. checks.is_live o.place ≡ true) }
        ensures stands { IfOk result (Stands (tree_of self.now)) }
    {
        let o = self.find_object(a.directory.as_slice())?;
        need_place_for(&o, a.name.as_slice())?;
        Ok(o)
    }
}
