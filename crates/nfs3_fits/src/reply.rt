//! Replies have a spelling.

ghost use Rattle.std.specs.Prelude.{◌≡◌, true};
ghost use Rattle.nfs3_types.specs.Replies.{ok_body, said_by, is_ok};
ghost use Rattle.nfs3_res.specs.Spelled.{IsSpelled};
ghost use Rattle.nfs3_fits.specs.Shape.{IsWithin, HasShape};

use crate::attributes::{fattr_fits, wcc_fits};
use crate::bodies::{
    access_fits, commit_fits, create_fits, fs_info_fits, fs_stat_fits, link_fits, lookup_fits,
    path_conf_fits, read_fits, read_link_fits, rename_fits, write_fits,
};
use crate::entries::{read_dir_fits, read_dir_plus_fits};
use nfs3_types::{Body, Reply, Status};

fn body_fits(body: &Body)
    requires { IsWithin body.now }
    ensures { (ok_body (said_by body.now)).Fits body.now }
{
    match body {
        Body::Null => {}
        Body::GetAttr(ok) => fattr_fits(*ok),
        Body::SetAttr(ok) => wcc_fits(*ok),
        Body::Lookup(ok) => lookup_fits(ok),
        Body::Access(ok) => access_fits(*ok),
        Body::ReadLink(ok) => read_link_fits(ok),
        Body::Read(ok) => read_fits(ok),
        Body::Write(ok) => write_fits(*ok),
        Body::Create(ok) => create_fits(ok),
        Body::Mkdir(ok) => create_fits(ok),
        Body::Symlink(ok) => create_fits(ok),
        Body::Remove(ok) => wcc_fits(*ok),
        Body::Rmdir(ok) => wcc_fits(*ok),
        Body::Rename(ok) => rename_fits(*ok),
        Body::Link(ok) => link_fits(*ok),
        Body::ReadDir(ok) => read_dir_fits(ok),
        Body::ReadDirPlus(ok) => read_dir_plus_fits(ok),
        Body::FsStat(ok) => fs_stat_fits(*ok),
        Body::FsInfo(ok) => fs_info_fits(*ok),
        Body::PathConf(ok) => path_conf_fits(*ok),
        Body::Commit(ok) => commit_fits(*ok),
        Body::Nothing => {}
    }
}

fn said_fits(r: &Reply)
    requires { HasShape r.now }
    ensures { is_ok r.now.status ≡ true → (ok_body (said_by r.now.body)).Fits r.now.body }
{
    match r.status {
        Status::Ok => body_fits(&r.body),
        _ => {}
    }
}

/// A reply of this shape has a spelling, and one that a record can hold, so that
/// [`nfs3_res::write_reply`] can be called on it: a reply of status OK, whose body is that of its procedure
/// and whose texts and lists are within bounds, and a reply of another status that says nothing more, of each
/// procedure but NULL. Nothing is asked of its numbers, which are within their words by their types.
pub fn spelled(r: &Reply)
    requires { HasShape r.now }
    ensures { IsSpelled r.now }
{
    said_fits(r);
}
