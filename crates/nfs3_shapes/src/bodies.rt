//! Bodies within their bounds, and whose they are.

ghost use Rattle.std.specs.Prelude.{◌↔◌, ◌≡◌, IsTrue};
ghost use Rattle.nfs3_types.specs.Replies.{said_by};
ghost use Rattle.nfs3_res.specs.Spelled.{procedure_in};
ghost use Rattle.nfs3_fits.specs.Shape.{IsWithin};

use crate::lists::{are_short, are_short_plus, has_handle, is_handle};
use nfs3_types::{Body, Procedure};

/// The most bytes of what READ and READLINK tell.
const MOST_TOLD: usize = 32768;

/// The procedure whose result of status OK this is.
fn said_by(body: &Body) -> Procedure
    ensures { result ≡ said_by body.now }
{
    match body {
        Body::Null | Body::Nothing => Procedure::Null,
        Body::GetAttr(_) => Procedure::GetAttr,
        Body::SetAttr(_) => Procedure::SetAttr,
        Body::Lookup(_) => Procedure::Lookup,
        Body::Access(_) => Procedure::Access,
        Body::ReadLink(_) => Procedure::ReadLink,
        Body::Read(_) => Procedure::Read,
        Body::Write(_) => Procedure::Write,
        Body::Create(_) => Procedure::Create,
        Body::Mkdir(_) => Procedure::Mkdir,
        Body::Symlink(_) => Procedure::Symlink,
        Body::Remove(_) => Procedure::Remove,
        Body::Rmdir(_) => Procedure::Rmdir,
        Body::Rename(_) => Procedure::Rename,
        Body::Link(_) => Procedure::Link,
        Body::ReadDir(_) => Procedure::ReadDir,
        Body::ReadDirPlus(_) => Procedure::ReadDirPlus,
        Body::FsStat(_) => Procedure::FsStat,
        Body::FsInfo(_) => Procedure::FsInfo,
        Body::PathConf(_) => Procedure::PathConf,
        Body::Commit(_) => Procedure::Commit,
    }
}

/// The number of the procedure whose result of status OK this is.
pub fn procedure_in(body: &Body) -> u32
    ensures { result ≡ procedure_in body.now }
{
    said_by(body).number()
}

/// Whether what a body says is within its bounds.
pub fn is_within(body: &Body) -> bool
    ensures { IsTrue result ↔ IsWithin body.now }
{
    match body {
        Body::Nothing => false,
        Body::Lookup(ok) => is_handle(&ok.object),
        Body::ReadLink(ok) => ok.target.len() <= MOST_TOLD,
        Body::Read(ok) => ok.data.len() <= MOST_TOLD,
        Body::Create(ok) => has_handle(ok),
        Body::Mkdir(ok) => has_handle(ok),
        Body::Symlink(ok) => has_handle(ok),
        Body::ReadDir(ok) => are_short(ok.entries.as_slice()),
        Body::ReadDirPlus(ok) => are_short_plus(ok.entries.as_slice()),
        Body::Null
        | Body::GetAttr(_)
        | Body::SetAttr(_)
        | Body::Access(_)
        | Body::Write(_)
        | Body::Remove(_)
        | Body::Rmdir(_)
        | Body::Rename(_)
        | Body::Link(_)
        | Body::FsStat(_)
        | Body::FsInfo(_)
        | Body::PathConf(_)
        | Body::Commit(_) => true,
    }
}
