//! What results of status OK say has a spelling.

ghost use Rattle.std.specs.Prelude.{◌≤◌, length};
ghost use Rattle.nfs3_types.specs.Replies.{lookup_ok, access_ok, read_link_ok, read_ok, write_ok, create_ok, rename_ok, link_ok};
ghost use Rattle.nfs3_types.specs.Replies.{fs_stat_ok, fs_info_ok, path_conf_ok, commit_ok};
ghost use Rattle.nfs3_fits.specs.Shape.{IsHandle, HasHandle};

use crate::attributes::{post_op_attr_fits, time_fits, wcc_fits};
use crate::numbers::{hyper_fits, verifier_fits, word_fits};
use nfs3_types::{
    AccessOk, CommitOk, CreateOk, FsInfoOk, FsStatOk, LinkOk, LookupOk, PathConfOk, ReadLinkOk,
    ReadOk, RenameOk, WriteOk,
};

#[tactic(auto, using(crate::proofs::Contents::lookup_fits_by))]
pub fn lookup_fits(ok: &LookupOk)
    requires { IsHandle ok.now.object }
    ensures { lookup_ok.Fits ok.now }
{
    post_op_attr_fits(ok.attributes);
    post_op_attr_fits(ok.directory);
}

#[tactic(auto, using(crate::proofs::Contents::access_fits_by))]
pub fn access_fits(ok: AccessOk)
    ensures { access_ok.Fits ok }
{
    post_op_attr_fits(ok.attributes);
}

#[tactic(auto, using(crate::proofs::Contents::read_link_fits_by))]
pub fn read_link_fits(ok: &ReadLinkOk)
    requires { length ok.now.target ≤ 65536 }
    ensures { read_link_ok.Fits ok.now }
{
    post_op_attr_fits(ok.attributes);
}

#[tactic(auto, using(crate::proofs::Contents::read_fits_by))]
pub fn read_fits(ok: &ReadOk)
    requires { length ok.now.«data» ≤ 65536 }
    ensures { read_ok.Fits ok.now }
{
    post_op_attr_fits(ok.attributes);
    word_fits(ok.count);
}

#[tactic(auto, using(crate::proofs::Contents::write_fits_by))]
pub fn write_fits(ok: WriteOk)
    ensures { write_ok.Fits ok }
{
    wcc_fits(ok.file);
    verifier_fits(&ok.verifier);
}

#[tactic(auto, using(crate::proofs::Contents::create_fits_by))]
pub fn create_fits(ok: &CreateOk)
    requires { HasHandle ok.now }
    ensures { create_ok.Fits ok.now }
{
    post_op_attr_fits(ok.attributes);
    wcc_fits(ok.directory);
}

#[tactic(auto, using(crate::proofs::Contents::rename_fits_by))]
pub fn rename_fits(ok: RenameOk)
    ensures { rename_ok.Fits ok }
{
    wcc_fits(ok.from);
    wcc_fits(ok.to);
}

#[tactic(auto, using(crate::proofs::Contents::link_fits_by))]
pub fn link_fits(ok: LinkOk)
    ensures { link_ok.Fits ok }
{
    post_op_attr_fits(ok.attributes);
    wcc_fits(ok.directory);
}

#[tactic(auto, using(crate::proofs::Contents::fs_stat_fits_by))]
pub fn fs_stat_fits(ok: FsStatOk)
    ensures { fs_stat_ok.Fits ok }
{
    post_op_attr_fits(ok.attributes);
}

#[tactic(auto, using(crate::proofs::Contents::fs_info_fits_by))]
pub fn fs_info_fits(ok: FsInfoOk)
    ensures { fs_info_ok.Fits ok }
{
    post_op_attr_fits(ok.attributes);
    time_fits(ok.time_delta);
}

#[tactic(auto, using(crate::proofs::Contents::path_conf_fits_by))]
pub fn path_conf_fits(ok: PathConfOk)
    ensures { path_conf_ok.Fits ok }
{
    post_op_attr_fits(ok.attributes);
}

#[tactic(auto, using(crate::proofs::Contents::commit_fits_by))]
pub fn commit_fits(ok: CommitOk)
    ensures { commit_ok.Fits ok }
{
    wcc_fits(ok.file);
    verifier_fits(&ok.verifier);
}
