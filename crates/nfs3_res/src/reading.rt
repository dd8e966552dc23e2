//! Reading what results of status OK say.

ghost use Rattle.xdr_grammar.specs.Reading.{Gives};
ghost use Rattle.nfs3_types.specs.Replies.{lookup_ok, access_ok, read_link_ok, read_ok, write_ok, create_ok, rename_ok, link_ok};
ghost use Rattle.nfs3_types.specs.Replies.{fs_stat_ok, fs_info_ok, path_conf_ok, commit_ok, read_dir_ok, read_dir_plus_ok};
ghost use Rattle.nfs3_types.specs.Replies.{ok_body};
ghost use Rattle.nfs3_res.specs.Reading.{GivesOwn};

use crate::fault::ResFault;
use crate::items::read_entries;
use crate::texts::{own_handle, own_post_op_handle, own_text};
use nfs3_items::{
    read_fattr, read_post_op_attr, read_stable_how, read_time, read_verifier, read_wcc,
};
use nfs3_types::{
    AccessOk, Body, CommitOk, CreateOk, FsInfoOk, FsStatOk, LinkOk, LookupOk, PathConfOk,
    Procedure, ReadDirOk, ReadDirPlusOk, ReadLinkOk, ReadOk, RenameOk, WriteOk,
};
use std::alloc::Global;
use xdr::Reader;
use xdr_grammar::XdrFault;

#[tactic(auto, unfolding(nfs3_types::specs::Replies::lookup_ok))]
fn read_lookup(alloc: Global, reader: &mut Reader<'_>) -> Result<LookupOk, ResFault>
    ensures { GivesOwn lookup_ok reader.old reader.new result }
{
    Ok(LookupOk {
        object: own_handle(alloc, reader)?,
        attributes: read_post_op_attr(reader)?,
        directory: read_post_op_attr(reader)?,
    })
}

#[tactic(auto, unfolding(nfs3_types::specs::Replies::access_ok))]
fn read_access(reader: &mut Reader<'_>) -> Result<AccessOk, XdrFault>
    ensures { Gives access_ok (λ r. r) reader.old reader.new result }
{
    Ok(AccessOk {
        attributes: read_post_op_attr(reader)?,
        access: reader.word()?,
    })
}

#[tactic(auto, unfolding(nfs3_types::specs::Replies::read_link_ok))]
fn read_read_link(alloc: Global, reader: &mut Reader<'_>) -> Result<ReadLinkOk, ResFault>
    ensures { GivesOwn read_link_ok reader.old reader.new result }
{
    Ok(ReadLinkOk {
        attributes: read_post_op_attr(reader)?,
        target: own_text(alloc, reader)?,
    })
}

#[tactic(auto, unfolding(nfs3_types::specs::Replies::read_ok))]
fn read_read(alloc: Global, reader: &mut Reader<'_>) -> Result<ReadOk, ResFault>
    ensures { GivesOwn read_ok reader.old reader.new result }
{
    Ok(ReadOk {
        attributes: read_post_op_attr(reader)?,
        count: reader.word()?,
        eof: reader.truth()?,
        data: own_text(alloc, reader)?,
    })
}

#[tactic(auto, unfolding(nfs3_types::specs::Replies::write_ok))]
fn read_write(reader: &mut Reader<'_>) -> Result<WriteOk, XdrFault>
    ensures { Gives write_ok (λ r. r) reader.old reader.new result }
{
    Ok(WriteOk {
        file: read_wcc(reader)?,
        count: reader.word()?,
        committed: read_stable_how(reader)?,
        verifier: read_verifier(reader)?,
    })
}

#[tactic(auto, unfolding(nfs3_types::specs::Replies::create_ok))]
fn read_create(alloc: Global, reader: &mut Reader<'_>) -> Result<CreateOk, ResFault>
    ensures { GivesOwn create_ok reader.old reader.new result }
{
    Ok(CreateOk {
        object: own_post_op_handle(alloc, reader)?,
        attributes: read_post_op_attr(reader)?,
        directory: read_wcc(reader)?,
    })
}

#[tactic(auto, unfolding(nfs3_types::specs::Replies::rename_ok))]
pub fn read_rename(reader: &mut Reader<'_>) -> Result<RenameOk, XdrFault>
    ensures { Gives rename_ok (λ r. r) reader.old reader.new result }
{
    Ok(RenameOk {
        from: read_wcc(reader)?,
        to: read_wcc(reader)?,
    })
}

#[tactic(auto, unfolding(nfs3_types::specs::Replies::link_ok))]
pub fn read_link(reader: &mut Reader<'_>) -> Result<LinkOk, XdrFault>
    ensures { Gives link_ok (λ r. r) reader.old reader.new result }
{
    Ok(LinkOk {
        attributes: read_post_op_attr(reader)?,
        directory: read_wcc(reader)?,
    })
}

#[tactic(auto, unfolding(nfs3_types::specs::Replies::fs_stat_ok))]
fn read_fs_stat(reader: &mut Reader<'_>) -> Result<FsStatOk, XdrFault>
    ensures { Gives fs_stat_ok (λ r. r) reader.old reader.new result }
{
    Ok(FsStatOk {
        attributes: read_post_op_attr(reader)?,
        tbytes: reader.hyper()?,
        fbytes: reader.hyper()?,
        abytes: reader.hyper()?,
        tfiles: reader.hyper()?,
        ffiles: reader.hyper()?,
        afiles: reader.hyper()?,
        invarsec: reader.word()?,
    })
}

#[tactic(auto, unfolding(nfs3_types::specs::Replies::fs_info_ok))]
fn read_fs_info(reader: &mut Reader<'_>) -> Result<FsInfoOk, XdrFault>
    ensures { Gives fs_info_ok (λ r. r) reader.old reader.new result }
{
    Ok(FsInfoOk {
        attributes: read_post_op_attr(reader)?,
        rtmax: reader.word()?,
        rtpref: reader.word()?,
        rtmult: reader.word()?,
        wtmax: reader.word()?,
        wtpref: reader.word()?,
        wtmult: reader.word()?,
        dtpref: reader.word()?,
        maxfilesize: reader.hyper()?,
        time_delta: read_time(reader)?,
        properties: reader.word()?,
    })
}

#[tactic(auto, unfolding(nfs3_types::specs::Replies::path_conf_ok))]
fn read_path_conf(reader: &mut Reader<'_>) -> Result<PathConfOk, XdrFault>
    ensures { Gives path_conf_ok (λ r. r) reader.old reader.new result }
{
    Ok(PathConfOk {
        attributes: read_post_op_attr(reader)?,
        linkmax: reader.word()?,
        name_max: reader.word()?,
        no_trunc: reader.truth()?,
        chown_restricted: reader.truth()?,
        case_insensitive: reader.truth()?,
        case_preserving: reader.truth()?,
    })
}

#[tactic(auto, unfolding(nfs3_types::specs::Replies::commit_ok))]
fn read_commit(reader: &mut Reader<'_>) -> Result<CommitOk, XdrFault>
    ensures { Gives commit_ok (λ r. r) reader.old reader.new result }
{
    Ok(CommitOk {
        file: read_wcc(reader)?,
        verifier: read_verifier(reader)?,
    })
}

#[tactic(auto, unfolding(nfs3_types::specs::Replies::read_dir_ok))]
fn read_read_dir(alloc: Global, reader: &mut Reader<'_>) -> Result<ReadDirOk, ResFault>
    ensures { GivesOwn read_dir_ok reader.old reader.new result }
{
    Ok(ReadDirOk {
        attributes: read_post_op_attr(reader)?,
        verifier: read_verifier(reader)?,
        entries: read_entries(alloc, reader)?,
        eof: reader.truth()?,
    })
}

#[tactic(auto, unfolding(nfs3_types::specs::Replies::read_dir_plus_ok))]
fn read_read_dir_plus(alloc: Global, reader: &mut Reader<'_>) -> Result<ReadDirPlusOk, ResFault>
    ensures { GivesOwn read_dir_plus_ok reader.old reader.new result }
{
    Ok(ReadDirPlusOk {
        attributes: read_post_op_attr(reader)?,
        verifier: read_verifier(reader)?,
        entries: read_entries(alloc, reader)?,
        eof: reader.truth()?,
    })
}

/// Reads what the result of status OK of a procedure says.
#[tactic(auto, unfolding(nfs3_types::specs::Replies::ok_body))]
pub fn read_body(
    alloc: Global,
    procedure: Procedure,
    reader: &mut Reader<'_>,
) -> Result<Body, ResFault>
    ensures { GivesOwn (ok_body procedure) reader.old reader.new result }
{
    match procedure {
        Procedure::GetAttr => Ok(Body::GetAttr(read_fattr(reader)?)),
        Procedure::SetAttr => Ok(Body::SetAttr(read_wcc(reader)?)),
        Procedure::Lookup => Ok(Body::Lookup(read_lookup(alloc, reader)?)),
        Procedure::Access => Ok(Body::Access(read_access(reader)?)),
        Procedure::ReadLink => Ok(Body::ReadLink(read_read_link(alloc, reader)?)),
        Procedure::Read => Ok(Body::Read(read_read(alloc, reader)?)),
        Procedure::Write => Ok(Body::Write(read_write(reader)?)),
        Procedure::Create => Ok(Body::Create(read_create(alloc, reader)?)),
        Procedure::Mkdir => Ok(Body::Mkdir(read_create(alloc, reader)?)),
        Procedure::Symlink => Ok(Body::Symlink(read_create(alloc, reader)?)),
        Procedure::Mknod => Err(ResFault::Bad(XdrFault::BadEnum)),
        Procedure::Remove => Ok(Body::Remove(read_wcc(reader)?)),
        Procedure::Rmdir => Ok(Body::Rmdir(read_wcc(reader)?)),
        Procedure::Rename => Ok(Body::Rename(read_rename(reader)?)),
        Procedure::Link => Ok(Body::Link(read_link(reader)?)),
        Procedure::ReadDir => Ok(Body::ReadDir(read_read_dir(alloc, reader)?)),
        Procedure::ReadDirPlus => Ok(Body::ReadDirPlus(read_read_dir_plus(alloc, reader)?)),
        Procedure::FsStat => Ok(Body::FsStat(read_fs_stat(reader)?)),
        Procedure::FsInfo => Ok(Body::FsInfo(read_fs_info(reader)?)),
        Procedure::PathConf => Ok(Body::PathConf(read_path_conf(reader)?)),
        Procedure::Commit => Ok(Body::Commit(read_commit(reader)?)),
        Procedure::Null => Ok(Body::Null),
    }
}
