//! Writing what results of status OK say.

ghost use Rattle.xdr_grammar.specs.Writing.{Puts};
ghost use Rattle.nfs3_types.specs.Replies.{lookup_ok, access_ok, read_link_ok, read_ok, write_ok, create_ok, rename_ok, link_ok};
ghost use Rattle.nfs3_types.specs.Replies.{fs_stat_ok, fs_info_ok, path_conf_ok, commit_ok, read_dir_ok, read_dir_plus_ok};
ghost use Rattle.nfs3_types.specs.Replies.{ok_body, said_by};

use crate::items::put_entries;
use crate::texts::{put_handle, put_post_op_handle, put_text};
use nfs3_items::{put_fattr, put_post_op_attr, put_stable_how, put_time, put_verifier, put_wcc};
use nfs3_types::{
    AccessOk, Body, CommitOk, CreateOk, FsInfoOk, FsStatOk, LinkOk, LookupOk, NoMemory, PathConfOk,
    ReadDirOk, ReadDirPlusOk, ReadLinkOk, ReadOk, RenameOk, WriteOk,
};
use xdr::{put_hyper, put_truth, put_word};

#[tactic(auto, unfolding(nfs3_types::specs::Replies::lookup_ok))]
fn put_lookup(out: &mut Vec<u8>, ok: &LookupOk) -> Result<(), NoMemory>
    requires { lookup_ok.Fits ok.now }
    ensures { Puts lookup_ok ok.now out.old out.new result }
{
    put_handle(out, &ok.object)?;
    put_post_op_attr(out, &ok.attributes)?;
    put_post_op_attr(out, &ok.directory)
}

#[tactic(auto, unfolding(nfs3_types::specs::Replies::access_ok, xdr_grammar::specs::Items::word))]
fn put_access(out: &mut Vec<u8>, ok: &AccessOk) -> Result<(), NoMemory>
    ensures { Puts access_ok ok.now out.old out.new result }
{
    put_post_op_attr(out, &ok.attributes)?;
    put_word(out, ok.access)
}

#[tactic(auto, unfolding(nfs3_types::specs::Replies::read_link_ok))]
fn put_read_link(out: &mut Vec<u8>, ok: &ReadLinkOk) -> Result<(), NoMemory>
    requires { read_link_ok.Fits ok.now }
    ensures { Puts read_link_ok ok.now out.old out.new result }
{
    put_post_op_attr(out, &ok.attributes)?;
    put_text(out, &ok.target)
}

#[tactic(auto, unfolding(nfs3_types::specs::Replies::read_ok, xdr_grammar::specs::Items::word, xdr_grammar::specs::Items::truth))]
fn put_read(out: &mut Vec<u8>, ok: &ReadOk) -> Result<(), NoMemory>
    requires { read_ok.Fits ok.now }
    ensures { Puts read_ok ok.now out.old out.new result }
{
    put_post_op_attr(out, &ok.attributes)?;
    put_word(out, ok.count)?;
    put_truth(out, ok.eof)?;
    put_text(out, &ok.data)
}

#[tactic(auto, unfolding(nfs3_types::specs::Replies::write_ok, xdr_grammar::specs::Items::word))]
fn put_write(out: &mut Vec<u8>, ok: &WriteOk) -> Result<(), NoMemory>
    ensures { Puts write_ok ok.now out.old out.new result }
{
    put_wcc(out, &ok.file)?;
    put_word(out, ok.count)?;
    put_stable_how(out, ok.committed)?;
    put_verifier(out, ok.verifier)
}

#[tactic(auto, unfolding(nfs3_types::specs::Replies::create_ok))]
fn put_create(out: &mut Vec<u8>, ok: &CreateOk) -> Result<(), NoMemory>
    requires { create_ok.Fits ok.now }
    ensures { Puts create_ok ok.now out.old out.new result }
{
    put_post_op_handle(out, &ok.object)?;
    put_post_op_attr(out, &ok.attributes)?;
    put_wcc(out, &ok.directory)
}

#[tactic(auto, unfolding(nfs3_types::specs::Replies::rename_ok))]
pub fn put_rename(out: &mut Vec<u8>, ok: &RenameOk) -> Result<(), NoMemory>
    ensures { Puts rename_ok ok.now out.old out.new result }
{
    put_wcc(out, &ok.from)?;
    put_wcc(out, &ok.to)
}

#[tactic(auto, unfolding(nfs3_types::specs::Replies::link_ok))]
pub fn put_link(out: &mut Vec<u8>, ok: &LinkOk) -> Result<(), NoMemory>
    ensures { Puts link_ok ok.now out.old out.new result }
{
    put_post_op_attr(out, &ok.attributes)?;
    put_wcc(out, &ok.directory)
}

#[tactic(auto, unfolding(nfs3_types::specs::Replies::fs_stat_ok, xdr_grammar::specs::Items::hyper, xdr_grammar::specs::Items::word))]
fn put_fs_stat(out: &mut Vec<u8>, ok: &FsStatOk) -> Result<(), NoMemory>
    ensures { Puts fs_stat_ok ok.now out.old out.new result }
{
    put_post_op_attr(out, &ok.attributes)?;
    put_hyper(out, ok.tbytes)?;
    put_hyper(out, ok.fbytes)?;
    put_hyper(out, ok.abytes)?;
    put_hyper(out, ok.tfiles)?;
    put_hyper(out, ok.ffiles)?;
    put_hyper(out, ok.afiles)?;
    put_word(out, ok.invarsec)
}

#[tactic(auto, unfolding(nfs3_types::specs::Replies::fs_info_ok, xdr_grammar::specs::Items::word, xdr_grammar::specs::Items::hyper))]
fn put_fs_info(out: &mut Vec<u8>, ok: &FsInfoOk) -> Result<(), NoMemory>
    ensures { Puts fs_info_ok ok.now out.old out.new result }
{
    put_post_op_attr(out, &ok.attributes)?;
    put_word(out, ok.rtmax)?;
    put_word(out, ok.rtpref)?;
    put_word(out, ok.rtmult)?;
    put_word(out, ok.wtmax)?;
    put_word(out, ok.wtpref)?;
    put_word(out, ok.wtmult)?;
    put_word(out, ok.dtpref)?;
    put_hyper(out, ok.maxfilesize)?;
    put_time(out, ok.time_delta)?;
    put_word(out, ok.properties)
}

#[tactic(auto, unfolding(nfs3_types::specs::Replies::path_conf_ok, xdr_grammar::specs::Items::word, xdr_grammar::specs::Items::truth))]
fn put_path_conf(out: &mut Vec<u8>, ok: &PathConfOk) -> Result<(), NoMemory>
    ensures { Puts path_conf_ok ok.now out.old out.new result }
{
    put_post_op_attr(out, &ok.attributes)?;
    put_word(out, ok.linkmax)?;
    put_word(out, ok.name_max)?;
    put_truth(out, ok.no_trunc)?;
    put_truth(out, ok.chown_restricted)?;
    put_truth(out, ok.case_insensitive)?;
    put_truth(out, ok.case_preserving)
}

#[tactic(auto, unfolding(nfs3_types::specs::Replies::commit_ok))]
fn put_commit(out: &mut Vec<u8>, ok: &CommitOk) -> Result<(), NoMemory>
    ensures { Puts commit_ok ok.now out.old out.new result }
{
    put_wcc(out, &ok.file)?;
    put_verifier(out, ok.verifier)
}

#[tactic(auto, unfolding(nfs3_types::specs::Replies::read_dir_ok, xdr_grammar::specs::Items::truth, xdr_grammar::specs::Items::word))]
fn put_read_dir(out: &mut Vec<u8>, ok: &ReadDirOk) -> Result<(), NoMemory>
    requires { read_dir_ok.Fits ok.now }
    ensures { Puts read_dir_ok ok.now out.old out.new result }
{
    put_post_op_attr(out, &ok.attributes)?;
    put_verifier(out, ok.verifier)?;
    put_entries(out, ok.entries.as_slice())?;
    put_truth(out, ok.eof)
}

#[tactic(auto, unfolding(nfs3_types::specs::Replies::read_dir_plus_ok, xdr_grammar::specs::Items::truth, xdr_grammar::specs::Items::word))]
fn put_read_dir_plus(out: &mut Vec<u8>, ok: &ReadDirPlusOk) -> Result<(), NoMemory>
    requires { read_dir_plus_ok.Fits ok.now }
    ensures { Puts read_dir_plus_ok ok.now out.old out.new result }
{
    put_post_op_attr(out, &ok.attributes)?;
    put_verifier(out, ok.verifier)?;
    put_entries(out, ok.entries.as_slice())?;
    put_truth(out, ok.eof)
}

/// Adds what a result of status OK says.
#[tactic(auto, unfolding(nfs3_types::specs::Replies::ok_body))]
pub fn put_body(out: &mut Vec<u8>, body: &Body) -> Result<(), NoMemory>
    requires { (ok_body (said_by body.now)).Fits body.now }
    ensures { Puts (ok_body (said_by body.now)) body.now out.old out.new result }
{
    match body {
        Body::Null | Body::Nothing => Ok(()),
        Body::GetAttr(ok) => put_fattr(out, ok),
        Body::SetAttr(ok) => put_wcc(out, ok),
        Body::Lookup(ok) => put_lookup(out, ok),
        Body::Access(ok) => put_access(out, ok),
        Body::ReadLink(ok) => put_read_link(out, ok),
        Body::Read(ok) => put_read(out, ok),
        Body::Write(ok) => put_write(out, ok),
        Body::Create(ok) => put_create(out, ok),
        Body::Mkdir(ok) => put_create(out, ok),
        Body::Symlink(ok) => put_create(out, ok),
        Body::Remove(ok) => put_wcc(out, ok),
        Body::Rmdir(ok) => put_wcc(out, ok),
        Body::Rename(ok) => put_rename(out, ok),
        Body::Link(ok) => put_link(out, ok),
        Body::ReadDir(ok) => put_read_dir(out, ok),
        Body::ReadDirPlus(ok) => put_read_dir_plus(out, ok),
        Body::FsStat(ok) => put_fs_stat(out, ok),
        Body::FsInfo(ok) => put_fs_info(out, ok),
        Body::PathConf(ok) => put_path_conf(out, ok),
        Body::Commit(ok) => put_commit(out, ok),
    }
}
