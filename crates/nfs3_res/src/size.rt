//! How many bytes results take.

ghost use Rattle.std.specs.Prelude.{◌≡◌, ◌-◌, ◌^◌, ◌<◌, ◌≤◌};
ghost use Rattle.nfs3_types.specs.Attributes.{fattr};
ghost use Rattle.nfs3_types.specs.Replies.{lookup_ok, access_ok, read_link_ok, read_ok, write_ok, create_ok, rename_ok, link_ok};
ghost use Rattle.nfs3_types.specs.Replies.{fs_stat_ok, fs_info_ok, path_conf_ok, commit_ok, read_dir_ok, read_dir_plus_ok};
ghost use Rattle.nfs3_types.specs.Replies.{ok_body, said_by, refusal, telling, nothing_in, result_of, outcome_of};
ghost use Rattle.nfs3_res.specs.Spelled.{IsSpelled};

use crate::items::entries_size;
use crate::status::succeeded;
use crate::texts::{handle_size, post_op_handle_size, text_size};
use nfs3_items::{post_op_attr_size, wcc_size};
use nfs3_types::{
    AccessOk, Body, CommitOk, CreateOk, FsInfoOk, FsStatOk, LinkOk, LookupOk, PathConfOk,
    Procedure, ReadDirOk, ReadDirPlusOk, ReadLinkOk, ReadOk, RenameOk, Reply, WriteOk,
};

#[tactic(auto, unfolding(nfs3_types::specs::Replies::lookup_ok))]
fn lookup_size(ok: &LookupOk) -> usize
    requires { lookup_ok.Fits ok.now }
    ensures is { result ≡ lookup_ok.size ok.now }
    ensures small { result < 2 ^ 34 }
{
    handle_size(&ok.object) + post_op_attr_size(&ok.attributes) + post_op_attr_size(&ok.directory)
}

#[tactic(auto, unfolding(nfs3_types::specs::Replies::access_ok, xdr_grammar::specs::Items::word))]
fn access_size(ok: &AccessOk) -> usize
    ensures is { result ≡ access_ok.size ok.now }
    ensures small { result < 1000 }
{
    4 + post_op_attr_size(&ok.attributes)
}

#[tactic(auto, unfolding(nfs3_types::specs::Replies::read_link_ok))]
fn read_link_size(ok: &ReadLinkOk) -> usize
    requires { read_link_ok.Fits ok.now }
    ensures is { result ≡ read_link_ok.size ok.now }
    ensures small { result < 2 ^ 34 }
{
    post_op_attr_size(&ok.attributes) + text_size(&ok.target)
}

#[tactic(auto, unfolding(nfs3_types::specs::Replies::read_ok, xdr_grammar::specs::Items::word, xdr_grammar::specs::Items::truth))]
fn read_size(ok: &ReadOk) -> usize
    requires { read_ok.Fits ok.now }
    ensures is { result ≡ read_ok.size ok.now }
    ensures small { result < 2 ^ 34 }
{
    8 + post_op_attr_size(&ok.attributes) + text_size(&ok.data)
}

#[tactic(auto, unfolding(nfs3_types::specs::Replies::write_ok, xdr_grammar::specs::Items::word, nfs3_types::specs::Stability::stable_how, xdr_grammar::specs::Enumerations::enumeration, nfs3_types::specs::Calls::verifier, xdr_grammar::specs::Items::fixed))]
fn write_size(ok: &WriteOk) -> usize
    ensures is { result ≡ write_ok.size ok.now }
    ensures small { result < 1000 }
{
    16 + wcc_size(&ok.file)
}

#[tactic(auto, unfolding(nfs3_types::specs::Replies::create_ok))]
fn create_size(ok: &CreateOk) -> usize
    requires { create_ok.Fits ok.now }
    ensures is { result ≡ create_ok.size ok.now }
    ensures small { result < 2 ^ 34 }
{
    post_op_handle_size(&ok.object) + post_op_attr_size(&ok.attributes) + wcc_size(&ok.directory)
}

#[tactic(auto, unfolding(nfs3_types::specs::Replies::rename_ok))]
fn rename_size(ok: &RenameOk) -> usize
    ensures is { result ≡ rename_ok.size ok.now }
    ensures small { result < 1000 }
{
    wcc_size(&ok.from) + wcc_size(&ok.to)
}

#[tactic(auto, unfolding(nfs3_types::specs::Replies::link_ok))]
fn link_size(ok: &LinkOk) -> usize
    ensures is { result ≡ link_ok.size ok.now }
    ensures small { result < 1000 }
{
    post_op_attr_size(&ok.attributes) + wcc_size(&ok.directory)
}

#[tactic(auto, unfolding(nfs3_types::specs::Replies::fs_stat_ok, xdr_grammar::specs::Items::hyper, xdr_grammar::specs::Items::word))]
fn fs_stat_size(ok: &FsStatOk) -> usize
    ensures is { result ≡ fs_stat_ok.size ok.now }
    ensures small { result < 1000 }
{
    52 + post_op_attr_size(&ok.attributes)
}

#[tactic(auto, unfolding(nfs3_types::specs::Replies::fs_info_ok, xdr_grammar::specs::Items::word, xdr_grammar::specs::Items::hyper, nfs3_types::specs::Attributes::time))]
fn fs_info_size(ok: &FsInfoOk) -> usize
    ensures is { result ≡ fs_info_ok.size ok.now }
    ensures small { result < 1000 }
{
    48 + post_op_attr_size(&ok.attributes)
}

#[tactic(auto, unfolding(nfs3_types::specs::Replies::path_conf_ok, xdr_grammar::specs::Items::word, xdr_grammar::specs::Items::truth))]
fn path_conf_size(ok: &PathConfOk) -> usize
    ensures is { result ≡ path_conf_ok.size ok.now }
    ensures small { result < 1000 }
{
    24 + post_op_attr_size(&ok.attributes)
}

#[tactic(auto, unfolding(nfs3_types::specs::Replies::commit_ok, nfs3_types::specs::Calls::verifier, xdr_grammar::specs::Items::fixed))]
fn commit_size(ok: &CommitOk) -> usize
    ensures is { result ≡ commit_ok.size ok.now }
    ensures small { result < 1000 }
{
    8 + wcc_size(&ok.file)
}

#[tactic(auto, unfolding(nfs3_types::specs::Replies::read_dir_ok, nfs3_types::specs::Calls::verifier, xdr_grammar::specs::Items::fixed, xdr_grammar::specs::Items::truth, xdr_grammar::specs::Items::word))]
fn read_dir_size(ok: &ReadDirOk) -> usize
    requires spelled { read_dir_ok.Fits ok.now }
    requires short { read_dir_ok.size ok.now < 2 ^ 31 }
    ensures { result ≡ read_dir_ok.size ok.now }
{
    12 + post_op_attr_size(&ok.attributes) + entries_size(ok.entries.as_slice())
}

#[tactic(auto, unfolding(nfs3_types::specs::Replies::read_dir_plus_ok, nfs3_types::specs::Calls::verifier, xdr_grammar::specs::Items::fixed, xdr_grammar::specs::Items::truth, xdr_grammar::specs::Items::word))]
fn read_dir_plus_size(ok: &ReadDirPlusOk) -> usize
    requires spelled { read_dir_plus_ok.Fits ok.now }
    requires short { read_dir_plus_ok.size ok.now < 2 ^ 31 }
    ensures { result ≡ read_dir_plus_ok.size ok.now }
{
    12 + post_op_attr_size(&ok.attributes) + entries_size(ok.entries.as_slice())
}

/// The size of what a result of status OK says.
#[tactic(auto, unfolding(nfs3_types::specs::Replies::ok_body, nfs3_types::specs::Attributes::fattr, nfs3_types::specs::FileTypes::file_type, xdr_grammar::specs::Enumerations::enumeration, nfs3_types::specs::Attributes::spec_data, nfs3_types::specs::Attributes::time, xdr_grammar::specs::Items::word, xdr_grammar::specs::Items::hyper))]
fn body_size(body: &Body) -> usize
    requires spelled { (ok_body (said_by body.now)).Fits body.now }
    requires short { (ok_body (said_by body.now)).size body.now < 2 ^ 31 }
    ensures { result ≡ (ok_body (said_by body.now)).size body.now }
{
    match body {
        Body::Null | Body::Nothing => 0,
        Body::GetAttr(_) => 84,
        Body::SetAttr(ok) => wcc_size(ok),
        Body::Lookup(ok) => lookup_size(ok),
        Body::Access(ok) => access_size(ok),
        Body::ReadLink(ok) => read_link_size(ok),
        Body::Read(ok) => read_size(ok),
        Body::Write(ok) => write_size(ok),
        Body::Create(ok) => create_size(ok),
        Body::Mkdir(ok) => create_size(ok),
        Body::Symlink(ok) => create_size(ok),
        Body::Remove(ok) => wcc_size(ok),
        Body::Rmdir(ok) => wcc_size(ok),
        Body::Rename(ok) => rename_size(ok),
        Body::Link(ok) => link_size(ok),
        Body::ReadDir(ok) => read_dir_size(ok),
        Body::ReadDirPlus(ok) => read_dir_plus_size(ok),
        Body::FsStat(ok) => fs_stat_size(ok),
        Body::FsInfo(ok) => fs_info_size(ok),
        Body::PathConf(ok) => path_conf_size(ok),
        Body::Commit(ok) => commit_size(ok),
    }
}

/// The size of what a result of another status than OK says, each optional item absent.
#[tactic(auto, unfolding(nfs3_types::specs::Replies::told, nfs3_types::specs::Replies::rename_ok, nfs3_types::specs::Replies::link_ok, nfs3_types::specs::Attributes::wcc_data, nfs3_types::specs::Attributes::pre_op_attr, nfs3_types::specs::Attributes::post_op_attr, xdr_grammar::specs::Items::truth, xdr_grammar::specs::Items::word))]
fn refusal_size(procedure: Procedure) -> usize
    ensures is { result ≡ (refusal procedure).size (nothing_in (telling procedure)) }
    ensures small { result ≤ 16 }
{
    match procedure {
        Procedure::Null | Procedure::GetAttr => 0,
        Procedure::Lookup
        | Procedure::Access
        | Procedure::ReadLink
        | Procedure::Read
        | Procedure::ReadDir
        | Procedure::ReadDirPlus
        | Procedure::FsStat
        | Procedure::FsInfo
        | Procedure::PathConf => 4,
        Procedure::SetAttr
        | Procedure::Write
        | Procedure::Create
        | Procedure::Mkdir
        | Procedure::Symlink
        | Procedure::Mknod
        | Procedure::Remove
        | Procedure::Rmdir
        | Procedure::Commit => 8,
        Procedure::Link => 12,
        Procedure::Rename => 16,
    }
}

/// How many bytes [`write_reply`](crate::write_reply) adds for a reply, whose result has to have a spelling.
#[tactic(auto, unfolding(nfs3_types::specs::Replies::result_of, nfs3_types::specs::Replies::result, nfs3_types::specs::Replies::result_with_status, nfs3_types::specs::Statuses::status, xdr_grammar::specs::Enumerations::enumeration, xdr_grammar::specs::Items::word))]
pub fn reply_size(r: &Reply) -> usize
    requires { IsSpelled r.now }
    ensures { result ≡ (result_of r.now.procedure).size (outcome_of r.now) }
{
    let procedure = Procedure::at(r.procedure);
    if !procedure.has_status() {
        0
    } else if succeeded(r.status) {
        4 + body_size(&r.body)
    } else {
        4 + refusal_size(procedure)
    }
}
