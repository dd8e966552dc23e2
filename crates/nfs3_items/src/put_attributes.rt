//! Writing attributes.

ghost use Rattle.xdr_grammar.specs.Writing.{Puts};
ghost use Rattle.nfs3_types.specs.Attributes.{fattr, post_op_attr, optional_word, optional_hyper, optional_time, set_time, sattr};
ghost use Rattle.nfs3_types.specs.Attributes.{wcc_attr, pre_op_attr, wcc_data};

use crate::put::{put_file_type, put_spec_data, put_time};
use nfs3_types::{Fattr, Moment, NoMemory, Sattr, SetTime, Wcc, WccAttr};
use xdr::{put_hyper, put_truth, put_word};

/// Adds a file's attributes (fattr3).
#[tactic(auto, unfolding(nfs3_types::specs::Attributes::fattr, xdr_grammar::specs::Items::word, xdr_grammar::specs::Items::hyper))]
pub fn put_fattr(out: &mut Vec<u8>, attributes: &Fattr) -> Result<(), NoMemory>
    ensures { Puts fattr attributes.now out.old out.new result }
{
    put_file_type(out, attributes.kind)?;
    put_word(out, attributes.mode)?;
    put_word(out, attributes.nlink)?;
    put_word(out, attributes.uid)?;
    put_word(out, attributes.gid)?;
    put_hyper(out, attributes.size)?;
    put_hyper(out, attributes.used)?;
    put_spec_data(out, attributes.rdev)?;
    put_hyper(out, attributes.fsid)?;
    put_hyper(out, attributes.fileid)?;
    put_time(out, attributes.atime)?;
    put_time(out, attributes.mtime)?;
    put_time(out, attributes.ctime)
}

/// Adds attributes that may be absent (post_op_attr).
#[tactic(auto, unfolding(nfs3_types::specs::Attributes::post_op_attr, xdr_grammar::specs::Items::truth, xdr_grammar::specs::Items::word))]
pub fn put_post_op_attr(out: &mut Vec<u8>, attributes: &Option<Fattr>) -> Result<(), NoMemory>
    ensures { Puts post_op_attr attributes.now out.old out.new result }
{
    match attributes {
        Some(attributes) => {
            put_truth(out, true)?;
            put_fattr(out, attributes)
        }
        None => put_truth(out, false),
    }
}

#[tactic(auto, unfolding(nfs3_types::specs::Attributes::optional_word, xdr_grammar::specs::Items::truth, xdr_grammar::specs::Items::word))]
fn put_optional_word(out: &mut Vec<u8>, value: Option<u32>) -> Result<(), NoMemory>
    ensures { Puts optional_word value out.old out.new result }
{
    match value {
        Some(value) => {
            put_truth(out, true)?;
            put_word(out, value)
        }
        None => put_truth(out, false),
    }
}

#[tactic(auto, unfolding(nfs3_types::specs::Attributes::optional_hyper, xdr_grammar::specs::Items::truth, xdr_grammar::specs::Items::hyper, xdr_grammar::specs::Items::word))]
fn put_optional_hyper(out: &mut Vec<u8>, value: Option<u64>) -> Result<(), NoMemory>
    ensures { Puts optional_hyper value out.old out.new result }
{
    match value {
        Some(value) => {
            put_truth(out, true)?;
            put_hyper(out, value)
        }
        None => put_truth(out, false),
    }
}

/// Adds a time that may be absent (sattrguard3).
#[tactic(auto, unfolding(nfs3_types::specs::Attributes::optional_time, xdr_grammar::specs::Items::truth, xdr_grammar::specs::Items::word))]
pub fn put_optional_time(out: &mut Vec<u8>, value: Option<Moment>) -> Result<(), NoMemory>
    ensures { Puts optional_time value out.old out.new result }
{
    match value {
        Some(value) => {
            put_truth(out, true)?;
            put_time(out, value)
        }
        None => put_truth(out, false),
    }
}

#[tactic(auto, unfolding(nfs3_types::specs::Attributes::set_time, xdr_grammar::specs::Items::pick, xdr_grammar::specs::Items::word))]
fn put_set_time(out: &mut Vec<u8>, time: SetTime) -> Result<(), NoMemory>
    ensures { Puts set_time time out.old out.new result }
{
    match time {
        SetTime::DontChange => put_word(out, 0),
        SetTime::ServerTime => put_word(out, 1),
        SetTime::ClientTime(time) => {
            put_word(out, 2)?;
            put_time(out, time)
        }
    }
}

/// Adds attributes that are to be set (sattr3).
#[tactic(auto, unfolding(nfs3_types::specs::Attributes::sattr))]
pub fn put_sattr(out: &mut Vec<u8>, attributes: &Sattr) -> Result<(), NoMemory>
    ensures { Puts sattr attributes.now out.old out.new result }
{
    put_optional_word(out, attributes.mode)?;
    put_optional_word(out, attributes.uid)?;
    put_optional_word(out, attributes.gid)?;
    put_optional_hyper(out, attributes.size)?;
    put_set_time(out, attributes.atime)?;
    put_set_time(out, attributes.mtime)
}

#[tactic(auto, unfolding(nfs3_types::specs::Attributes::wcc_attr, xdr_grammar::specs::Items::hyper))]
fn put_wcc_attr(out: &mut Vec<u8>, attributes: &WccAttr) -> Result<(), NoMemory>
    ensures { Puts wcc_attr attributes.now out.old out.new result }
{
    put_hyper(out, attributes.size)?;
    put_time(out, attributes.mtime)?;
    put_time(out, attributes.ctime)
}

#[tactic(auto, unfolding(nfs3_types::specs::Attributes::pre_op_attr, xdr_grammar::specs::Items::truth, xdr_grammar::specs::Items::word))]
fn put_pre_op_attr(out: &mut Vec<u8>, attributes: &Option<WccAttr>) -> Result<(), NoMemory>
    ensures { Puts pre_op_attr attributes.now out.old out.new result }
{
    match attributes {
        Some(attributes) => {
            put_truth(out, true)?;
            put_wcc_attr(out, attributes)
        }
        None => put_truth(out, false),
    }
}

/// Adds the attributes before and after a call (wcc_data).
#[tactic(auto, unfolding(nfs3_types::specs::Attributes::wcc_data))]
pub fn put_wcc(out: &mut Vec<u8>, wcc: &Wcc) -> Result<(), NoMemory>
    ensures { Puts wcc_data wcc.now out.old out.new result }
{
    put_pre_op_attr(out, &wcc.before)?;
    put_post_op_attr(out, &wcc.after)
}
