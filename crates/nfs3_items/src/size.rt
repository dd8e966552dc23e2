//! How many bytes values take.

ghost use Rattle.std.specs.Prelude.{◌≡◌, ◌+◌, ◌^◌, ◌<◌, ◌≤◌, length, IfSome};
ghost use Rattle.nfs3_types.specs.Handles.{file_handle, post_op_handle};
ghost use Rattle.nfs3_types.specs.Attributes.{post_op_attr, optional_time, optional_word, optional_hyper, set_time, sattr};
ghost use Rattle.nfs3_types.specs.Attributes.{pre_op_attr, wcc_data};
ghost use Rattle.nfs3_types.specs.Calls.{text as text_grammar};

use nfs3_types::{Fattr, Moment, Sattr, SetTime, Text, Wcc, WccAttr};
use xdr::padding;

/// The size of a text, its length's word and its padding counted.
#[tactic(auto, unfolding(nfs3_types::specs::Calls::text, xdr_grammar::specs::Items::opaque, xdr_grammar::specs::Items::fixed, xdr_grammar::specs::Items::word))]
pub fn text_size(text: &[u8]) -> usize
    requires { length text.now < 2 ^ 32 }
    ensures is { result ≡ text_grammar.size text.now }
    ensures small { result < 2 ^ 32 + 8 }
{
    4 + text.len() + padding(text.len())
}

/// The size of a handle.
#[tactic(auto, unfolding(nfs3_types::specs::Handles::file_handle, xdr_grammar::specs::Items::opaque, xdr_grammar::specs::Items::fixed, xdr_grammar::specs::Items::word))]
pub fn handle_size(handle: &[u8]) -> usize
    requires { length handle.now < 2 ^ 32 }
    ensures is { result ≡ file_handle.size handle.now }
    ensures small { result < 2 ^ 32 + 8 }
{
    4 + handle.len() + padding(handle.len())
}

/// The size of a handle that may be absent.
#[tactic(auto, unfolding(nfs3_types::specs::Handles::post_op_handle, xdr_grammar::specs::Items::truth, xdr_grammar::specs::Items::word))]
pub fn post_op_handle_size(handle: &Option<Text>) -> usize
    requires { IfSome handle.now (λ handle. length handle < 2 ^ 32) }
    ensures is { result ≡ post_op_handle.size handle.now }
    ensures small { result < 2 ^ 32 + 12 }
{
    match handle {
        Some(handle) => 4 + handle_size(handle.as_slice()),
        None => 4,
    }
}

/// The size of attributes that may be absent.
#[tactic(auto, unfolding(nfs3_types::specs::Attributes::post_op_attr, nfs3_types::specs::Attributes::fattr, nfs3_types::specs::FileTypes::file_type, xdr_grammar::specs::Enumerations::enumeration, nfs3_types::specs::Attributes::spec_data, nfs3_types::specs::Attributes::time, xdr_grammar::specs::Items::word, xdr_grammar::specs::Items::hyper, xdr_grammar::specs::Items::truth))]
pub fn post_op_attr_size(attributes: &Option<Fattr>) -> usize
    ensures is { result ≡ post_op_attr.size attributes.now }
    ensures small { result ≤ 88 }
{
    match attributes {
        Some(_) => 88,
        None => 4,
    }
}

/// The size of a time that may be absent.
#[tactic(auto, unfolding(nfs3_types::specs::Attributes::optional_time, nfs3_types::specs::Attributes::time, xdr_grammar::specs::Items::word, xdr_grammar::specs::Items::truth))]
pub fn optional_time_size(time: &Option<Moment>) -> usize
    ensures is { result ≡ optional_time.size time.now }
    ensures small { result ≤ 12 }
{
    match time {
        Some(_) => 12,
        None => 4,
    }
}

#[tactic(auto, unfolding(nfs3_types::specs::Attributes::optional_word, xdr_grammar::specs::Items::word, xdr_grammar::specs::Items::truth))]
fn optional_word_size(word: &Option<u32>) -> usize
    ensures is { result ≡ optional_word.size word.now }
    ensures small { result ≤ 8 }
{
    match word {
        Some(_) => 8,
        None => 4,
    }
}

#[tactic(auto, unfolding(nfs3_types::specs::Attributes::optional_hyper, xdr_grammar::specs::Items::hyper, xdr_grammar::specs::Items::truth, xdr_grammar::specs::Items::word))]
fn optional_hyper_size(hyper: &Option<u64>) -> usize
    ensures is { result ≡ optional_hyper.size hyper.now }
    ensures small { result ≤ 12 }
{
    match hyper {
        Some(_) => 12,
        None => 4,
    }
}

#[tactic(auto, unfolding(nfs3_types::specs::Attributes::set_time, nfs3_types::specs::Attributes::time, xdr_grammar::specs::Items::pick, xdr_grammar::specs::Items::word))]
fn set_time_size(time: &SetTime) -> usize
    ensures is { result ≡ set_time.size time.now }
    ensures small { result ≤ 12 }
{
    match time {
        SetTime::ClientTime(_) => 12,
        SetTime::DontChange | SetTime::ServerTime => 4,
    }
}

/// The size of attributes that are to be set.
#[tactic(auto, unfolding(nfs3_types::specs::Attributes::sattr))]
pub fn sattr_size(attributes: &Sattr) -> usize
    ensures is { result ≡ sattr.size attributes.now }
    ensures small { result ≤ 60 }
{
    let words = optional_word_size(&attributes.mode)
        + optional_word_size(&attributes.uid)
        + optional_word_size(&attributes.gid);
    let times = set_time_size(&attributes.atime) + set_time_size(&attributes.mtime);
    words + optional_hyper_size(&attributes.size) + times
}

#[tactic(auto, unfolding(nfs3_types::specs::Attributes::pre_op_attr, nfs3_types::specs::Attributes::wcc_attr, nfs3_types::specs::Attributes::time, xdr_grammar::specs::Items::word, xdr_grammar::specs::Items::hyper, xdr_grammar::specs::Items::truth))]
fn pre_op_attr_size(attributes: &Option<WccAttr>) -> usize
    ensures is { result ≡ pre_op_attr.size attributes.now }
    ensures small { result ≤ 28 }
{
    match attributes {
        Some(_) => 28,
        None => 4,
    }
}

/// The size of the attributes before and after a call.
#[tactic(auto, unfolding(nfs3_types::specs::Attributes::wcc_data))]
pub fn wcc_size(wcc: &Wcc) -> usize
    ensures is { result ≡ wcc_data.size wcc.now }
    ensures small { result ≤ 116 }
{
    pre_op_attr_size(&wcc.before) + post_op_attr_size(&wcc.after)
}
