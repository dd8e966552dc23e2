//! Handles, names and content of results, which are owned.

ghost use Rattle.std.specs.Prelude.{◌≡◌, ◌+◌, ◌^◌, ◌<◌};
ghost use Rattle.xdr_grammar.specs.Writing.{Puts};
ghost use Rattle.nfs3_types.specs.Handles.{file_handle, post_op_handle};
ghost use Rattle.nfs3_types.specs.Calls.{text as text_grammar};
ghost use Rattle.nfs3_res.specs.Reading.{GivesOwn};

use crate::fault::ResFault;
use nfs3_items::{read_handle, read_text};
use nfs3_types::{NoMemory, Text};
use std::alloc::Global;
use xdr::Reader;

pub fn own_text(alloc: Global, reader: &mut Reader<'_>) -> Result<Text, ResFault>
    ensures { GivesOwn text_grammar reader.old reader.new result }
{
    let lent = read_text(reader)?;
    Ok(Text::from_slice(alloc, lent.as_slice())?)
}

pub fn own_handle(alloc: Global, reader: &mut Reader<'_>) -> Result<Text, ResFault>
    ensures { GivesOwn file_handle reader.old reader.new result }
{
    let lent = read_handle(reader)?;
    Ok(Text::from_slice(alloc, lent.as_slice())?)
}

#[tactic(auto, unfolding(nfs3_types::specs::Handles::post_op_handle))]
pub fn own_post_op_handle(alloc: Global, reader: &mut Reader<'_>) -> Result<Option<Text>, ResFault>
    ensures { GivesOwn post_op_handle reader.old reader.new result }
{
    if reader.truth()? {
        Ok(Some(own_handle(alloc, reader)?))
    } else {
        Ok(None)
    }
}

#[tactic(auto, unfolding(nfs3_types::specs::Handles::file_handle, xdr_grammar::specs::Items::opaque, xdr_grammar::specs::Items::word))]
pub fn put_handle(out: &mut Vec<u8>, handle: &Text) -> Result<(), NoMemory>
    requires { file_handle.Fits handle.now }
    ensures { Puts file_handle handle.now out.old out.new result }
{
    nfs3_items::put_handle(out, handle.as_slice())
}

#[tactic(auto, unfolding(nfs3_types::specs::Handles::post_op_handle, nfs3_types::specs::Handles::file_handle, xdr_grammar::specs::Items::truth, xdr_grammar::specs::Items::opaque, xdr_grammar::specs::Items::word))]
pub fn put_post_op_handle(out: &mut Vec<u8>, handle: &Option<Text>) -> Result<(), NoMemory>
    requires { post_op_handle.Fits handle.now }
    ensures { Puts post_op_handle handle.now out.old out.new result }
{
    nfs3_items::put_post_op_handle(out, handle)
}

#[tactic(auto, unfolding(nfs3_types::specs::Calls::text, xdr_grammar::specs::Items::opaque, xdr_grammar::specs::Items::word))]
pub fn put_text(out: &mut Vec<u8>, text: &Text) -> Result<(), NoMemory>
    requires { text_grammar.Fits text.now }
    ensures { Puts text_grammar text.now out.old out.new result }
{
    nfs3_items::put_text(out, text.as_slice())
}

#[tactic(auto, unfolding(nfs3_types::specs::Handles::file_handle, xdr_grammar::specs::Items::opaque, xdr_grammar::specs::Items::word))]
pub fn handle_size(handle: &Text) -> usize
    requires { file_handle.Fits handle.now }
    ensures is { result ≡ file_handle.size handle.now }
    ensures small { result < 2 ^ 32 + 8 }
{
    nfs3_items::handle_size(handle.as_slice())
}

#[tactic(auto, unfolding(nfs3_types::specs::Handles::post_op_handle, nfs3_types::specs::Handles::file_handle, xdr_grammar::specs::Items::truth, xdr_grammar::specs::Items::opaque, xdr_grammar::specs::Items::word))]
pub fn post_op_handle_size(handle: &Option<Text>) -> usize
    requires { post_op_handle.Fits handle.now }
    ensures is { result ≡ post_op_handle.size handle.now }
    ensures small { result < 2 ^ 32 + 12 }
{
    nfs3_items::post_op_handle_size(handle)
}

#[tactic(auto, unfolding(nfs3_types::specs::Calls::text, xdr_grammar::specs::Items::opaque, xdr_grammar::specs::Items::word))]
pub fn text_size(text: &Text) -> usize
    requires { text_grammar.Fits text.now }
    ensures is { result ≡ text_grammar.size text.now }
    ensures small { result < 2 ^ 32 + 8 }
{
    nfs3_items::text_size(text.as_slice())
}
