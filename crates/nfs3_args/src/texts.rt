//! Handles, names and content of calls, which are lent.

ghost use Rattle.std.specs.Prelude.{◌≡◌, ◌+◌, ◌^◌, ◌<◌};
ghost use Rattle.xdr_grammar.specs.Writing.{Puts};
ghost use Rattle.nfs3_types.specs.Handles.{file_handle};
ghost use Rattle.nfs3_types.specs.Calls.{text as text_grammar};

use nfs3_types::{NoMemory, TextRef};

#[tactic(auto, unfolding(nfs3_types::specs::Handles::file_handle, xdr_grammar::specs::Items::opaque, xdr_grammar::specs::Items::word))]
pub fn put_handle(out: &mut Vec<u8>, handle: &TextRef<'_>) -> Result<(), NoMemory>
    requires { file_handle.Fits handle.now }
    ensures { Puts file_handle handle.now out.old out.new result }
{
    nfs3_items::put_handle(out, handle.as_slice())
}

#[tactic(auto, unfolding(nfs3_types::specs::Calls::text, xdr_grammar::specs::Items::opaque, xdr_grammar::specs::Items::word))]
pub fn put_text(out: &mut Vec<u8>, text: &TextRef<'_>) -> Result<(), NoMemory>
    requires { text_grammar.Fits text.now }
    ensures { Puts text_grammar text.now out.old out.new result }
{
    nfs3_items::put_text(out, text.as_slice())
}

#[tactic(auto, unfolding(nfs3_types::specs::Handles::file_handle, xdr_grammar::specs::Items::opaque, xdr_grammar::specs::Items::word))]
pub fn handle_size(handle: &TextRef<'_>) -> usize
    requires { file_handle.Fits handle.now }
    ensures is { result ≡ file_handle.size handle.now }
    ensures small { result < 2 ^ 32 + 8 }
{
    nfs3_items::handle_size(handle.as_slice())
}

#[tactic(auto, unfolding(nfs3_types::specs::Calls::text, xdr_grammar::specs::Items::opaque, xdr_grammar::specs::Items::word))]
pub fn text_size(text: &TextRef<'_>) -> usize
    requires { text_grammar.Fits text.now }
    ensures is { result ≡ text_grammar.size text.now }
    ensures small { result < 2 ^ 32 + 8 }
{
    nfs3_items::text_size(text.as_slice())
}
