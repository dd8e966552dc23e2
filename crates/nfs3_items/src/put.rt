//! Writing texts, numbers that are named, times and devices.

ghost use Rattle.std.specs.Prelude.{◌^◌, ◌<◌, length, IfSome};
ghost use Rattle.xdr_grammar.specs.Writing.{Puts};
ghost use Rattle.nfs3_types.specs.Statuses.{status as status_grammar};
ghost use Rattle.nfs3_types.specs.FileTypes.{file_type};
ghost use Rattle.nfs3_types.specs.Stability.{stable_how};
ghost use Rattle.nfs3_types.specs.Handles.{file_handle, post_op_handle};
ghost use Rattle.nfs3_types.specs.Attributes.{time, spec_data};
ghost use Rattle.nfs3_types.specs.Calls.{text as text_grammar, verifier as verifier_grammar};

use nfs3_types::{FileType, Moment, NoMemory, SpecData, StableHow, Status, Text};
use xdr::{put_fixed, put_opaque, put_truth, put_word};

/// Adds a name, a path or content (filename3, nfspath3).
#[tactic(auto, unfolding(nfs3_types::specs::Calls::text, xdr_grammar::specs::Items::opaque, xdr_grammar::specs::Items::fixed, xdr_grammar::specs::Items::word))]
pub fn put_text(out: &mut Vec<u8>, text: &[u8]) -> Result<(), NoMemory>
    requires { length text.now < 2 ^ 32 }
    ensures { Puts text_grammar text.now out.old out.new result }
{
    put_opaque(out, text)
}

/// Adds a file handle (nfs_fh3).
#[tactic(auto, unfolding(nfs3_types::specs::Handles::file_handle, xdr_grammar::specs::Items::opaque, xdr_grammar::specs::Items::fixed, xdr_grammar::specs::Items::word))]
pub fn put_handle(out: &mut Vec<u8>, handle: &[u8]) -> Result<(), NoMemory>
    requires { length handle.now < 2 ^ 32 }
    ensures { Puts file_handle handle.now out.old out.new result }
{
    put_opaque(out, handle)
}

/// Adds a file handle that may be absent (post_op_fh3).
#[tactic(auto, unfolding(nfs3_types::specs::Handles::post_op_handle, xdr_grammar::specs::Items::truth, xdr_grammar::specs::Items::word))]
pub fn put_post_op_handle(out: &mut Vec<u8>, handle: &Option<Text>) -> Result<(), NoMemory>
    requires { IfSome handle.now (λ handle. length handle < 2 ^ 32) }
    ensures { Puts post_op_handle handle.now out.old out.new result }
{
    match handle {
        Some(handle) => {
            put_truth(out, true)?;
            put_handle(out, handle.as_slice())
        }
        None => put_truth(out, false),
    }
}

/// Adds a verifier of eight bytes (cookieverf3, createverf3, writeverf3).
#[tactic(auto, unfolding(nfs3_types::specs::Calls::verifier, xdr_grammar::specs::Items::fixed))]
pub fn put_verifier(out: &mut Vec<u8>, verifier: [u8; 8]) -> Result<(), NoMemory>
    ensures { Puts verifier_grammar verifier out.old out.new result }
{
    put_fixed(out, &verifier)
}

/// Adds a status (nfsstat3).
#[tactic(auto, unfolding(nfs3_types::specs::Statuses::status, xdr_grammar::specs::Enumerations::enumeration, xdr_grammar::specs::Items::word))]
pub fn put_status(out: &mut Vec<u8>, status: Status) -> Result<(), NoMemory>
    ensures { Puts status_grammar status out.old out.new result }
{
    put_word(out, status.number())
}

/// Adds a file's type (ftype3).
#[tactic(auto, unfolding(nfs3_types::specs::FileTypes::file_type, xdr_grammar::specs::Enumerations::enumeration, xdr_grammar::specs::Items::word))]
pub fn put_file_type(out: &mut Vec<u8>, kind: FileType) -> Result<(), NoMemory>
    ensures { Puts file_type kind out.old out.new result }
{
    put_word(out, kind.number())
}

/// Adds how lasting a write is (stable_how).
#[tactic(auto, unfolding(nfs3_types::specs::Stability::stable_how, xdr_grammar::specs::Enumerations::enumeration, xdr_grammar::specs::Items::word))]
pub fn put_stable_how(out: &mut Vec<u8>, stable: StableHow) -> Result<(), NoMemory>
    ensures { Puts stable_how stable out.old out.new result }
{
    put_word(out, stable.number())
}

/// Adds a time (nfstime3).
#[tactic(auto, unfolding(nfs3_types::specs::Attributes::time, xdr_grammar::specs::Items::word))]
pub fn put_time(out: &mut Vec<u8>, moment: Moment) -> Result<(), NoMemory>
    ensures { Puts time moment out.old out.new result }
{
    put_word(out, moment.seconds)?;
    put_word(out, moment.nanos)
}

/// Adds which device it is (specdata3).
#[tactic(auto, unfolding(nfs3_types::specs::Attributes::spec_data, xdr_grammar::specs::Items::word))]
pub fn put_spec_data(out: &mut Vec<u8>, spec: SpecData) -> Result<(), NoMemory>
    ensures { Puts spec_data spec out.old out.new result }
{
    put_word(out, spec.major)?;
    put_word(out, spec.minor)
}
