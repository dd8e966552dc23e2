//! Answering a call.

ghost use Rattle.std.specs.Prelude.{◌≡◌, ◌≢◌, ◌↔◌, ◌+◌, ◌-◌, ◌^◌, ◌<◌, ◌≤◌, ◌++◌, List, [], ◌∷◌, Err, vec_len, vec_capacity};
ghost use Rattle.std.specs.Prelude.{OnOk, OnErr, IsOk};
ghost use Rattle.xdr_grammar.specs.declared.fault.XdrFault.{XdrFault};
ghost use Rattle.xdr_grammar.specs.Items.{word, opaque};
ghost use Rattle.xdr_grammar.specs.Arrays.{array};
ghost use Rattle.xdr_grammar.specs.Reading.{GivesWhole};
ghost use Rattle.xdr_grammar.specs.Whole.{whole};
ghost use Rattle.xdr_grammar.specs.Writing.{Puts};
ghost use Rattle.mount3.specs.Protocol.{arguments, mount_result, mount_list, exports};
ghost use Rattle.mount3.specs.Answering.{Answers, body, exported, mount, root_handle};

use crate::procedures::{DUMP, EXPORT, MNT, UMNT};
use nfs3_types::NoMemory;
use thiserror::Error;
use xdr::{Reader, put_hyper, put_opaque, put_truth, put_word};
use xdr_grammar::XdrFault;

/// The greatest length of a path in bytes (MNTPATHLEN).
const MNTPATHLEN: u32 = 1024;

/// The status of a MNT that succeeds (MNT3_OK).
const MNT3_OK: u32 = 0;

/// The status of a MNT of a path that is not exported (MNT3ERR_NOENT).
const MNT3ERR_NOENT: u32 = 2;

/// The flavor of credentials that name a user by number (RFC 5531, section 8.1).
const AUTH_SYS: u32 = 1;

/// The flavor of credentials that say nothing.
const AUTH_NONE: u32 = 0;

/// The root's file id.
const ROOT: u64 = 1;

/// The length of a handle in bytes.
const HANDLE: u32 = 24;

/// How many bytes the longest body has.
const LONGEST_BODY: usize = 44;

/// What is exported: `/`, the root of one file system, to all hosts.
#[derive(Clone, Copy, Debug, PartialEq, Eq)]
pub struct Exports {
    /// The id of the file system, with which its handles begin.
    pub fsid: u64,
}

/// Why a call has no body.
#[derive(Clone, Copy, Debug, PartialEq, Eq, Error)]
pub enum MountFault {
    /// The arguments do not spell what the procedure takes, with the first fault.
    #[error("the arguments of a MOUNT call do not read: {0}")]
    Garbage(XdrFault),
    /// Memory ran out.
    #[error("no memory")]
    NoMemory,
}

/// Reads the arguments: a path, which is empty where the procedure takes none.
#[tactic(auto, unfolding(crate::specs::Protocol::arguments, crate::specs::Protocol::dirpath))]
fn read_path(procedure: u32, args: &[u8]) -> Result<&[u8], XdrFault>
    ensures { GivesWhole (λ path. path.now) (whole (arguments procedure) args.now) result }
{
    let mut reader = Reader::new(args);
    let path = if procedure == MNT || procedure == UMNT {
        reader.opaque(MNTPATHLEN)?
    } else {
        &args[..0]
    };
    reader.end()?;
    Ok(path)
}

/// Puts the root's handle.
#[tactic(auto, using(crate::proofs::Bodies::root_handle_size))]
fn put_handle(out: &mut Vec<u8>, exports: Exports) -> Result<(), NoMemory>
    ensures { Puts (opaque 64) (root_handle exports.fsid) out.old out.new result }
{
    put_word(out, HANDLE)?;
    put_hyper(out, exports.fsid)?;
    put_hyper(out, 0)?;
    put_hyper(out, ROOT)
}

/// Puts the flavors of credentials that are taken.
#[tactic(auto, using(crate::proofs::Bodies::flavors_size))]
fn put_flavors(out: &mut Vec<u8>) -> Result<(), NoMemory>
    ensures { Puts (array (2 ^ 32 - 1) word) (1 ∷ 0 ∷ []) out.old out.new result }
{
    put_word(out, 2)?;
    put_word(out, AUTH_SYS)?;
    put_word(out, AUTH_NONE)
}

/// Puts MNT's result for a path.
#[tactic(auto, unfolding(crate::specs::Protocol::mount_result, crate::specs::Protocol::mounted))]
fn put_mount(out: &mut Vec<u8>, exports: Exports, path: &[u8]) -> Result<(), NoMemory>
    ensures { Puts mount_result (mount exports.fsid path.now) out.old out.new result }
{
    if path != b"/".as_slice() {
        return put_word(out, MNT3ERR_NOENT);
    }
    put_word(out, MNT3_OK)?;
    put_handle(out, exports)?;
    put_flavors(out)
}

/// Puts EXPORT's result.
#[tactic(auto, using(crate::proofs::Bodies::exported_size))]
fn put_exports(out: &mut Vec<u8>) -> Result<(), NoMemory>
    ensures { Puts exports exported out.old out.new result }
{
    put_truth(out, true)?;
    put_opaque(out, b"/".as_slice())?;
    put_truth(out, false)?;
    put_truth(out, false)
}

/// Puts DUMP's result, a list of nothing.
#[tactic(auto, unfolding(crate::specs::Protocol::mount_list, xdr_grammar::specs::Entries::entries))]
fn put_mounts(out: &mut Vec<u8>) -> Result<(), NoMemory>
    ensures { Puts mount_list [] out.old out.new result }
{
    put_truth(out, false)
}

/// Puts the body of the reply.
#[tactic(auto, using(crate::proofs::Bodies::mount_size, crate::proofs::Bodies::exports_size, crate::proofs::Bodies::mounts_size), unfolding(crate::specs::Answering::body))]
fn put_body(
    out: &mut Vec<u8>,
    procedure: u32,
    exports: Exports,
    path: &[u8],
) -> Result<(), NoMemory>
    ensures ok { OnOk result (out.new.items ≡ out.old.items ++ body exports.fsid procedure path.now) }
    ensures small { OnOk result (vec_len out.new ≤ vec_len out.old + 44) }
    ensures err { OnErr result (out.new.items ≡ out.old.items) }
    ensures room { vec_len out.old + 44 ≤ vec_capacity out.old → IsOk result }
    ensures capacity { vec_capacity out.old ≤ vec_capacity out.new }
{
    out.reserve(LONGEST_BODY)?;
    match procedure {
        MNT => put_mount(out, exports, path),
        DUMP => put_mounts(out),
        EXPORT => put_exports(out),
        _ => Ok(()),
    }
}

/// Adds to `out` the body of the reply to a MOUNT call with these arguments. After a refusal it holds
/// what it held before.
pub fn answer_mount(
    procedure: u32,
    args: &[u8],
    e: &Exports,
    out: &mut Vec<u8>,
) -> Result<(), MountFault>
    requires { procedure ≤ 5 }
    ensures ok { OnOk result (Answers e.now.fsid procedure args.now out.old.items out.new.items) }
    ensures small { OnOk result (vec_len out.new ≤ vec_len out.old + 44) }
    ensures garbage { (fault : XdrFault) → (result ≡ Err (MountFault.Garbage fault))
        ↔ (whole (arguments procedure) args.now ≡ Err fault) }
    ensures err { OnErr result (out.new.items ≡ out.old.items) }
    ensures room { vec_len out.old + 44 ≤ vec_capacity out.old → result ≢ Err MountFault.NoMemory }
    ensures capacity { vec_capacity out.old ≤ vec_capacity out.new }
{
    let path = read_path(procedure, args).map_err(MountFault::Garbage)?;
    let Ok(()) = put_body(out, procedure, *e, path) else {
        return Err(MountFault::NoMemory);
    };
    Ok(())
}
