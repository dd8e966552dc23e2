//! What is read and written: the arguments of three calls and one result, as they stand on the wire.

ghost use Rattle.std.specs.Prelude.{◌<◌};

use anyhow::Result;
use nfs3_items::put_post_op_attr;
use nfs3_types::{Fattr, FileType, Moment, SpecData};
use std::alloc::Global;
use xdr::{put_fixed, put_hyper, put_opaque, put_truth, put_word};

/// Each file's handle.
const HANDLE: [u8; 24] = [b'h'; 24];

/// The names of entries are its beginnings.
const NAME: [u8; 32] = [b'n'; 32];

/// Each time.
const TIME: Moment = Moment {
    seconds: 1_000,
    nanos: 5,
};

/// Each file's attributes.
const ATTRIBUTES: Fattr = Fattr {
    kind: FileType::Reg,
    mode: 0o644,
    nlink: 1,
    uid: 1_000,
    gid: 1_000,
    size: 4_096,
    used: 4_096,
    rdev: SpecData { major: 0, minor: 0 },
    fsid: 1,
    fileid: 2,
    atime: TIME,
    mtime: TIME,
    ctime: TIME,
};

/// The arguments of GETATTR.
fn get_attr(alloc: Global) -> Result<Vec<u8>> {
    let mut out = Vec::new(alloc);
    put_opaque(&mut out, &HANDLE)?;
    Ok(out)
}

/// The arguments of LOOKUP.
fn lookup(alloc: Global) -> Result<Vec<u8>> {
    let mut out = Vec::new(alloc);
    put_opaque(&mut out, &HANDLE)?;
    put_opaque(&mut out, &NAME[..9])?;
    Ok(out)
}

/// The arguments of WRITE, with 4,096 bytes of content that are to be on the disk (FILE_SYNC).
fn write(alloc: Global) -> Result<Vec<u8>> {
    let mut out = Vec::new(alloc);
    put_opaque(&mut out, &HANDLE)?;
    put_hyper(&mut out, 8_192)?;
    put_word(&mut out, 4_096)?;
    put_word(&mut out, 2)?;
    put_opaque(&mut out, &[b'c'; 4096])?;
    Ok(out)
}

/// Adds the n-th entry of a directory, with its attributes and its handle.
fn put_entry(out: &mut Vec<u8>, n: u8) -> Result<()>
    requires { n < 32 }
{
    put_truth(out, true)?;
    put_hyper(out, u64::from(n))?;
    put_opaque(out, &NAME[..n as usize + 1])?;
    put_hyper(out, u64::from(n) + 1)?;
    put_post_op_attr(out, &Some(ATTRIBUTES))?;
    put_truth(out, true)?;
    put_opaque(out, &HANDLE)?;
    Ok(())
}

/// The result of READDIRPLUS, of status OK and with 32 entries, whose names have 1 to 32 bytes.
fn listing(alloc: Global) -> Result<Vec<u8>> {
    let mut out = Vec::new(alloc);
    put_word(&mut out, 0)?;
    put_post_op_attr(&mut out, &Some(ATTRIBUTES))?;
    put_fixed(&mut out, b"verifier")?;
    for n in 0..32 {
        put_entry(&mut out, n)?;
    }
    put_truth(&mut out, false)?;
    put_truth(&mut out, true)?;
    Ok(out)
}

/// The samples.
#[derive(Drop)]
pub struct Samples {
    /// The arguments of GETATTR.
    pub get_attr: Vec<u8>,
    /// The arguments of LOOKUP.
    pub lookup: Vec<u8>,
    /// The arguments of WRITE.
    pub write: Vec<u8>,
    /// The result of READDIRPLUS.
    pub listing: Vec<u8>,
}

impl Samples {
    /// Makes them.
    pub fn new(alloc: Global) -> Result<Samples> {
        Ok(Samples {
            get_attr: get_attr(alloc)?,
            lookup: lookup(alloc)?,
            write: write(alloc)?,
            listing: listing(alloc)?,
        })
    }
}
