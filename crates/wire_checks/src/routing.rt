//! Records that are answered without the tree, and records of replies.

use mount3::Exports;
use nfs3_res::{ResFault, read_reply};
use nfs3_types::Status;
use rpc_msg::HeadFault;
use rpc_route::{RouteFault, Routed, route, seal, seal_bare, seal_system};
use std::alloc::Global;
use std::test::*;

/// The file system 2 ^ 32.
const EXPORTS: Exports = Exports { fsid: 1 << 32 };

/// Records that need no tree, and their replies, worked out by hand.
#[test]
fn what_needs_no_tree_is_answered(rt: HostRuntime) -> Result<(), Fail> {
    let cases: [(&[u8], &[u8]); 16] = [
        // NULL
        (
            b"\0\0\0\x01\0\0\0\0\0\0\0\x02\0\x01\x86\xa3\0\0\0\x03\0\0\0\0\0\0\0\0\0\0\0\0\0\0\0\0\0\0\0\0",
            b"\x80\0\0\x18\0\0\0\x01\0\0\0\x01\0\0\0\0\0\0\0\0\0\0\0\0\0\0\0\0",
        ),
        // RPC version 3, of a program that is not there
        (
            b"\0\0\0\x02\0\0\0\0\0\0\0\x03\0\x01\x86\xa4\0\0\0\x03\0\0\0\0\0\0\0\0\0\0\0\0\0\0\0\0\0\0\0\0",
            b"\x80\0\0\x18\0\0\0\x02\0\0\0\x01\0\0\0\x01\0\0\0\0\0\0\0\x02\0\0\0\x02",
        ),
        // version 2 of NFS
        (
            b"\0\0\0\x03\0\0\0\0\0\0\0\x02\0\x01\x86\xa3\0\0\0\x02\0\0\0\0\0\0\0\0\0\0\0\0\0\0\0\0\0\0\0\0",
            b"\x80\0\0\x20\0\0\0\x03\0\0\0\x01\0\0\0\0\0\0\0\0\0\0\0\0\0\0\0\x02\0\0\0\x03\0\0\0\x03",
        ),
        // procedure 22
        (
            b"\0\0\0\x04\0\0\0\0\0\0\0\x02\0\x01\x86\xa3\0\0\0\x03\0\0\0\x16\0\0\0\0\0\0\0\0\0\0\0\0\0\0\0\0",
            b"\x80\0\0\x18\0\0\0\x04\0\0\0\x01\0\0\0\0\0\0\0\0\0\0\0\0\0\0\0\x03",
        ),
        // program 100004
        (
            b"\0\0\0\x05\0\0\0\0\0\0\0\x02\0\x01\x86\xa4\0\0\0\x03\0\0\0\0\0\0\0\0\0\0\0\0\0\0\0\0\0\0\0\0",
            b"\x80\0\0\x18\0\0\0\x05\0\0\0\x01\0\0\0\0\0\0\0\0\0\0\0\0\0\0\0\x01",
        ),
        // a NULL call with four bytes more
        (
            b"\0\0\0\x06\0\0\0\0\0\0\0\x02\0\x01\x86\xa3\0\0\0\x03\0\0\0\0\0\0\0\0\0\0\0\0\0\0\0\0\0\0\0\0\0\0\0\0",
            b"\x80\0\0\x18\0\0\0\x06\0\0\0\x01\0\0\0\0\0\0\0\0\0\0\0\0\0\0\0\x04",
        ),
        // MKNOD of a pipe
        (
            b"\0\0\0\x07\0\0\0\0\0\0\0\x02\0\x01\x86\xa3\0\0\0\x03\0\0\0\x0b\0\0\0\0\0\0\0\0\0\0\0\0\0\0\0\0\0\0\0\x04hand\0\0\0\x01a\0\0\0\0\0\0\x07\0\0\0\0\0\0\0\0\0\0\0\0\0\0\0\0\0\0\0\0\0\0\0\0",
            b"\x80\0\0\x24\0\0\0\x07\0\0\0\x01\0\0\0\0\0\0\0\0\0\0\0\0\0\0\0\0\0\0\x27\x14\0\0\0\0\0\0\0\0",
        ),
        // flavor 6, though the version is wrong too
        (
            b"\0\0\0\x08\0\0\0\0\0\0\0\x02\0\x01\x86\xa3\0\0\0\x02\0\0\0\0\0\0\0\x06\0\0\0\0\0\0\0\0\0\0\0\0",
            b"\x80\0\0\x14\0\0\0\x08\0\0\0\x01\0\0\0\x01\0\0\0\x01\0\0\0\x05",
        ),
        // a credential of 401 bytes
        (
            b"\0\0\0\x09\0\0\0\0\0\0\0\x02\0\x01\x86\xa3\0\0\0\x03\0\0\0\0\0\0\0\0\0\0\x01\x91",
            b"\x80\0\0\x14\0\0\0\x09\0\0\0\x01\0\0\0\x01\0\0\0\x01\0\0\0\x01",
        ),
        // no verifier
        (
            b"\0\0\0\x0a\0\0\0\0\0\0\0\x02\0\x01\x86\xa3\0\0\0\x03\0\0\0\0\0\0\0\0\0\0\0\0\0\0\0\0",
            b"\x80\0\0\x14\0\0\0\x0a\0\0\0\x01\0\0\0\x01\0\0\0\x01\0\0\0\x03",
        ),
        // a handle of 65 bytes
        (
            b"\0\0\0\x0b\0\0\0\0\0\0\0\x02\0\x01\x86\xa3\0\0\0\x03\0\0\0\x01\0\0\0\0\0\0\0\0\0\0\0\0\0\0\0\0\0\0\0Ahhhhhhhhhhhhhhhhhhhhhhhhhhhhhhhhhhhhhhhhhhhhhhhhhhhhhhhhhhhhhhhhhhhh",
            b"\x80\0\0\x18\0\0\0\x0b\0\0\0\x01\0\0\0\0\0\0\0\0\0\0\0\0\0\0\0\x04",
        ),
        // a guard word of 2
        (
            b"\0\0\0\x0c\0\0\0\0\0\0\0\x02\0\x01\x86\xa3\0\0\0\x03\0\0\0\x02\0\0\0\0\0\0\0\0\0\0\0\0\0\0\0\0\0\0\0\x04hand\0\0\0\0\0\0\0\0\0\0\0\0\0\0\0\0\0\0\0\0\0\0\0\0\0\0\0\x02",
            b"\x80\0\0\x18\0\0\0\x0c\0\0\0\x01\0\0\0\0\0\0\0\0\0\0\0\0\0\0\0\x04",
        ),
        // MNT of the root
        (
            b"\0\0\0\x0d\0\0\0\0\0\0\0\x02\0\x01\x86\xa5\0\0\0\x03\0\0\0\x01\0\0\0\0\0\0\0\0\0\0\0\0\0\0\0\0\0\0\0\x01\x2f\0\0\0",
            b"\x80\0\0D\0\0\0\x0d\0\0\0\x01\0\0\0\0\0\0\0\0\0\0\0\0\0\0\0\0\0\0\0\0\0\0\0\x18\0\0\0\x01\0\0\0\0\0\0\0\0\0\0\0\0\0\0\0\0\0\0\0\x01\0\0\0\x02\0\0\0\x01\0\0\0\0",
        ),
        // MNT of another path
        (
            b"\0\0\0\x0e\0\0\0\0\0\0\0\x02\0\x01\x86\xa5\0\0\0\x03\0\0\0\x01\0\0\0\0\0\0\0\0\0\0\0\0\0\0\0\0\0\0\0\x01a\0\0\0",
            b"\x80\0\0\x1c\0\0\0\x0e\0\0\0\x01\0\0\0\0\0\0\0\0\0\0\0\0\0\0\0\0\0\0\0\x02",
        ),
        // procedure 6 of MOUNT
        (
            b"\0\0\0\x0f\0\0\0\0\0\0\0\x02\0\x01\x86\xa5\0\0\0\x03\0\0\0\x06\0\0\0\0\0\0\0\0\0\0\0\0\0\0\0\0",
            b"\x80\0\0\x18\0\0\0\x0f\0\0\0\x01\0\0\0\0\0\0\0\0\0\0\0\0\0\0\0\x03",
        ),
        // EXPORT
        (
            b"\0\0\0\x10\0\0\0\0\0\0\0\x02\0\x01\x86\xa5\0\0\0\x03\0\0\0\x05\0\0\0\0\0\0\0\0\0\0\0\0\0\0\0\0",
            b"\x80\0\0\x2c\0\0\0\x10\0\0\0\x01\0\0\0\0\0\0\0\0\0\0\0\0\0\0\0\0\0\0\0\x01\0\0\0\x01\x2f\0\0\0\0\0\0\0\0\0\0\0",
        ),
    ];
    for (text, reply) in cases {
        let mut out = Vec::new(rt.alloc());
        assert!(rt; matches!(route(text, &EXPORTS, &mut out)?, Routed::Ready));
        assert_eq!(rt; out.as_slice(), reply);
    }
    Ok(())
}

/// A GETATTR needs the tree, and a record of 23 bytes or one whose second word is 1 is no call.
#[test]
fn what_needs_the_tree_is_handed_on(rt: HostRuntime) -> Result<(), Fail> {
    let text =
        b"\0\0\0\x07\0\0\0\0\0\0\0\x02\0\x01\x86\xa3\0\0\0\x03\0\0\0\x01\0\0\0\0\0\0\0\0\0\0\0\0\0\0\0\0\0\0\0\x04hand";
    let mut out = Vec::new(rt.alloc());
    assert!(rt; matches!(route(text, &EXPORTS, &mut out)?, Routed::Nfs { xid: 7, .. }));
    assert!(rt; out.is_empty());
    let short = route(&text[..23], &EXPORTS, &mut out).err();
    assert_eq!(rt; short, Some(RouteFault::BadRecord(HeadFault::Short)));
    let reply =
        b"\0\0\0\x01\0\0\0\x01\0\0\0\x02\0\x01\x86\xa3\0\0\0\x03\0\0\0\0\0\0\0\0\0\0\0\0\0\0\0\0\0\0\0\0";
    let other = route(reply, &EXPORTS, &mut out).err();
    assert_eq!(rt; other, Some(RouteFault::BadRecord(HeadFault::NotCall)));
    Ok(())
}

#[test]
fn want_of_memory_is_sealed(rt: HostRuntime) -> Result<(), Fail> {
    let mut out = Vec::with_capacity(rt.alloc(), 28)?;
    seal_system(9, &mut out);
    assert_eq!(rt;
        out.as_slice(),
        b"\x80\0\0\x18\0\0\0\x09\0\0\0\x01\0\0\0\0\0\0\0\0\0\0\0\0\0\0\0\x05".as_slice()
    );
    let fault = RouteFault::NoMemory(9);
    assert_eq!(rt;
        format!(in rt.alloc(); "{fault}")?.as_str(),
        "no memory for the reply to call 9"
    );
    Ok(())
}

/// The record of the reply that the text is read as, for call 7.
fn sealed_as_read(alloc: Global, procedure: u32, text: &[u8]) -> Result<Vec<u8>, ResFault> {
    let mut out = Vec::new(alloc);
    if procedure > 21 || text.len() > 1000 {
        return Ok(out);
    }
    let reply = read_reply(alloc, procedure, text)?;
    seal(7, &reply, &mut out)?;
    Ok(out)
}

/// A PATHCONF that succeeds: no attributes, 32000 links, names of 255 bytes, true, true, false and true.
#[test]
fn a_reply_is_sealed(rt: HostRuntime) -> Result<(), Fail> {
    let text =
        b"\0\0\0\0\0\0\0\0\0\0\x7d\0\0\0\0\xff\0\0\0\x01\0\0\0\x01\0\0\0\0\0\0\0\x01".as_slice();
    let out = sealed_as_read(rt.alloc(), 20, text)
        .ok()
        .ok_or("no record")?;
    assert_eq!(rt;
        out.as_slice(),
        b"\x80\0\0\x38\0\0\0\x07\0\0\0\x01\0\0\0\0\0\0\0\0\0\0\0\0\0\0\0\0\0\0\0\0\0\0\0\0\0\0\x7d\0\0\0\0\xff\0\0\0\x01\0\0\0\x01\0\0\0\0\0\0\0\x01".as_slice()
    );
    Ok(())
}

/// Failures of each shape: with nothing told, no attributes, no change, no two changes, and no attributes and
/// no change.
#[test]
fn failures_are_sealed_bare(rt: HostRuntime) -> Result<(), Fail> {
    let mut out = Vec::with_capacity(rt.alloc(), 48)?;
    // GETATTR
    seal_bare(9, 1, Status::Stale, &mut out);
    assert_eq!(rt;
        out.as_slice(),
        b"\x80\0\0\x1c\0\0\0\x09\0\0\0\x01\0\0\0\0\0\0\0\0\0\0\0\0\0\0\0\0\0\0\0\x46".as_slice()
    );
    out.clear();
    // LOOKUP
    seal_bare(9, 3, Status::NoEnt, &mut out);
    assert_eq!(rt;
        out.as_slice(),
        b"\x80\0\0\x20\0\0\0\x09\0\0\0\x01\0\0\0\0\0\0\0\0\0\0\0\0\0\0\0\0\0\0\0\x02\0\0\0\0".as_slice()
    );
    out.clear();
    // SETATTR
    seal_bare(9, 2, Status::NotSync, &mut out);
    assert_eq!(rt;
        out.as_slice(),
        b"\x80\0\0\x24\0\0\0\x09\0\0\0\x01\0\0\0\0\0\0\0\0\0\0\0\0\0\0\0\0\0\0\x27\x12\0\0\0\0\0\0\0\0".as_slice()
    );
    out.clear();
    // RENAME
    seal_bare(9, 14, Status::Xdev, &mut out);
    assert_eq!(rt;
        out.as_slice(),
        b"\x80\0\0\x2c\0\0\0\x09\0\0\0\x01\0\0\0\0\0\0\0\0\0\0\0\0\0\0\0\0\0\0\0\x12\0\0\0\0\0\0\0\0\0\0\0\0\0\0\0\0".as_slice()
    );
    out.clear();
    // LINK
    seal_bare(9, 15, Status::MLink, &mut out);
    assert_eq!(rt;
        out.as_slice(),
        b"\x80\0\0\x28\0\0\0\x09\0\0\0\x01\0\0\0\0\0\0\0\0\0\0\0\0\0\0\0\0\0\0\0\x1f\0\0\0\0\0\0\0\0\0\0\0\0".as_slice()
    );
    Ok(())
}
