//! The bodies of MOUNT's replies (RFC 1813, appendix I).

use mount3::{Exports, MountFault, answer_mount};
use std::test::*;
use xdr_grammar::XdrFault;

/// The file system 2 ^ 32.
const EXPORTS: Exports = Exports { fsid: 1 << 32 };

#[test]
fn calls_are_answered_and_garbage_is_refused(rt: HostRuntime) -> Result<(), Fail> {
    let garbage = Err(MountFault::Garbage(XdrFault::TooLong));
    let cases: [(u32, &[u8], Result<(), MountFault>, &[u8]); 8] = [
        (0, b"", Ok(()), b""),
        // MNT of the root: its handle, AUTH_SYS and AUTH_NONE
        (
            1,
            b"\0\0\0\x01/\x09\x09\x09",
            Ok(()),
            b"\0\0\0\0\0\0\0\x18\0\0\0\x01\0\0\0\0\0\0\0\0\0\0\0\0\0\0\0\0\0\0\0\x01\0\0\0\x02\0\0\0\x01\0\0\0\0",
        ),
        (1, b"\0\0\0\x02//\0\0", Ok(()), b"\0\0\0\x02"),
        (1, b"\0\0\x04\x01/\0\0\0", garbage, b""),
        (2, b"", Ok(()), b"\0\0\0\0"),
        (3, b"\0\0\0\x01/\0\0\0", Ok(()), b""),
        (4, b"", Ok(()), b""),
        // EXPORT: `/`, to all hosts
        (
            5,
            b"",
            Ok(()),
            b"\0\0\0\x01\0\0\0\x01/\0\0\0\0\0\0\0\0\0\0\0",
        ),
    ];
    let mut out = Vec::new(rt.alloc());
    for (procedure, args, wanted, body) in cases {
        out.clear();
        assert_eq!(rt; answer_mount(procedure, args, &EXPORTS, &mut out), wanted);
        assert_eq!(rt; out.as_slice(), body);
    }
    Ok(())
}

#[test]
fn a_fault_is_printed(rt: HostRuntime) -> Result<(), Fail> {
    let error = MountFault::Garbage(XdrFault::Short);
    assert_eq!(rt;
        format!(in rt.alloc(); "{error}")?.as_str(),
        "the arguments of a MOUNT call do not read: the text is too short"
    );
    Ok(())
}
