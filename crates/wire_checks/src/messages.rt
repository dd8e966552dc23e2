//! Heads, credentials and replies as RFC 5531, sections 8 and 9, has them.

use rpc_msg::{
    CredFault, HeadFault, Who, own_cred, read_call, read_cred, write_accepted, write_accepted_head,
    write_denied,
};
use std::test::*;

/// The head of a call of NULL, xid 1, and a byte behind it.
const CALL: [u8; 25] = [
    0, 0, 0, 1, 0, 0, 0, 0, 0, 0, 0, 2, 0, 1, 0x86, 0xa3, 0, 0, 0, 3, 0, 0, 0, 0, 7,
];

#[test]
fn a_head_is_read(rt: HostRuntime) {
    let Ok(head) = read_call(&CALL) else {
        assert!(rt; false, "the head is whole");
        return;
    };
    assert_eq!(rt; (head.xid, head.rpcvers, head.prog), (1, 2, 100_003));
    assert_eq!(rt; (head.vers, head.procedure), (3, 0));
    assert_eq!(rt; head.tail, [7].as_slice());
    assert_eq!(rt; read_call(&CALL[..23]).err(), Some(HeadFault::Short));
}

/// Credentials and verifiers by what they show: who calls, and how many bytes of arguments follow, or the
/// first refusal.
#[test]
fn credentials_are_read_and_refused(rt: HostRuntime) {
    let cases: [(&[u8], Result<(u32, u32, &[u8], usize), CredFault>); 5] = [
        // AUTH_NONE, and a byte of arguments
        (
            b"\0\0\0\0\0\0\0\0\0\0\0\0\0\0\0\0\x07",
            Ok((65534, 65534, &[], 1)),
        ),
        // AUTH_SYS of machine m, user 5, group 6, and the other groups 7 and 8; a verifier of any flavor
        (
            b"\0\0\0\x01\0\0\0\x20\x09\x09\x09\x09\0\0\0\x01m\0\0\0\0\0\0\x05\0\0\0\x06\0\0\0\x02\0\0\0\x07\0\0\0\x08\0\0\0\x06\0\0\0\0",
            Ok((5, 6, b"\0\0\0\x07\0\0\0\x08", 0)),
        ),
        // AUTH_SYS with 17 groups
        (
            b"\0\0\0\x01\0\0\0\x14\0\0\0\0\0\0\0\0\0\0\0\0\0\0\0\0\0\0\0\x11\0\0\0\0\0\0\0\0",
            Err(CredFault::BadCred),
        ),
        // flavor 6, and before that its verifier of 401 bytes
        (
            b"\0\0\0\x06\0\0\0\0\0\0\0\0\0\0\0\0",
            Err(CredFault::TooWeak),
        ),
        (
            b"\0\0\0\x06\0\0\0\0\0\0\0\0\0\0\x01\x91",
            Err(CredFault::BadVerf),
        ),
    ];
    for (tail, wanted) in cases {
        let read = read_cred(tail).map(|r| (r.0.uid, r.0.gid, r.0.gids, r.1.len()));
        assert_eq!(rt; read, wanted);
    }
}

/// A denial for the RPC version, one for the credential, an accepted reply that names the version it has,
/// and the head of one with four bytes of results.
#[test]
fn replies_are_records(rt: HostRuntime) -> Result<(), Fail> {
    let mut out = Vec::new(rt.alloc());
    write_denied(3, [0, 2, 2], 3, &mut out)?;
    write_denied(5, [1, 3, 0], 2, &mut out)?;
    write_accepted(4, 2, b"\0\0\0\x03\0\0\0\x03", &mut out)?;
    write_accepted_head(6, 0, 4, &mut out)?;
    let wanted: [&[u8]; 4] = [
        b"\x80\0\0\x18\0\0\0\x03\0\0\0\x01\0\0\0\x01\0\0\0\0\0\0\0\x02\0\0\0\x02",
        b"\x80\0\0\x14\0\0\0\x05\0\0\0\x01\0\0\0\x01\0\0\0\x01\0\0\0\x03",
        b"\x80\0\0\x20\0\0\0\x04\0\0\0\x01\0\0\0\0\0\0\0\0\0\0\0\0\0\0\0\x02\0\0\0\x03\0\0\0\x03",
        b"\x80\0\0\x1c\0\0\0\x06\0\0\0\x01\0\0\0\0\0\0\0\0\0\0\0\0\0\0\0\0",
    ];
    let mut all = Vec::new(rt.alloc());
    for record in wanted {
        all.extend_from_slice(record)?;
    }
    assert_eq!(rt; out.as_slice(), all.as_slice());
    Ok(())
}

#[test]
fn a_caller_is_owned(rt: HostRuntime) -> Result<(), Fail> {
    let who = Who {
        uid: 7,
        gid: 8,
        gids: b"\0\0\0\x09",
    };
    let cred = own_cred(rt.alloc(), &who)?;
    assert_eq!(rt; (cred.uid, cred.gid), (7, 8));
    assert_eq!(rt; cred.gids.as_slice(), b"\0\0\0\x09".as_slice());
    Ok(())
}

#[test]
fn faults_are_printed(rt: HostRuntime) -> Result<(), Fail> {
    let head = HeadFault::NotCall;
    assert_eq!(rt;
        format!(in rt.alloc(); "{head}")?.as_str(),
        "the record is not a call"
    );
    let cred = CredFault::TooWeak;
    assert_eq!(rt;
        format!(in rt.alloc(); "{cred}")?.as_str(),
        "the credential's flavor is not taken"
    );
    Ok(())
}
