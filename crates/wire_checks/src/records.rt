//! Records of a stream in pieces, and at their limits.

use rpc_records::{RecordFault, Records};
use std::alloc::Global;
use std::test::*;

/// A call of NULL in five fragments, of 10, 0, 20, 0 and 10 bytes.
const FIVE_FRAGMENTS: [u8; 60] = [
    0, 0, 0, 10, 0, 0, 0, 1, 0, 0, 0, 0, 0, 0, 0, 0, 0, 0, 0, 0, 0, 20, 0, 2, 0, 1, 0x86, 0xa3, 0,
    0, 0, 3, 0, 0, 0, 0, 0, 0, 0, 0, 0, 0, 0, 0, 0, 0, 0x80, 0, 0, 10, 0, 0, 0, 0, 0, 0, 0, 0, 0,
    0,
];

/// The call: 1, 0, version 2, program 100003, version 3, procedure 0, and twice no authentication.
const NULL_CALL: [u8; 40] = [
    0, 0, 0, 1, 0, 0, 0, 0, 0, 0, 0, 2, 0, 1, 0x86, 0xa3, 0, 0, 0, 3, 0, 0, 0, 0, 0, 0, 0, 0, 0, 0,
    0, 0, 0, 0, 0, 0, 0, 0, 0, 0,
];

#[test]
fn a_record_in_five_fragments_comes_a_byte_at_a_time(rt: HostRuntime) -> Result<(), Fail> {
    let mut records = Records::new(rt.alloc())?;
    for _ in 0..2 {
        for byte in FIVE_FRAGMENTS {
            assert_eq!(rt; records.whole(), None);
            assert_eq!(rt; records.feed(&[byte]), Ok(1));
        }
        assert_eq!(rt; records.whole(), Some(NULL_CALL.as_slice()));
        records.next();
        assert_eq!(rt; records.feed(b"\0\0\0"), Ok(3));
        records.begin();
    }
    Ok(())
}

/// What a new reader answers to so many empty fragments, and then to this head with so many bytes behind it,
/// and how long the record is that it then keeps.
fn outcome(
    alloc: Global,
    fragments: usize,
    head: [u8; 4],
    bytes: usize,
) -> Result<(Result<usize, RecordFault>, Option<usize>), Fail> {
    let mut records = Records::new(alloc)?;
    for _ in 0..fragments {
        let _ = records.feed(&[0; 4]);
    }
    let mut text = Vec::from_slice(alloc, &head)?;
    for _ in 0..bytes {
        text.push(7)?;
    }
    let answer = records.feed(&text);
    let whole = records.whole().map(|record| record.len());
    Ok((answer, whole))
}

/// The limits in numbers: 65,536 bytes and 64 fragments.
#[test]
fn the_limits_are_exact(rt: HostRuntime) -> Result<(), Fail> {
    for (fragments, head, bytes, answer, whole) in [
        (0, [0x80, 1, 0, 0], 65_537, Ok(65_540), Some(65_536)),
        (63, [0x80, 1, 0, 1], 0, Err(RecordFault::TooLong), None),
        (63, [0x80, 0, 0, 0], 0, Ok(4), Some(0)),
        (64, [0xff; 4], 0, Err(RecordFault::TooManyFragments), None),
    ] {
        assert_eq!(rt;
            outcome(rt.alloc(), fragments, head, bytes)?,
            (answer, whole)
        );
    }
    Ok(())
}

#[test]
fn a_fault_is_printed(rt: HostRuntime) -> Result<(), Fail> {
    let error = RecordFault::TooManyFragments;
    assert_eq!(rt;
        format!(in rt.alloc(); "{error}")?.as_str(),
        "a record has too many fragments"
    );
    Ok(())
}
