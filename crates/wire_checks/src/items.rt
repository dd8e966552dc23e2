//! Items as RFC 4506, section 4, spells them.

use std::test::*;
use xdr::{Reader, put_fixed, put_hyper, put_opaque, put_truth, put_word};

/// The word 66051, the hyper 72623859790382856, true, the fixed `abcd` and the opaque `hello`.
const ITEMS: &[u8] =
    b"\0\x01\x02\x03\x01\x02\x03\x04\x05\x06\x07\x08\0\0\0\x01abcd\0\0\0\x05hello\0\0\0";

#[test]
fn items_are_read(rt: HostRuntime) {
    let mut reader = Reader::new(ITEMS);
    assert_eq!(rt; reader.word(), Ok(66051));
    assert_eq!(rt; reader.hyper(), Ok(72623859790382856));
    assert_eq!(rt; reader.truth(), Ok(true));
    assert_eq!(rt; reader.fixed(4), Ok(b"abcd".as_slice()));
    assert_eq!(rt; reader.opaque(5), Ok(b"hello".as_slice()));
    assert_eq!(rt; reader.end(), Ok(()));
}

#[test]
fn items_are_written(rt: HostRuntime) -> Result<(), Fail> {
    let mut out = Vec::new(rt.alloc());
    put_word(&mut out, 66051)?;
    put_hyper(&mut out, 72623859790382856)?;
    put_truth(&mut out, true)?;
    put_fixed(&mut out, b"abcd")?;
    put_opaque(&mut out, b"hello")?;
    assert_eq!(rt; out.as_slice(), ITEMS);
    Ok(())
}
