use file_content::Content;
use std::alloc::Global;
use std::test::*;

/// In each row a size is given, then bytes are written at an offset, and then all is read.
#[test]
fn a_file_shows_what_was_written_since_it_was_cut(rt: HostRuntime) -> Result<(), Fail> {
    let alloc = rt.alloc();
    let rows: [(u64, u32, [u8; 2], &[u8]); 6] = [
        (0, 2, *b"ab", b"\0\0ab"),
        (4, 3, *b"cd", b"\0\0acd"),
        (6, 0, *b"ef", b"efacd\0"),
        (3, 6, *b"gh", b"efa\0\0\0gh"),
        (7, 1, *b"ij", b"eij\0\0\0g"),
        (9, 7, *b"kl", b"eij\0\0\0gkl"),
    ];
    let mut content = Content::new(alloc);
    assert!(rt; content.is_empty());
    for (size, offset, bytes, shown) in rows {
        content.resize(size);
        content.write(alloc, offset as u64, &bytes)?;
        let copy = content.copy(alloc)?;
        assert_eq!(rt; copy.read(alloc, 0, 99)?.as_slice(), shown);
        assert_eq!(rt; copy.len(), shown.len() as u64);
    }
    assert_eq!(rt; content.read(alloc, 1, 3)?.as_slice(), b"ij\0".as_slice());
    Ok(())
}

/// One byte at the end of a terabyte, behind as much that takes no memory.
#[test]
fn a_hole_of_a_terabyte_is_zeros_and_takes_no_memory(rt: HostRuntime) -> Result<(), Fail> {
    let alloc = rt.alloc();
    let end = (1 << 40) - 1;
    let mut content = Content::zeros(alloc, 1 << 39);
    content.write(alloc, end, b"e")?;
    assert_eq!(rt; content.len(), 1 << 40);
    assert_eq!(rt;
        content.read(alloc, end - 2, 9)?.as_slice(),
        b"\0\0e".as_slice()
    );
    assert_eq!(rt; content.read(alloc, 5, 2)?.as_slice(), b"\0\0".as_slice());
    assert!(rt; content.read(alloc, end + 1, 2)?.is_empty());
    Ok(())
}
