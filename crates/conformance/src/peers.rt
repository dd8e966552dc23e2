//! A peer that sends its next call only once it has the whole replies to the earlier ones.

use outside::{Calm, ListClock, MemSink, StdSink, StdSource, Text};
use std::alloc::{AllocError, Global};
use std::cell::Cell;
use std::io::{self, ErrorKind, Read, Write};

/// NULL with an empty credential, as a record of one fragment.
const CALL: [u8; 44] =
    *b"\x80\0\0\x28\0\0\0\x01\0\0\0\0\0\0\0\x02\0\x01\x86\xa3\0\0\0\x03\0\0\0\0\0\0\0\0\0\0\0\0\0\0\0\0\0\0\0\0";

/// How many bytes its reply has.
const REPLY: usize = 28;

/// How many calls are sent.
const CALLS: usize = 3;

/// Where the calls come from. A call that would have to wait for a reply fails in its place.
#[derive(Drop)]
struct Calls<'a> {
    sent: usize,
    received: &'a Cell<usize>,
}

impl Read for Calls<'_> {
    fn read(&mut self, room: &mut [u8]) -> io::Result<usize> {
        if CALLS <= self.sent {
            return Ok(0);
        }
        if self.received.get() < REPLY * self.sent || room.len() < CALL.len() {
            return Err(ErrorKind::WouldBlock.into());
        }
        room[..CALL.len()].copy_from_slice(&CALL);
        self.sent += 1;
        Ok(CALL.len())
    }
}

/// Where the replies go, at most five bytes at a time.
#[derive(Drop)]
struct Replies<'a> {
    received: &'a Cell<usize>,
}

impl Write for Replies<'_> {
    fn write(&mut self, part: &[u8]) -> io::Result<usize> {
        let n = part.len().min(5);
        self.received.set(self.received.get().saturating_add(n));
        Ok(n)
    }

    fn flush(&mut self) -> io::Result<()> {
        Ok(())
    }
}

/// Runs the service on such a peer. The exit status, and how many bytes of replies the peer has. Each reply has to be
/// written whole before the input is read again, the input's end too.
pub fn play(alloc: Global) -> Result<(u8, usize), AllocError> {
    let mut words = Vec::new(alloc);
    words.push(String::from_str(alloc, "feed")?)?;
    let received = Cell::new(0);
    let calls = Calls {
        sent: 0,
        received: &received,
    };
    let replies = Replies {
        received: &received,
    };
    let status = service::run(
        alloc,
        &words,
        &mut StdSource::new(calls),
        &mut StdSink::new(replies),
        &mut MemSink::new(alloc, 100, Text::new(alloc)),
        &mut ListClock::new(Vec::new(alloc)),
        &mut Calm,
    );
    Ok((status, received.get()))
}
