//! Adapters over the machine's objects: what their readers, writers and clocks do.

ghost use Rattle.std.specs.Prelude.{◌≡◌, IfOk};

use outside::{Clock, Failed, Moment, Sink, Source, StdSink, StdSource, WallClock};
use std::io::{ErrorKind, Read, Write};
use std::test::*;
use std::time::Duration;
use std::{io, rt};

/// A reader and a writer that fails at its first call, and then has nothing to give or to take.
#[derive(Drop)]
struct FailsOnce {
    failed: bool,
}

impl FailsOnce {
    /// The next call.
    fn call(&mut self) -> io::Result<usize>
        ensures { IfOk result (λ n. n ≡ 0) }
    {
        if self.failed {
            return Ok(0);
        }
        self.failed = true;
        Err(ErrorKind::Other.into())
    }
}

impl Read for FailsOnce {
    fn read(&mut self, _room: &mut [u8]) -> io::Result<usize> {
        self.call()
    }
}

impl Write for FailsOnce {
    fn write(&mut self, _part: &[u8]) -> io::Result<usize> {
        self.call()
    }

    fn flush(&mut self) -> io::Result<()> {
        Ok(())
    }
}

#[test]
fn a_reader_is_a_source(rt: HostRuntime) {
    let mut room = [0u8; 2];
    let mut source = StdSource::new(b"abc".as_slice());
    for (want, first) in [(Ok(2), b'a'), (Ok(1), b'c'), (Ok(0), b'c')] {
        assert_eq!(rt; source.take(&mut room), want);
        assert_eq!(rt; room[0], first);
    }
    assert_eq!(rt; source.takes(), 2);
    assert_eq!(rt; source.faults(), 0);
    let mut source = StdSource::new(FailsOnce { failed: false });
    assert_eq!(rt; source.take(&mut room), Err(Failed));
    assert_eq!(rt; source.take(&mut room), Ok(0));
    assert_eq!(rt; source.takes(), 0);
    assert_eq!(rt; source.faults(), 1);
}

#[test]
fn a_writer_is_a_sink(rt: HostRuntime) {
    let mut written = Vec::new(rt.alloc());
    let mut sink = StdSink::new(&mut written);
    assert_eq!(rt; sink.put(b"ab"), Ok(2));
    assert_eq!(rt; sink.put(b"c"), Ok(1));
    assert_eq!(rt; sink.faults(), 0);
    assert_eq!(rt; written.as_slice(), b"abc".as_slice());
    let mut sink = StdSink::new(FailsOnce { failed: false });
    for (part, want, faults) in [
        (b"a".as_slice(), Err(Failed), 1),
        (b"".as_slice(), Ok(0), 1),
        (b"a".as_slice(), Ok(0), 2),
    ] {
        assert_eq!(rt; sink.put(part), want);
        assert_eq!(rt; sink.faults(), faults);
    }
}

/// A machine whose clock stands, or cannot be read.
#[derive(Drop)]
struct Stands(Option<Duration>);

impl rt::Clock for Stands {
    fn monotonic(&self) -> io::Result<Duration> {
        self.since_1970()
    }

    fn since_1970(&self) -> io::Result<Duration> {
        match self.0 {
            Some(time) => Ok(time),
            None => Err(ErrorKind::Other.into()),
        }
    }
}

#[test]
fn a_machine_is_a_clock(rt: HostRuntime) {
    for (time, seconds, nanos, faults) in [
        (Some(Duration::new(1000, 5)), 1000, 5, 0),
        (Some(Duration::new(4294967295, 6)), 4294967295, 6, 0),
        (Some(Duration::new(4294967296, 7)), 4294967295, 7, 0),
        (None, 0, 0, 1),
    ] {
        let mut clock = WallClock::new(Stands(time));
        assert_eq!(rt; clock.now(), Moment { seconds, nanos });
        assert_eq!(rt; clock.faults(), faults);
    }
    let mut clock = WallClock::new(&rt);
    assert!(rt; clock.now().seconds > 1700000000);
    assert_eq!(rt; clock.faults(), 0);
}
