//! A sink over a writer of the machine.

ghost use Rattle.std.specs.Prelude.{◌≡◌, ◌<◌, ◌≤◌, [], length, take, Ok, IfOk, OnErr};
ghost use Rattle.std.specs.Io.KnownBytes.{WriteAppends};
ghost use Rattle.nfs3_types.specs.Count.{HasCause, Rose, one_more};
ghost use Rattle.outside.specs.Adapter.{writer_told};
ghost use Rattle.outside.specs.Told.{GotBytes};

use crate::failed::Failed;
use crate::sink::Sink;
use nfs3_types::count::one_more;
use std::io::Write;
use std::marker::Model;

/// A sink that hands each part to a writer at once, and fails where it does. It tells nothing of the
/// bytes.
#[derive(Debug, Drop)]
pub struct StdSink<W: Write> {
    writer: W,
    faults: u64,
}

impl<W: Write> Model for StdSink<W> {
    ghost use Rattle.outside.specs.Adapter.{Adapted};

    ghost Value = { Adapted W };

    ghost view = { λ a. record { inner = a.writer; faults = a.faults } };
}

impl<W: Write> StdSink<W> {
    /// A sink over this writer.
    pub fn new(writer: W) -> StdSink<W>
        ensures { result ≡ record { inner = writer; faults = 0 } }
    {
        StdSink { writer, faults: 0 }
    }

    /// How many calls failed, or put nothing of a part that is not empty.
    pub fn faults(&self) -> u64
        ensures { result ≡ self.now.faults }
    {
        self.faults
    }
}

impl<W: Write> Sink for StdSink<W> {
    ghost told = { writer_told };

    fn put(&mut self, part: &[u8]) -> Result<usize, Failed>
        ensures within { IfOk result (λ n. n ≤ length part.now) }
        ensures ok { IfOk result (λ n. GotBytes writer_told self.old self.new (take n part.now)) }
        ensures err { OnErr result (GotBytes writer_told self.old self.new []) }
        ensures cause { HasCause (writer_told.faults self.old)
            (writer_told.faults self.new) result }
        ensures stuck { result ≡ Ok 0 → 0 < length part.now
            → Rose (writer_told.faults self.old) (writer_told.faults self.new) }

        // It is one write of the writer.
        ensures writes { WriteAppends (W.contents self.old.inner)
            (W.contents self.new.inner) result part.now }
        ensures counted { OnErr result (self.new.faults ≡ one_more self.old.faults) }
        ensures stuck_counted { result ≡ Ok 0 → 0 < length part.now
            → self.new.faults ≡ one_more self.old.faults }
        ensures uncounted { IfOk result (λ n. (n ≡ 0 → length part.now ≡ 0)
            → self.new.faults ≡ self.old.faults) }
    {
        match self.writer.write(part) {
            Ok(n) => {
                if n == 0 && !part.is_empty() {
                    self.faults = one_more(self.faults);
                }
                Ok(n)
            }
            Err(_) => {
                self.faults = one_more(self.faults);
                Err(Failed)
            }
        }
    }
}
