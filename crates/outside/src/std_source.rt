//! A source over a reader of the machine.

ghost use Rattle.std.specs.Prelude.{◌≡◌, ◌<◌, ◌≤◌, [], length, take, min, Ok, IfOk, OnOk, OnErr};
ghost use Rattle.std.specs.Io.KnownBytes.{ReadConsumes};
ghost use Rattle.nfs3_types.specs.Count.{HasCause, one_more};
ghost use Rattle.outside.specs.Adapter.{reader_told};
ghost use Rattle.outside.specs.Told.{GaveBytes, IsUsedUp};

use crate::failed::Failed;
use crate::source::Source;
use crate::takes::after_take;
use nfs3_types::count::one_more;
use std::io::Read;
use std::marker::Model;

/// A source that gives what a reader reads, and fails where it does. It tells nothing of the bytes.
#[derive(Debug, Drop)]
pub struct StdSource<R: Read> {
    reader: R,
    takes: u64,
    faults: u64,
}

impl<R: Read> Model for StdSource<R> {
    ghost use Rattle.outside.specs.Adapter.{AdaptedReader};

    ghost Value = { AdaptedReader R };

    ghost view = { λ a. record { inner = a.reader; takes = a.takes; faults = a.faults } };
}

impl<R: Read> StdSource<R> {
    /// A source over this reader.
    pub fn new(reader: R) -> StdSource<R>
        ensures { result ≡ record { inner = reader; takes = 0; faults = 0 } }
    {
        StdSource {
            reader,
            takes: 0,
            faults: 0,
        }
    }

    /// How many calls gave at least one byte.
    pub fn takes(&self) -> u64
        ensures { result ≡ self.now.takes }
    {
        self.takes
    }

    /// How many calls failed.
    pub fn faults(&self) -> u64
        ensures { result ≡ self.now.faults }
    {
        self.faults
    }
}

impl<R: Read> Source for StdSource<R> {
    ghost told = { reader_told };

    fn take(&mut self, room: &mut [u8]) -> Result<usize, Failed>
        requires { 0 < length room.old }
        ensures within { IfOk result (λ n. n ≤ length room.new) }
        ensures ok { IfOk result (λ n. GaveBytes reader_told self.old self.new (min n 1)
            (take n room.new)) }
        ensures end { result ≡ Ok 0 → IsUsedUp (reader_told.left self.new) }
        ensures err { OnErr result (GaveBytes reader_told self.old self.new 0 []) }
        ensures cause { HasCause (reader_told.faults self.old)
            (reader_told.faults self.new) result }

        // It is one read of the reader.
        ensures reads { ReadConsumes (R.remaining self.old.inner)
            (R.remaining self.new.inner) result room.new }
        ensures counted { OnErr result (self.new.faults ≡ one_more self.old.faults) }
        ensures uncounted { OnOk result (self.new.faults ≡ self.old.faults) }
    {
        match self.reader.read(room) {
            Ok(n) => {
                self.takes = after_take(self.takes, n);
                Ok(n)
            }
            Err(_) => {
                self.faults = one_more(self.faults);
                Err(Failed)
            }
        }
    }
}
