//! The bytes that come over a TCP connection.

ghost use Rattle.std.specs.Prelude.{◌≡◌};

use outside::{Failed, Source, StdSource};
use std::marker::Model;
use std::net::TcpStream;

/// A source that gives what a connection brings. It tells nothing of the bytes.
#[derive(Debug, Drop)]
pub struct TcpInput {
    source: StdSource<TcpStream>,
}

impl Model for TcpInput {
    ghost use Rattle.doors.specs.Tcp.{InputCounts};

    ghost Value = { InputCounts };

    ghost view = { λ input. record { takes = input.source.takes; faults = input.source.faults } };
}

impl TcpInput {
    /// A source over this connection.
    pub fn new(stream: TcpStream) -> TcpInput
        ensures { result ≡ record { takes = 0; faults = 0 } }
    {
        TcpInput {
            source: StdSource::new(stream),
        }
    }

    /// How many calls gave at least one byte.
    pub fn takes(&self) -> u64
        ensures { result ≡ self.now.takes }
    {
        self.source.takes()
    }

    /// How many calls failed.
    pub fn faults(&self) -> u64
        ensures { result ≡ self.now.faults }
    {
        self.source.faults()
    }
}

impl Source for TcpInput {
    ghost use Rattle.doors.specs.Tcp.{input_told};

    ghost told = { input_told };

    fn take(&mut self, room: &mut [u8]) -> Result<usize, Failed> {
        self.source.take(room)
    }
}
