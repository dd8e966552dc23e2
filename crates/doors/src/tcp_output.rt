//! The bytes that go over a TCP connection.

ghost use Rattle.std.specs.Prelude.{◌≡◌};

use outside::{Failed, Sink, StdSink};
use std::marker::Model;
use std::net::TcpStream;

/// A sink that hands each part to a connection at once. It tells nothing of the bytes.
#[derive(Debug, Drop)]
pub struct TcpOutput {
    sink: StdSink<TcpStream>,
}

impl Model for TcpOutput {
    ghost use Rattle.doors.specs.Tcp.{FaultCount};

    ghost Value = { FaultCount };

    ghost view = { λ output. record { faults = output.sink.faults } };
}

impl TcpOutput {
    /// A sink over this connection.
    pub fn new(stream: TcpStream) -> TcpOutput
        ensures { result ≡ record { faults = 0 } }
    {
        TcpOutput {
            sink: StdSink::new(stream),
        }
    }

    /// How many calls failed, or put nothing of a part that is not empty.
    pub fn faults(&self) -> u64
        ensures { result ≡ self.now.faults }
    {
        self.sink.faults()
    }
}

impl Sink for TcpOutput {
    ghost use Rattle.doors.specs.Tcp.{output_told};

    ghost told = { output_told };

    fn put(&mut self, part: &[u8]) -> Result<usize, Failed> {
        self.sink.put(part)
    }
}
