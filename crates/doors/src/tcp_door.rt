//! A door at an address of the machine.

ghost use Rattle.std.specs.Prelude.{◌≡◌, ◌≢◌, ◌≤◌, OnOk, OnErr, Ok, None};
ghost use Rattle.nfs3_types.specs.Count.{one_more};
ghost use Rattle.doors.specs.Door.{Comes};
ghost use Rattle.doors.specs.Tcp.{door_told, tcp_visits};

use crate::door::Door;
use crate::tcp_input::TcpInput;
use crate::tcp_output::TcpOutput;
use crate::visit::Visit;
use nfs3_types::count::one_more;
use outside::{Failed, Text, WallClock};
use std::io::ErrorKind;
use std::marker::Model;
use std::net::{Net, SocketAddr, TcpListener, TcpStream};
use std::{io, rt, str};

/// A door that accepts connections at an address, which it binds at its first call. Its connections send without
/// delay. It tells nothing of its visits.
#[derive(Debug, Drop)]
pub struct TcpDoor<R> {
    machine: R,
    address: Text,
    listener: Option<TcpListener>,
    faults: u64,
}

impl<R> Model for TcpDoor<R> {
    ghost use Rattle.doors.specs.Tcp.{FaultCount};

    ghost Value = { FaultCount };

    ghost view = { λ door. record { faults = door.faults } };
}

impl<R> TcpDoor<R> {
    /// A door at this address, as an IP address or a host's name, and a port. It takes no memory.
    pub fn new(machine: R, address: Text) -> TcpDoor<R>
        ensures { result ≡ record { faults = 0 } }
    {
        TcpDoor {
            machine,
            address,
            listener: None,
            faults: 0,
        }
    }

    /// How many calls failed.
    pub fn faults(&self) -> u64
        ensures { result ≡ self.now.faults }
    {
        self.faults
    }
}

/// Listens at an address.
fn listen<R: Net<Listener = TcpListener, Stream = TcpStream>>(
    machine: &R,
    address: &[u8],
) -> Option<TcpListener> {
    let address = str::from_utf8(address).ok()?;
    TcpListener::bind(machine, address).ok()
}

/// Whether a peer gave up before it was accepted, or a signal came between: then it is tried again.
fn is_passing(fault: &io::Error) -> bool {
    matches!(
        fault.kind(),
        ErrorKind::ConnectionAborted | ErrorKind::Interrupted
    )
}

/// The next connection, twice: to read from and to write to. A connection that breaks before it is set up counts as
/// one that never came.
fn accept(listener: &TcpListener) -> Option<(TcpStream, TcpStream)> {
    for _ in 0..u64::MAX {
        match listener.accept() {
            Ok((stream, _)) => {
                if stream.set_nodelay(true).is_ok() {
                    let other = stream.try_clone().ok()?;
                    return Some((stream, other));
                }
            }
            Err(fault) => {
                if !is_passing(&fault) {
                    return None;
                }
            }
        }
    }
    None
}

impl<R: Net<Listener = TcpListener, Stream = TcpStream>> TcpDoor<R> {
    /// Binds the address, unless that is done, and tells the one that is bound: port 0 becomes a free one.
    pub fn bind(&mut self) -> Result<SocketAddr, Failed>
        ensures ok { OnOk result (self.new ≡ self.old) }
        ensures err { OnErr result (self.new.faults ≡ one_more self.old.faults) }
        ensures never_falls { self.old.faults ≤ self.new.faults }
    {
        if self.listener.is_none() {
            self.listener = listen(&self.machine, self.address.as_slice());
        }
        let bound = match &self.listener {
            Some(listener) => listener.local_addr().ok(),
            None => None,
        };
        match bound {
            Some(address) => Ok(address),
            None => {
                self.faults = one_more(self.faults);
                Err(Failed)
            }
        }
    }

    /// The next connection.
    fn streams(&mut self) -> Result<(TcpStream, TcpStream), Failed>
        ensures ok { OnOk result (self.new ≡ self.old) }
        ensures err { OnErr result (self.new.faults ≡ one_more self.old.faults) }
        ensures never_falls { self.old.faults ≤ self.new.faults }
    {
        let _address = self.bind()?;
        let streams = match &self.listener {
            Some(listener) => accept(listener),
            None => None,
        };
        match streams {
            Some(streams) => Ok(streams),
            None => {
                self.faults = one_more(self.faults);
                Err(Failed)
            }
        }
    }
}

impl<R> Door for TcpDoor<R>
where
    R: Net<Listener = TcpListener, Stream = TcpStream> + rt::Clock + Copy + Send + Drop,
{
    type Input = TcpInput;

    type Output = TcpOutput;

    type Times = WallClock<R>;

    type Receipt = (u64, u64);

    ghost told = { door_told };

    fn next(&mut self) -> Result<Option<Visit<TcpInput, TcpOutput, WallClock<R>>>, Failed>
        ensures comes { Comes door_told tcp_visits self.old self.new result }
        ensures never_falls { self.old.faults ≤ self.new.faults }

        // It is never over, and counts each call that fails.
        ensures some { result ≢ Ok None }
        ensures counted { OnErr result (self.new.faults ≡ one_more self.old.faults) }
        ensures uncounted { OnOk result (self.new ≡ self.old) }
    {
        let (input, output) = self.streams()?;
        Ok(Some(Visit {
            input: TcpInput::new(input),
            output: TcpOutput::new(output),
            clock: WallClock::new(self.machine),
        }))
    }

    fn settle(visit: Visit<TcpInput, TcpOutput, WallClock<R>>) -> (u64, u64)
        ensures { result ≡ (visit.input.faults, visit.output.faults) }
    {
        (visit.input.faults(), visit.output.faults())
    }
}
