use doors::{Door, TcpDoor};
use outside::{Clock, Sink, Source, Text};
use std::io::{Read, Write};
use std::net::{Net, SocketAddr, TcpStream};
use std::test::*;
use std::thread;

/// Sends three bytes, and tells what comes back.
fn ask<R: Net>(rt: &R, address: SocketAddr) -> Option<[u8; 3]> {
    let mut stream = TcpStream::connect(rt, address).ok()?;
    stream.write_all(b"abc".as_slice()).ok()?;
    let mut reply = [0u8; 3];
    stream.read_exact(&mut reply).ok()?;
    Some(reply)
}

/// Gives the first three bytes of a visit back, and tells how many came.
fn give_back<D: Door>(door: &mut D) -> Option<(usize, D::Receipt)> {
    let Ok(Some(visit)) = door.next() else {
        return None;
    };
    let mut visit = visit;
    let _moment = visit.clock.now();
    let mut came = 0usize;
    for _ in 0..3 {
        let mut room = [0u8; 3];
        let Ok(n) = visit.input.take(&mut room) else {
            return None;
        };
        let Ok(_) = visit.output.put(&room[..n]) else {
            return None;
        };
        came = came.saturating_add(n);
        if came >= 3 {
            break;
        }
    }
    Some((came, D::settle(visit)))
}

#[test]
fn a_tcp_door_carries_bytes_both_ways(rt: HostRuntime) -> Result<(), Fail> {
    let address = Text::from_slice(rt.alloc(), b"127.0.0.1:0".as_slice())?;
    let mut door = TcpDoor::new(rt, address);
    let bound = door.bind()?;
    let (reply, given) = thread::join(&rt, || ask(&rt, bound), || give_back(&mut door));
    assert_eq!(rt; reply, Some([97, 98, 99]));
    assert_eq!(rt; given, Some((3, (0, 0))));
    assert_eq!(rt; door.faults(), 0);
    Ok(())
}
