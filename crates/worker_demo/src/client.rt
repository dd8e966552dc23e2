//! Clients that call NULL, one call after another.

use std::io::{Read, Write};
use std::net::{Net, SocketAddr, TcpStream};

/// How many bytes the record of a call has, and that of its reply.
const CALL: usize = 44;

const REPLY: usize = 28;

/// The record of a call of NULL: program 100003, version 3, no credential.
fn call_of(xid: u32) -> [u8; CALL] {
    let mut call = [0u8; CALL];
    call[0] = 0x80;
    call[3] = 40;
    let spelled = xid.to_be_bytes();
    call[4] = spelled[0];
    call[5] = spelled[1];
    call[6] = spelled[2];
    call[7] = spelled[3];
    call[15] = 2;
    call[17] = 1;
    call[18] = 0x86;
    call[19] = 0xa3;
    call[23] = 3;
    call
}

/// One client: so many calls one after another, and how many were answered.
fn ask<R: Net>(rt: &R, address: SocketAddr, calls: u32) -> u32 {
    let Ok(mut stream) = TcpStream::connect(rt, address) else {
        return 0;
    };
    let mut answered = 0u32;
    for xid in 0..calls {
        let call = call_of(xid);
        if stream.write_all(&call).is_err() {
            return answered;
        }
        let mut reply = [0u8; REPLY];
        if stream.read_exact(&mut reply).is_err() {
            return answered;
        }
        if reply[4..8] == call[4..8] && reply[24..28] == [0, 0, 0, 0] {
            answered = answered.saturating_add(1);
        }
    }
    answered
}

/// So many clients one after another.
pub fn ask_all<R: Net>(rt: &R, address: SocketAddr, clients: u32, calls: u32) -> u32 {
    let mut answered = 0u32;
    for _ in 0..clients {
        answered = answered.saturating_add(ask(rt, address, calls));
    }
    answered
}
