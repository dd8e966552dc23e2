//! What a session needs of memory.

ghost use Rattle.std.specs.Prelude.{IfOk};
ghost use Rattle.service.specs.Room.{IsRoom};

use nfs3_fits::LONGEST_REPLY;
use nfs3_types::NoMemory;
use rpc_records::Records;
use std::alloc::Global;

/// The most bytes of one take.
pub const ROOM: usize = 4096;

/// How many bytes stand before the results of an accepted reply.
const HEAD: usize = 28;

/// The longest reply record in bytes.
pub const LONGEST_RECORD: usize = HEAD + LONGEST_REPLY as usize;

/// All the memory that reading records and writing replies needs, which is taken once.
#[derive(Drop)]
pub struct Room {
    /// Where the bytes of a take come.
    pub buffer: Vec<u8>,
    /// The reader of records.
    pub records: Records,
    /// Where a reply is made: the longest one has room.
    pub reply: Vec<u8>,
}

impl Room {
    /// The room of a session before its first take, or `NoMemory`.
    pub fn new(alloc: Global) -> Result<Room, NoMemory>
        ensures { IfOk result IsRoom }
    {
        let buffer = vec![in alloc; 0u8; ROOM]?;
        let reply = Vec::with_capacity(alloc, LONGEST_RECORD)?;
        let records = Records::new(alloc)?;
        Ok(Room {
            buffer,
            records,
            reply,
        })
    }
}
