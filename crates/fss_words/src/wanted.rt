//! What a command asks for.

use nfs3_types::Text;

/// What the words ask for.
#[derive(Debug, Drop)]
pub enum Wanted {
    /// One session from input to output.
    Feed {
        /// How many stores there are.
        stores: u32,
        /// How many replicas each of them has.
        replicas: u32,
    },
    /// The workload.
    Work {
        /// The number that it comes from.
        number: u64,
        /// How many calls it has, at most 16,384.
        calls: u32,
        /// How many stores there are.
        stores: u32,
        /// How many replicas each of them has.
        replicas: u32,
        /// The replicas numbered below this are lost.
        lost: u32,
        /// How rough the weather is: 0, or 8 to 32,768.
        rough: u32,
    },
    /// The server.
    Serve(ServePlan),
}

/// What the server is to be.
#[derive(Debug, Drop)]
pub struct ServePlan {
    /// Where it listens, as `A.B.C.D:PORT` in decimal.
    pub address: Text,
    /// How many workers serve connections.
    pub workers: u32,
    /// How many connections it takes before it ends.
    pub connections: u32,
    /// How many stores there are.
    pub stores: u32,
    /// How many replicas each of them has.
    pub replicas: u32,
    /// The number of the file system.
    pub fsid: u64,
    /// What tells a client that nothing that it wrote was lost.
    pub verifier: [u8; 8],
}
