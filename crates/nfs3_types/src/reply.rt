//! Replies.

ghost use Rattle.std.specs.Prelude.{◌≡◌, IfOk};

use crate::body::Body;
use crate::memory::NoMemory;
use crate::status::Status;
use std::alloc::Global;

/// The result of a call (RFC 1813, section 3.3).
#[derive(Debug, Drop)]
pub struct Reply {
    /// The procedure's number.
    pub procedure: u32,
    /// Why it succeeded or failed. NULL's is `Ok`, and is not written.
    pub status: Status,
    /// What it says where it succeeded, and `Nothing` where it failed.
    pub body: Body,
}

impl Reply {
    /// An equal reply, or `NoMemory`.
    pub fn copy(&self, alloc: Global) -> Result<Reply, NoMemory>
        ensures { IfOk result (λ reply. reply ≡ self.now) }
    {
        Ok(Reply {
            procedure: self.procedure,
            status: self.status,
            body: self.body.copy(alloc)?,
        })
    }
}
