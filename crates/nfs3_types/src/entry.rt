//! Entries of a history of calls.

ghost use Rattle.std.specs.Prelude.{◌≡◌, IfOk};

use crate::call::OwnCall;
use crate::cred::Cred;
use crate::memory::NoMemory;
use crate::moment::Moment;
use crate::owning::own_call;
use crate::reply::Reply;
use std::alloc::Global;

/// A call and its reply, as they stand in a history.
#[derive(Debug, Drop)]
pub struct Entry {
    /// The pass that served it: the identity of one worker.
    pub pass: u32,
    /// Which of the pass's calls it is.
    pub serial: u64,
    /// Who called.
    pub cred: Cred,
    /// The call.
    pub call: OwnCall,
    /// When it was answered.
    pub moment: Moment,
    /// The lane, a series of file ids, from which a new file took its number.
    pub lane: u32,
    /// What was answered.
    pub reply: Reply,
}

impl Entry {
    /// An equal entry, or `NoMemory`.
    pub fn copy(&self, alloc: Global) -> Result<Entry, NoMemory>
        ensures { IfOk result (λ entry. entry ≡ self.now) }
    {
        Ok(Entry {
            pass: self.pass,
            serial: self.serial,
            cred: self.cred.copy(alloc)?,
            call: own_call(alloc, &self.call.lend())?,
            moment: self.moment,
            lane: self.lane,
            reply: self.reply.copy(alloc)?,
        })
    }
}
