//! The driver.

ghost use Rattle.std.specs.Prelude.{◌≡◌, ◌<◌, ◌==◌, ◌-◌, ◌^◌, ℕ, [], ◌∷◌, Some, None, IfOk, OnOk, OnErr, nat_lt};
ghost use Rattle.nfs3_types.specs.declared.reply.Reply.{Reply as AnyReply};
ghost use Rattle.workload.specs.Drive.{Replies, drive, last_fuse};
ghost use Rattle.workload.specs.Driving.{DriverAt};

use crate::calls::{call_of, fuse_of};
use crate::choice::{Choice, choose};
use crate::learning::learned;
use nfs3_types::{Handle, NoMemory, OwnCall, Reply};
use std::alloc::Global;
use std::marker::Model;

/// Makes the calls of a number, by the replies to those that it made before.
#[derive(Drop)]
pub struct Driver {
    state: u64,
    calls: u32,
    rough: u32,
    known: Vec<Option<Handle>>,
    asked: Option<Choice>,
    fuse: Option<u64>,
}

impl Model for Driver {
    ghost use Rattle.std.specs.Prelude.{◌≡◌, ◌<◌, ◌^◌, length};
    ghost use Rattle.workload.specs.Driving.{Driving};

    ghost Value = { Driving };

    ghost view = { λ a. record {
      state = a.state;
      calls = a.calls;
      rough = a.rough;
      handles = a.known.items;
      asked = a.asked;
      fuse = a.fuse;
    } };

    ghost invariant = { λ a. (a.state < 2 ^ 31) × (length a.known.items ≡ 256) };
}

impl Driver {
    /// The driver of this number and roughness, before the first call.
    pub fn new(alloc: Global, number: u64, rough: u32) -> Result<Driver, NoMemory>
        ensures { IfOk result (λ driver. DriverAt number rough [] driver) }
    {
        let known = Vec::from_array(alloc, [None; 256])?;
        Ok(Driver {
            state: number % 2_147_483_648,
            calls: 0,
            rough,
            known,
            asked: None,
            fuse: None,
        })
    }

    /// Whether there is a further call: calls are numbered below 2^32.
    pub fn has_next(&self) -> bool
        ensures { result ≡ nat_lt self.now.calls (2 ^ 32 - 1) }
    {
        self.calls < u32::MAX
    }

    /// The next call. At `NoMemory` the driver is as it was.
    pub fn next_call(&mut self, alloc: Global) -> Result<OwnCall, NoMemory>
        requires room { self.old.calls < 2 ^ 32 - 1 }
        ensures call { (number rough : ℕ) (replies : Replies) → DriverAt number rough replies self.old
            → IfOk result (λ call. call ≡ (drive number rough replies).call) }
        ensures next { (number rough : ℕ) (replies : Replies) → DriverAt number rough replies self.old
            → OnOk result (DriverAt number rough (None ∷ replies) self.new) }
        ensures err { OnErr result (self.new ≡ self.old) }
    {
        let calls = self.calls + 1;
        let (choice, state) = choose(calls, self.state);
        let known = self.known[usize::from(choice.name)];
        let call = call_of(alloc, calls, choice, known)?;
        self.fuse = fuse_of(self.rough, calls, choice.piece);
        self.state = state;
        self.calls = calls;
        self.asked = Some(choice);
        Ok(call)
    }

    /// Takes the reply to the last call, once.
    pub fn learn(&mut self, reply: &Reply)
        ensures first { (number rough : ℕ) (replies : Replies) → DriverAt number rough (None ∷ replies) self.old
            → DriverAt number rough (Some reply.now ∷ replies) self.new }
        ensures again { (number rough : ℕ) (told : AnyReply) (replies : Replies)
            → DriverAt number rough (Some told ∷ replies) self.old → self.new ≡ self.old }
        ensures none { (number rough : ℕ) → DriverAt number rough [] self.old → self.new ≡ self.old }
    {
        if let Some(choice) = self.asked {
            let place = usize::from(choice.name);
            self.known[place] = learned(choice.kind, reply, self.known[place]);
            self.asked = None;
        }
    }

    /// After how many steps the way to the stores is cut at the last call.
    pub fn fuse(&self) -> Option<u64>
        ensures { (number rough : ℕ) (replies : Replies) → DriverAt number rough replies self.now
            → result ≡ last_fuse number rough replies }
    {
        self.fuse
    }
}
