//! Which calls of an object in memory fail.

ghost use Rattle.std.specs.Prelude.{◌≡◌, ◌==◌, ◌≤◌, ◌↔◌, drop, slice_index, IsErr, OnOk, OnErr};
ghost use Rattle.nfs3_types.specs.Count.{one_more, HasCause};

use crate::failed::Failed;
use nfs3_types::Text;
use std::marker::Model;

/// A plan of faults, one byte for each call from the first. A call fails at a byte 1. Calls past
/// the plan's end succeed.
#[derive(Debug, Drop)]
pub struct Plan {
    bytes: Text,
    calls: usize,
    faults: u64,
}

impl Model for Plan {
    ghost use Rattle.std.specs.Prelude.{drop};
    ghost use Rattle.outside.specs.Plan.{Planned};

    ghost Value = { Planned };

    ghost view = { λ a. record { plan = drop a.calls a.bytes; faults = a.faults } };
}

impl Plan {
    /// The plan of these bytes, before the first call.
    pub fn new(bytes: Text) -> Plan
        ensures { result ≡ record { plan = bytes; faults = 0 } }
    {
        Plan {
            bytes,
            calls: 0,
            faults: 0,
        }
    }

    /// How many calls failed.
    pub fn faults(&self) -> u64
        ensures { result ≡ self.now.faults }
    {
        self.faults
    }

    /// Counts a fault that was not planned.
    pub fn count_fault(&mut self)
        ensures counted { self.new ≡ record self.old { faults = one_more self.old.faults } }
        ensures never_falls { self.old.faults ≤ self.new.faults }
    {
        self.faults = self.faults.saturating_add(1);
    }

    /// Whether the next call fails.
    fn fails(&self) -> bool
        ensures { result ≡ (slice_index self.now.plan 0 == 1) }
    {
        match self.bytes.as_slice().get(self.calls) {
            Some(byte) => *byte == 1,
            None => false,
        }
    }

    /// Goes on past the next call.
    fn skip(&mut self)
        ensures { self.new ≡ record self.old { plan = drop 1 self.old.plan } }
    {
        if self.calls < self.bytes.len() {
            self.calls += 1;
        }
    }

    /// The next call: it fails exactly where the plan says so, and the fault is counted.
    pub fn step(&mut self) -> Result<(), Failed>
        ensures planned { IsErr result ↔ (slice_index self.old.plan 0 ≡ 1) }
        ensures later { self.new.plan ≡ drop 1 self.old.plan }
        ensures ok { OnOk result (self.new.faults ≡ self.old.faults) }
        ensures err { OnErr result (self.new.faults ≡ one_more self.old.faults) }
        ensures cause { HasCause self.old.faults self.new.faults result }
    {
        let fails = self.fails();
        self.skip();
        if fails {
            self.count_fault();
            return Err(Failed);
        }
        Ok(())
    }
}
