//! A sink in memory.

ghost use Rattle.std.specs.Prelude.{◌≡◌, ◌<◌, ◌≤◌, [], length, take, drop, slice_index, min, Ok, IsErr, IfOk, OnOk, OnErr};
ghost use Rattle.nfs3_types.specs.Count.{HasCause, Rose, one_more};
ghost use Rattle.outside.specs.Sink.{memory_told};
ghost use Rattle.outside.specs.Told.{GotBytes};

use crate::failed::Failed;
use crate::plan::Plan;
use crate::sink::Sink;
use nfs3_types::Text;
use std::alloc::Global;
use std::marker::Model;

/// A sink that keeps what is put, at most `cut` bytes of one call, and fails at the calls for which
/// its plan has a byte 1. Want of memory is a fault too. It tells everything.
#[derive(Debug, Drop)]
pub struct MemSink {
    written: Vec<u8>,
    cut: usize,
    plan: Plan,
}

impl Model for MemSink {
    ghost use Rattle.std.specs.Prelude.{◌≤◌};
    ghost use Rattle.outside.specs.Sink.{MemoryOutput};

    ghost Value = { MemoryOutput };

    ghost view = { λ a. record {
      written = a.written.items;
      cut = a.cut;
      plan = a.plan.plan;
      faults = a.plan.faults;
    } };

    ghost invariant = { λ a. 1 ≤ a.cut };
}

impl MemSink {
    /// An empty sink. `cut` is the most bytes of one call. The k-th byte of `plan` says of the k-th
    /// call whether it fails, by a byte 1; later calls succeed. It takes no memory.
    pub fn new(alloc: Global, cut: usize, plan: Text) -> MemSink
        requires { 1 ≤ cut }
        ensures { result ≡ record { written = []; cut = cut; plan = plan; faults = 0 } }
    {
        MemSink {
            written: Vec::new(alloc),
            cut,
            plan: Plan::new(plan),
        }
    }

    /// All bytes that were put.
    pub fn written(&self) -> &[u8]
        ensures { result.now ≡ self.now.written }
    {
        &self.written
    }

    /// How many calls failed.
    pub fn faults(&self) -> u64
        ensures { result ≡ self.now.faults }
    {
        self.plan.faults()
    }
}

impl Sink for MemSink {
    ghost told = { memory_told };

    fn put(&mut self, part: &[u8]) -> Result<usize, Failed>
        ensures within { IfOk result (λ n. n ≤ length part.now) }
        ensures ok { IfOk result (λ n. GotBytes memory_told self.old self.new (take n part.now)) }
        ensures err { OnErr result (GotBytes memory_told self.old self.new []) }
        ensures cause { HasCause (memory_told.faults self.old)
            (memory_told.faults self.new) result }
        ensures stuck { result ≡ Ok 0 → 0 < length part.now
            → Rose (memory_told.faults self.old) (memory_told.faults self.new) }

        // It fails where that is planned, else only for want of memory, and else takes as much as fits.
        ensures planned { slice_index self.old.plan 0 ≡ 1 → IsErr result }
        ensures count { IfOk result (λ n. n ≡ min (length part.now) self.old.cut) }
        ensures later { self.new.plan ≡ drop 1 self.old.plan }
        ensures cut { self.new.cut ≡ self.old.cut }
        ensures counted { OnErr result (self.new.faults ≡ one_more self.old.faults) }
        ensures uncounted { OnOk result (self.new.faults ≡ self.old.faults) }
    {
        self.plan.step()?;
        let n = part.len().min(self.cut);
        let Ok(()) = self.written.extend_from_slice(&part[..n]) else {
            self.plan.count_fault();
            return Err(Failed);
        };
        Ok(n)
    }
}
