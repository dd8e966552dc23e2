//! A source in memory.

ghost use Rattle.std.specs.Prelude.{◌≡◌, ◌<◌, ◌≤◌, ◌↔◌, [], length, take, drop, slice_index, min, Ok, IsErr, IfOk, OnOk, OnErr};
ghost use Rattle.nfs3_types.specs.Count.{HasCause, one_more};
ghost use Rattle.outside.specs.Source.{memory_told};
ghost use Rattle.outside.specs.Told.{GaveBytes, IsUsedUp};

use crate::failed::Failed;
use crate::plan::Plan;
use crate::source::Source;
use crate::takes::after_take;
use nfs3_types::Text;
use std::marker::Model;

/// A source that gives the bytes of a text, at most `cut` at once, and fails at the calls for which
/// its plan has a byte 1. It tells everything.
#[derive(Debug, Drop)]
pub struct MemSource {
    content: Text,
    place: usize,
    cut: usize,
    plan: Plan,
    takes: u64,
}

impl Model for MemSource {
    ghost use Rattle.std.specs.Prelude.{◌≤◌, length, take, drop};
    ghost use Rattle.outside.specs.Source.{MemoryInput};

    ghost Value = { MemoryInput };

    ghost view = { λ a. record {
      taken = take a.place a.content;
      left = drop a.place a.content;
      cut = a.cut;
      plan = a.plan.plan;
      takes = a.takes;
      faults = a.plan.faults;
    } };

    ghost invariant = { λ a. (a.place ≤ length a.content) × (1 ≤ a.cut) };
}

impl MemSource {
    /// A source of this content. `cut` is the most bytes of one call. The k-th byte of `plan` says of
    /// the k-th call whether it fails, by a byte 1; later calls succeed. It takes no memory.
    pub fn new(content: Text, cut: usize, plan: Text) -> MemSource
        requires { 1 ≤ cut }
        ensures { result ≡ record {
          taken = [];
          left = content;
          cut = cut;
          plan = plan;
          takes = 0;
          faults = 0;
        } }
    {
        MemSource {
            content,
            place: 0,
            cut,
            plan: Plan::new(plan),
            takes: 0,
        }
    }

    /// How many calls gave at least one byte.
    pub fn takes(&self) -> u64
        ensures { result ≡ self.now.takes }
    {
        self.takes
    }

    /// How many calls failed.
    pub fn faults(&self) -> u64
        ensures { result ≡ self.now.faults }
    {
        self.plan.faults()
    }
}

/// Copies the part to the front of the room.
fn fill(room: &mut [u8], part: &[u8])
    requires { length part.now ≤ length room.old }
    ensures { take (length part.now) room.new ≡ part.now }
{
    room[..part.len()].copy_from_slice(part);
}

impl Source for MemSource {
    ghost told = { memory_told };

    fn take(&mut self, room: &mut [u8]) -> Result<usize, Failed>
        requires { 0 < length room.old }
        ensures within { IfOk result (λ n. n ≤ length room.new) }
        ensures ok { IfOk result (λ n. GaveBytes memory_told self.old self.new (min n 1)
            (take n room.new)) }
        ensures end { result ≡ Ok 0 → IsUsedUp (memory_told.left self.new) }
        ensures err { OnErr result (GaveBytes memory_told self.old self.new 0 []) }
        ensures cause { HasCause (memory_told.faults self.old)
            (memory_told.faults self.new) result }

        // It fails exactly as planned, and else gives as much as fits.
        ensures planned { IsErr result ↔ (slice_index self.old.plan 0 ≡ 1) }
        ensures count { IfOk result (λ n. n
            ≡ min (min (length room.old) self.old.cut) (length self.old.left)) }
        ensures later { self.new.plan ≡ drop 1 self.old.plan }
        ensures cut { self.new.cut ≡ self.old.cut }
        ensures counted { OnErr result (self.new.faults ≡ one_more self.old.faults) }
        ensures uncounted { OnOk result (self.new.faults ≡ self.old.faults) }
    {
        self.plan.step()?;
        let left = self.content.len() - self.place;
        let n = room.len().min(self.cut).min(left);
        let end = self.place + n;
        fill(room, &self.content.as_slice()[self.place..end]);
        self.place = end;
        self.takes = after_take(self.takes, n);
        Ok(n)
    }
}
