//! Where bytes come from.

ghost use Rattle.std.specs.Prelude.{◌≡◌, ◌<◌, ◌≤◌, [], length, take, min, IfOk, OnErr, Ok};
ghost use Rattle.nfs3_types.specs.Count.{HasCause};
ghost use Rattle.outside.specs.Told.{SourceTold, GaveBytes, IsUsedUp};

use crate::failed::Failed;

/// A stream of bytes that is read from front to back.
pub trait Source {
    /// What it tells: the bytes taken so far and those still to come, where it tells them; how many
    /// calls gave at least one byte, and how many failed.
    ghost told: { SourceTold Self };

    /// Puts the next bytes first into the room, which is not empty, and answers how many. `Ok(0)` is
    /// the end of the input. `Failed` has taken nothing.
    fn take(&mut self, room: &mut [u8]) -> Result<usize, Failed>
        requires { 0 < length room.old }
        ensures within { IfOk result (λ n. n ≤ length room.new) }
        ensures ok { IfOk result (λ n. GaveBytes told self.old self.new (min n 1)
            (take n room.new)) }
        ensures end { result ≡ Ok 0 → IsUsedUp (told.left self.new) }
        ensures err { OnErr result (GaveBytes told self.old self.new 0 []) }
        ensures cause { HasCause (told.faults self.old) (told.faults self.new) result };
}
