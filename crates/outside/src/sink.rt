//! Where bytes go.

ghost use Rattle.std.specs.Prelude.{◌≡◌, ◌<◌, ◌≤◌, [], length, take, IfOk, OnErr, Ok};
ghost use Rattle.nfs3_types.specs.Count.{HasCause, Rose};
ghost use Rattle.outside.specs.Told.{SinkTold, GotBytes};

use crate::failed::Failed;

/// A stream of bytes that is written at its end.
pub trait Sink {
    /// What it tells: the bytes put so far, where it tells them; and how many calls failed, or put
    /// nothing of a part that is not empty.
    ghost told: { SinkTold Self };

    /// Appends the first bytes of the part, and answers how many. `Failed` has appended nothing.
    fn put(&mut self, part: &[u8]) -> Result<usize, Failed>
        ensures within { IfOk result (λ n. n ≤ length part.now) }
        ensures ok { IfOk result (λ n. GotBytes told self.old self.new (take n part.now)) }
        ensures err { OnErr result (GotBytes told self.old self.new []) }
        ensures cause { HasCause (told.faults self.old) (told.faults self.new) result }
        ensures stuck { result ≡ Ok 0 → 0 < length part.now
            → Rose (told.faults self.old) (told.faults self.new) };
}
