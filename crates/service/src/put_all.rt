//! Writing a whole part into a sink.

ghost use Rattle.std.specs.Prelude.{◌≤◌, [], ◌++◌, IsOk, OnOk, OnErr, length};
ghost use Rattle.nfs3_types.specs.Count.{HasCause};
ghost use Rattle.outside.specs.Told.{GotBytes};
ghost use Rattle.service.specs.Steps.{GotFront};

use outside::{Failed, Sink};

/// Puts all of the part, going on with the rest where a put takes less. `Failed` has put a front of
/// it and not all, and comes only where the sink's count of faults rose.
pub fn put_all<K: Sink>(sink: &mut K, part: &[u8]) -> Result<(), Failed>
    ensures ok { OnOk result (GotBytes K.told sink.old sink.new part.now) }
    ensures err { OnErr result (GotFront K.told sink.old sink.new part.now) }
    ensures cause { HasCause (K.told.faults sink.old) (K.told.faults sink.new) result }
{
    let mut rest = part;
    while !rest.is_empty() {
        match sink.put(rest) {
            Ok(0) => return Err(Failed),
            Ok(n) => rest = &rest[n..],
            Err(Failed) => return Err(Failed),
        }
    }
    Ok(())
}
