//! Success.

ghost use Rattle.std.specs.Prelude.{◌≡◌};
ghost use Rattle.nfs3_types.specs.Replies.{is_ok};

use nfs3_types::Status;

/// Whether a result of this status is that of a success.
pub fn succeeded(status: Status) -> bool
    ensures { result ≡ is_ok status }
{
    status.number() == 0
}
