//! Who calls.

ghost use Rattle.std.specs.Prelude.{◌≡◌, IfOk};

use crate::memory::NoMemory;
use crate::text::Text;
use std::alloc::Global;

/// Who calls: a user and its groups, by number (RFC 5531, appendix A).
#[derive(Debug, Drop)]
pub struct Cred {
    /// The user.
    pub uid: u32,
    /// The user's group.
    pub gid: u32,
    /// The other groups that the user is in, each as four bytes, the highest first.
    pub gids: Text,
}

impl Cred {
    /// An equal credential, or `NoMemory`.
    pub fn copy(&self, alloc: Global) -> Result<Cred, NoMemory>
        ensures { IfOk result (λ cred. cred ≡ self.now) }
    {
        Ok(Cred {
            uid: self.uid,
            gid: self.gid,
            gids: self.gids.copy(alloc)?,
        })
    }
}
