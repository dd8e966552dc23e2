//! Copies of a value, which may want memory.

ghost use Rattle.std.specs.Prelude.{◌≡◌, IfOk};

use crate::memory::NoMemory;
use std::alloc::Global;

/// A value that can be copied, where there is memory for it.
pub trait Copies: Drop {
    /// An equal value, or `NoMemory`.
    fn copy(&self, alloc: Global) -> Result<Self, NoMemory>
        ensures { IfOk result (λ copy. copy ≡ self.now) };
}
