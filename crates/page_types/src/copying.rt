//! Copies of what may be there, and of numbers.

ghost use Rattle.std.specs.Prelude.{◌≡◌, IfOk};

use crate::shared::Shared;
use nfs3_types::{Copies, Entry, ListOf, NoMemory};
use std::alloc::Global;

/// The same entry, shared, where there is one.
pub fn copy_entry(
    alloc: Global,
    entry: &Option<Shared<Entry>>,
) -> Result<Option<Shared<Entry>>, NoMemory>
    ensures { IfOk result (λ copy. copy ≡ entry.now) }
{
    match entry {
        Some(entry) => Ok(Some(entry.copy(alloc)?)),
        None => Ok(None),
    }
}

/// An equal list of numbers.
pub fn copy_numbers(alloc: Global, numbers: &ListOf<u64>) -> Result<ListOf<u64>, NoMemory>
    ensures { IfOk result (λ copy. copy ≡ numbers.now) }
{
    Ok(ListOf::from_vec(Vec::from_slice(alloc, numbers.as_slice())?))
}

/// An equal list of stores.
pub(crate) fn copy_parts(alloc: Global, parts: &ListOf<u32>) -> Result<ListOf<u32>, NoMemory>
    ensures { IfOk result (λ copy. copy ≡ parts.now) }
{
    Ok(ListOf::from_vec(Vec::from_slice(alloc, parts.as_slice())?))
}
