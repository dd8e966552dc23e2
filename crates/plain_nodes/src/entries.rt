//! Entries of directories.

ghost use Rattle.std.specs.Option.{option_copied};
ghost use Rattle.std.specs.Prelude.{◌≡◌, filter, find, not, IfOk};
ghost use Rattle.fs_rules.specs.Names.{has_name};

use fs_rules::NameEntry;
use nfs3_types::NoMemory;
use std::alloc::Global;

/// The entry of this name.
#[tactic(auto, unfolding(fs_rules::specs::Names::has_name))]
pub fn entry_named<'a>(entries: &'a [NameEntry], name: &[u8]) -> Option<&'a NameEntry>
    ensures { option_copied result ≡ find (has_name name.now) entries.now }
{
    let mut rest = entries;
    while !rest.is_empty() {
        if rest[0].name.as_slice() == name {
            return Some(&rest[0]);
        }
        rest = &rest[1..];
    }
    None
}

/// Takes the entries of this name away.
#[tactic(auto, unfolding(fs_rules::specs::Names::has_name))]
pub fn drop_named(entries: &mut Vec<NameEntry>, name: &[u8])
    ensures { entries.new.items ≡ filter (λ e. not (has_name name.now e)) entries.old.items }
{
    entries.retain(|e| e.name.as_slice() != name);
}

/// Equal entries, or `NoMemory`.
pub fn copy_names(alloc: Global, names: &[NameEntry]) -> Result<Vec<NameEntry>, NoMemory>
    ensures { IfOk result (λ copies. copies.items ≡ names.now) }
{
    let mut copies = Vec::with_capacity(alloc, names.len())?;
    for entry in names {
        copies.push(NameEntry {
            cookie: entry.cookie,
            name: entry.name.copy(alloc)?,
            fileid: entry.fileid,
        })?;
    }
    Ok(copies)
}
