//! Look-ups of names, in any view.

ghost use Rattle.std.specs.Prelude.{◌≡◌, ◌≤◌, length, option_map, IfOk, IfErr};
ghost use Rattle.fs_rules.specs.Limits.{longest_name};
ghost use Rattle.fs_rules.specs.Places.{entry_at};
ghost use Rattle.pairs.specs.Told.{Goes, Tells};
ghost use Rattle.fs_keys.specs.declared.key_parts.KeyParts.TheVariants.{Name as NameKey};
ghost use Rattle.fs_keys.specs.Values.{name_in};
ghost use Rattle.fs_shows.specs.Extents.{row};
ghost use Rattle.fs_shows.specs.Nodes.{Holds, name_row};
ghost use Rattle.fs_shows.specs.Steps.{Reads, GivesUpOn};
ghost use Rattle.fs_shows.specs.Views.{place_in, IsKept};

use fs_keys::{KeyParts, NameRow, name_of};
use inode_ops::get_row;
use nfs3_types::TextRef;
use pair_types::PairFault;
use pairs::{At, Pairs};
use std::alloc::Global;

/// The cookie and the number of what a directory of a view has under a name, or that it has none.
pub fn look_up<P: Pairs>(
    alloc: Global,
    pairs: &mut P,
    at: At,
    directory: u64,
    name: &[u8],
) -> Result<Option<NameRow>, PairFault>
    requires { length name.now ≤ longest_name }
    ensures goes { Goes P.told pairs.old pairs.new 0 }
    ensures ok { IfOk result (λ found. Reads P.told pairs.old pairs.new (IsKept at)
        (λ t. option_map name_row (entry_at t (place_in at directory) name.now) ≡ found)) }
    ensures record { IfOk result (λ found. Tells P.told pairs.old pairs.new
        (λ v. Holds name_in (row v at (NameKey directory name.now)) found)) }
    ensures fault { IfErr result (GivesUpOn P.told pairs.old pairs.new (IsKept at)) }
{
    let key = KeyParts::Name {
        directory,
        name: TextRef::new(name),
    };
    let found = match get_row(alloc, pairs, at, &key) {
        Ok(found) => found,
        Err(fault) => return Err(fault),
    };
    let value = match found {
        Some(value) => value,
        None => return Ok(None),
    };
    match name_of(value.as_slice()) {
        Some(row) => Ok(Some(row)),
        None => Err(PairFault::Odd),
    }
}
