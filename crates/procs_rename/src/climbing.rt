//! The way up from a directory.

ghost use Rattle.std.specs.Prelude.{◌≡◌, ◌||◌, ⊤, IfOk, IfErr};
ghost use Rattle.fs_rules.specs.Renaming as table;
ghost use Rattle.pairs.specs.Told.{Goes};
ghost use Rattle.fs_shows.specs.Steps.{Reads, GivesUpOn};

use fs_rules::Climb;
use inode_ops::load;
use pair_types::PairFault;
use pairs::{At, Pairs};
use std::alloc::Global;

/// The way leads through the directory that was sought, if this is it.
fn through(here: bool, way: Climb) -> Climb
    ensures { result ≡ table.through here way }
{
    match way {
        Climb::Root => { if here { Climb::Found } else { Climb::Root } }
        Climb::TooDeep => Climb::TooDeep,
        Climb::Found => Climb::Found,
    }
}

/// Whether the way has led through the directory that is sought, here or before.
fn passes(here: bool, before: bool) -> bool
    ensures { result ≡ (here || before) }
{
    here || before
}

/// The number of the directory above, or the file's own where there is none.
fn parent_of<P: Pairs>(alloc: Global, pairs: &mut P, id: u64) -> Result<u64, PairFault>
    ensures goes { Goes P.told pairs.old pairs.new 0 }
    ensures ok { IfOk result (λ parent. Reads P.told pairs.old pairs.new (λ t. ⊤) (λ t. table.parent_of (t.nodes id) id
        ≡ parent)) }
    ensures fault { IfErr result (GivesUpOn P.told pairs.old pairs.new (λ t. ⊤)) }
{
    let found = match load(alloc, pairs, At::Live, id) {
        Ok(found) => found,
        Err(fault) => return Err(fault),
    };
    match found {
        Some(inode) => Ok(inode.head.kept.parent),
        None => Ok(id),
    }
}

/// The way from a directory up to the root, of so many at most, the root with them, and whether it leads through the directory
/// that is sought.
pub fn climb<P: Pairs>(
    alloc: Global,
    pairs: &mut P,
    sought: u64,
    most: u32,
    fileid: u64,
) -> Result<Climb, PairFault>
    ensures goes { Goes P.told pairs.old pairs.new 0 }
    ensures ok { IfOk result (λ way. Reads P.told pairs.old pairs.new (λ t. ⊤) (λ t. table.climb t.nodes sought most fileid
        ≡ way)) }
    ensures fault { IfErr result (GivesUpOn P.told pairs.old pairs.new (λ t. ⊤)) }
{
    let mut at = fileid;
    let mut left = most;
    let mut is_through = false;
    while left > 0 {
        is_through = passes(at == sought, is_through);
        if at == 1 {
            return Ok(through(is_through, Climb::Root));
        }
        match parent_of(alloc, pairs, at) {
            Ok(parent) => at = parent,
            Err(fault) => return Err(fault),
        }
        left -= 1;
    }
    Ok(Climb::TooDeep)
}
