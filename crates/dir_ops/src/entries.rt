//! The two records of a name: by the name, and by its cookie.

ghost use Rattle.std.specs.Prelude.{◌≤◌, ◌<◌, ◌^◌, length, OnOk, IfErr};
ghost use Rattle.fs_rules.specs.Limits.{longest_name};
ghost use Rattle.pairs.specs.Versions.{HasLives};
ghost use Rattle.pairs.specs.Told.{Goes, Moves, GivesUp, PutGivesUp};
ghost use Rattle.dir_ops.specs.Entries.{PutsName, PutsCookie, PutsEntry, without_entry};

use fs_keys::{CookieRow, KeyParts, NameRow, cookie_value, name_value};
use inode_ops::{del_row, put_row};
use nfs3_types::{Text, TextRef};
use pair_types::PairFault;
use pairs::Pairs;
use std::alloc::Global;

/// Puts the record by the name.
fn put_name<P: Pairs>(
    alloc: Global,
    pairs: &mut P,
    directory: u64,
    name: &[u8],
    row: NameRow,
) -> Result<(), PairFault>
    requires { length name.now ≤ longest_name }
    ensures goes { Goes P.told pairs.old pairs.new 1 }
    ensures ok { OnOk result (PutsName P.told pairs.old pairs.new directory name.now row) }
    ensures fault { IfErr result (PutGivesUp P.told pairs.old pairs.new HasLives) }
{
    let key = KeyParts::Name {
        directory,
        name: TextRef::new(name),
    };
    match name_value(alloc, row) {
        Ok(value) => put_row(alloc, pairs, &key, value.as_slice()),
        Err(fault) => Err(PairFault::from(fault)),
    }
}

/// Puts the record by the cookie.
fn put_cookie<P: Pairs>(
    alloc: Global,
    pairs: &mut P,
    directory: u64,
    cookie: u64,
    row: &CookieRow,
) -> Result<(), PairFault>
    requires { length row.now.name ≤ longest_name }
    ensures goes { Goes P.told pairs.old pairs.new 1 }
    ensures ok { OnOk result (PutsCookie P.told pairs.old pairs.new directory cookie row.now) }
    ensures fault { IfErr result (PutGivesUp P.told pairs.old pairs.new HasLives) }
{
    match cookie_value(alloc, row) {
        Ok(value) => put_row(
            alloc,
            pairs,
            &KeyParts::Cookie { directory, cookie },
            value.as_slice(),
        ),
        Err(fault) => Err(PairFault::from(fault)),
    }
}

/// Puts both records of a name.
pub(crate) fn put_entry<P: Pairs>(
    alloc: Global,
    pairs: &mut P,
    directory: u64,
    name: &[u8],
    row: NameRow,
) -> Result<(), PairFault>
    requires { length name.now ≤ longest_name }
    ensures goes { Goes P.told pairs.old pairs.new 2 }
    ensures ok { OnOk result (PutsEntry P.told pairs.old pairs.new directory name.now row) }
    ensures fault { IfErr result (PutGivesUp P.told pairs.old pairs.new HasLives) }
{
    let text = match Text::from_slice(alloc, name) {
        Ok(text) => text,
        Err(fault) => return Err(PairFault::from(fault)),
    };
    let by_cookie = CookieRow {
        fileid: row.fileid,
        name: text,
    };
    match put_name(alloc, pairs, directory, name, row) {
        Ok(()) => put_cookie(alloc, pairs, directory, row.cookie, &by_cookie),
        Err(fault) => Err(fault),
    }
}

/// Ends both records of a name.
pub(crate) fn del_entry<P: Pairs>(
    alloc: Global,
    pairs: &mut P,
    directory: u64,
    name: &[u8],
    cookie: u64,
) -> Result<(), PairFault>
    requires { length name.now ≤ longest_name }
    ensures goes { Goes P.told pairs.old pairs.new 0 }
    ensures ok { OnOk result (Moves P.told pairs.old pairs.new HasLives (without_entry directory name.now cookie)) }
    ensures fits { cookie < 2 ^ 64 }
    ensures fault { IfErr result (GivesUp P.told pairs.old pairs.new HasLives) }
{
    let key = KeyParts::Name {
        directory,
        name: TextRef::new(name),
    };
    match del_row(alloc, pairs, &key) {
        Ok(()) => del_row(alloc, pairs, &KeyParts::Cookie { directory, cookie }),
        Err(fault) => Err(fault),
    }
}
