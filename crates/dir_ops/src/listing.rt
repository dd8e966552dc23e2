//! The entries of a directory one after another, in any view.

ghost use Rattle.std.specs.Prelude.{◌≡◌, ◌<◌, ◌^◌, not, IfOk, IfErr, IfSome};
ghost use Rattle.fs_rules.specs.Places.{names_at};
ghost use Rattle.fs_rules.specs.Removing.{has_names};
ghost use Rattle.fs_rules.specs.declared.place.Place.TheVariants.{Live as LivePlace};
ghost use Rattle.pairs.specs.declared.at.At.TheVariants.{Live};
ghost use Rattle.pairs.specs.Told.{Goes};
ghost use Rattle.fs_keys.specs.declared.key_parts.KeyParts.TheVariants.{Cookie};
ghost use Rattle.fs_keys.specs.Keys.{key_of as bytes_of};
ghost use Rattle.fs_shows.specs.Steps.{Reads, GivesUpOn};
ghost use Rattle.fs_shows.specs.Views.{place_in};
ghost use Rattle.dir_ops.specs.Listing.{next_entry, IsListed, cookie_of as cookie_in, cookie_at as cookie_in_key, SaysNext};
ghost use Rattle.dir_ops.specs.Listing.{NextFault};

use fs_keys::{KeyParts, cookie_of, key_of, parts_of};
use fs_rules::NameEntry;
use nfs3_types::TextRef;
use pair_types::{Key, PairFault, Value};
use pairs::{At, Pairs};
use std::alloc::Global;

/// The cookie that a key says, if it is one of this directory's.
fn own_cookie(directory: u64, parts: &KeyParts<TextRef<'_>>) -> Option<u64>
    ensures { result ≡ cookie_in directory parts.now }
{
    match parts {
        KeyParts::Cookie {
            directory: other,
            cookie,
        } => {
            if *other == directory {
                Some(*cookie)
            } else {
                None
            }
        }
        _ => None,
    }
}

/// The cookie of a key that is one of this directory's cookies.
fn cookie_at(directory: u64, key: &[u8]) -> Option<u64>
    ensures is { result ≡ cookie_in_key directory key.now }
    ensures key { IfSome result (λ cookie. key.now ≡ bytes_of (Cookie directory cookie)) }
    ensures fits { IfSome result (λ cookie. cookie < 2 ^ 64) }
{
    match parts_of(key) {
        Some(parts) => own_cookie(directory, &parts),
        None => None,
    }
}

/// The entry that a record says, if it is one of this directory's.
fn entry_said(
    alloc: Global,
    directory: u64,
    key: &Key,
    value: &Value,
) -> Result<Option<NameEntry>, PairFault>
    ensures ok { IfOk result (SaysNext directory key.now value.now) }
    ensures fault { IfErr result (NextFault directory key.now value.now) }
{
    let cookie = match cookie_at(directory, key.as_slice()) {
        Some(cookie) => cookie,
        None => return Ok(None),
    };
    let said = match cookie_of(alloc, value.as_slice()) {
        Ok(said) => said,
        Err(fault) => return Err(PairFault::from(fault)),
    };
    match said {
        Some(row) => Ok(Some(NameEntry {
            cookie,
            name: row.name,
            fileid: row.fileid,
        })),
        None => Err(PairFault::Odd),
    }
}

/// The first entry behind a cookie that a directory has in a view.
pub fn first_behind<P: Pairs>(
    alloc: Global,
    pairs: &mut P,
    at: At,
    directory: u64,
    cookie: u64,
) -> Result<Option<NameEntry>, PairFault>
    ensures goes { Goes P.told pairs.old pairs.new 0 }
    ensures ok { IfOk result (λ found. Reads P.told pairs.old pairs.new (IsListed at directory)
        (λ t. next_entry cookie (names_at t (place_in at directory)) ≡ found)) }
    ensures fault { IfErr result (GivesUpOn P.told pairs.old pairs.new (IsListed at directory)) }
{
    let after = match key_of(alloc, &KeyParts::Cookie { directory, cookie }) {
        Ok(after) => after,
        Err(fault) => return Err(PairFault::from(fault)),
    };
    let found = match pairs.next_at(after.as_slice(), at) {
        Ok(found) => found,
        Err(fault) => return Err(fault),
    };
    match found {
        Some(pair) => entry_said(alloc, directory, &pair.0, &pair.1),
        None => Ok(None),
    }
}

/// Whether a live directory has no names.
pub fn is_empty<P: Pairs>(alloc: Global, pairs: &mut P, directory: u64) -> Result<bool, PairFault>
    ensures goes { Goes P.told pairs.old pairs.new 0 }
    ensures ok { IfOk result (λ empty. Reads P.told pairs.old pairs.new (IsListed Live directory)
        (λ t. has_names t (LivePlace directory) ≡ not empty)) }
    ensures fault { IfErr result (GivesUpOn P.told pairs.old pairs.new (IsListed Live directory)) }
{
    match first_behind(alloc, pairs, At::Live, directory, 0) {
        Ok(found) => Ok(found.is_none()),
        Err(fault) => Err(fault),
    }
}
