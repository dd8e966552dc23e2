//! READDIR and READDIRPLUS.

ghost use Rattle.std.specs.Prelude.{◌≡◌, ◌++◌, ◌∷◌, [], map, OnOk, IfOk, IfErr};
ghost use Rattle.fs_rules.specs.Checks.{told as tells};
ghost use Rattle.fs_rules.specs.Listing as table;
ghost use Rattle.fs_rules.specs.Listing.{entry, entry_plus};
ghost use Rattle.pairs.specs.Told.{Goes};
ghost use Rattle.fs_shows.specs.Steps.{Reads, GivesUpOn};
ghost use Rattle.procs_object.specs.Finding.{Begins};
ghost use Rattle.procs_object.specs.Performing.{Performs};
ghost use Rattle.procs_listing.specs.Entries.{listed_as, shown_by, plus_by};
ghost use Rattle.procs_listing.specs.Paging.{body_by, body_plus_by};

use crate::entries::Entry;
use crate::paging::find_page;
use fs_keys::First;
use fs_shows::Halt;
use nfs3_types::{
    Body, Cred, DirEntry, DirEntryPlus, Fattr, Handle, ListOf, NoMemory, ReadDirArgs, ReadDirOk,
    ReadDirPlusArgs, ReadDirPlusOk, Text,
};
use pair_types::PairFault;
use pairs::Pairs;
use procs_object::{Found, find_place};
use std::alloc::Global;

/// The bytes of an entry of READDIR beside its name.
const ENTRY_SIZE: u32 = 24;

/// The bytes of an entry of READDIRPLUS beside its name.
const ENTRY_PLUS_SIZE: u32 = 144;

/// One entry more.
fn push_entry(entries: &mut Vec<DirEntry>, e: DirEntry) -> Result<(), NoMemory>
    ensures { OnOk result (entries.new.items ≡ entries.old.items ++ e ∷ []) }
{
    entries.push(e)?;
    Ok(())
}

/// What READDIR tells of an entry.
fn entry_of(alloc: Global, e: &Entry) -> Result<DirEntry, NoMemory>
    ensures { IfOk result (λ told. told ≡ entry (listed_as e.now)) }
{
    Ok(DirEntry {
        fileid: e.place.fileid(),
        name: e.name.copy(alloc)?,
        cookie: e.cookie,
    })
}

/// What READDIR tells of entries.
fn entries_of(alloc: Global, told: &[Entry]) -> Result<Vec<DirEntry>, NoMemory>
    ensures { IfOk result (λ entries. entries.items ≡ map (λ e. entry (listed_as e)) told.now) }
{
    let mut entries = Vec::new(alloc);
    for e in told {
        let told = entry_of(alloc, e)?;
        push_entry(&mut entries, told)?;
    }
    Ok(entries)
}

/// The reply of READDIR.
fn body_of(attributes: Fattr, entries: Vec<DirEntry>, eof: bool) -> Body
    ensures { result ≡ body_by attributes entries.items eof }
{
    Body::ReadDir(ReadDirOk {
        attributes: Some(attributes),
        verifier: [0; 8],
        entries: ListOf::from_vec(entries),
        eof,
    })
}

/// READDIR.
#[tactic(none)]
pub fn read_dir<P: Pairs>(
    alloc: Global,
    pairs: &mut P,
    cred: &Cred,
    a: &ReadDirArgs<Text>,
) -> Result<Body, Halt>
    ensures { Performs P.told pairs.old pairs.new 0 (λ t. tells t (table.read_dir t cred.now a.now)) result }
{
    let told = find_page(
        alloc,
        pairs,
        cred,
        ENTRY_SIZE,
        a.directory.as_slice(),
        a.cookie,
        &a.verifier,
        a.count,
    );
    let page = match told {
        Ok(page) => page,
        Err(halt) => return Err(halt),
    };
    match entries_of(alloc, page.listing.entries.as_slice()) {
        Ok(entries) => Ok(body_of(page.attributes, entries, page.listing.eof)),
        Err(fault) => Err(Halt::Fault(PairFault::from(fault))),
    }
}

/// The attributes of what was found.
fn attributes_by(found: &Option<Found>) -> Option<Fattr>
    ensures { result ≡ shown_by found.now }
{
    match found {
        Some(o) => Some(o.attributes),
        None => None,
    }
}

/// What READDIRPLUS tells of an entry that has these attributes.
fn plus_of(
    alloc: Global,
    fsid: u64,
    e: &Entry,
    attributes: Option<Fattr>,
) -> Result<DirEntryPlus, NoMemory>
    ensures { IfOk result (λ entry. entry ≡ plus_by fsid e.now attributes) }
{
    let object = Handle {
        fsid,
        snapshot: e.place.snapshot(),
        fileid: e.place.fileid(),
    };
    Ok(DirEntryPlus {
        fileid: e.place.fileid(),
        name: e.name.copy(alloc)?,
        cookie: e.cookie,
        attributes,
        object: Some(Text::from_slice(alloc, &object.spell())?),
    })
}

/// What READDIRPLUS tells of an entry, where this is the first record.
#[tactic(none)]
fn entry_plus_of<P: Pairs>(
    alloc: Global,
    pairs: &mut P,
    begins: &First,
    e: &Entry,
) -> Result<DirEntryPlus, PairFault>
    ensures goes { Goes P.told pairs.old pairs.new 0 }
    ensures ok { IfOk result (λ entry. Reads P.told pairs.old pairs.new (Begins begins.now)
        (λ t. entry_plus t (listed_as e.now) ≡ entry)) }
    ensures fault { IfErr result (GivesUpOn P.told pairs.old pairs.new (Begins begins.now)) }
{
    let found = match find_place(alloc, pairs, begins, e.place) {
        Ok(found) => found,
        Err(fault) => return Err(fault),
    };
    let attributes = attributes_by(&found);
    match plus_of(alloc, begins.fsid, e, attributes) {
        Ok(entry) => Ok(entry),
        Err(fault) => Err(PairFault::from(fault)),
    }
}

/// One entry more.
fn push_plus(entries: &mut Vec<DirEntryPlus>, e: DirEntryPlus) -> Result<(), NoMemory>
    ensures { OnOk result (entries.new.items ≡ entries.old.items ++ e ∷ []) }
{
    entries.push(e)?;
    Ok(())
}

/// What READDIRPLUS tells of entries, where this is the first record.
fn entries_plus_of<P: Pairs>(
    alloc: Global,
    pairs: &mut P,
    begins: &First,
    told: &[Entry],
) -> Result<Vec<DirEntryPlus>, PairFault>
    ensures goes { Goes P.told pairs.old pairs.new 0 }
    ensures ok { IfOk result (λ entries. Reads P.told pairs.old pairs.new (Begins begins.now)
        (λ t. map (λ e. entry_plus t (listed_as e)) told.now ≡ entries.items)) }
    ensures fault { IfErr result (GivesUpOn P.told pairs.old pairs.new (Begins begins.now)) }
{
    let mut entries = Vec::new(alloc);
    for e in told {
        let entry = match entry_plus_of(alloc, pairs, begins, e) {
            Ok(entry) => entry,
            Err(fault) => return Err(fault),
        };
        match push_plus(&mut entries, entry) {
            Ok(()) => {}
            Err(fault) => return Err(PairFault::from(fault)),
        }
    }
    Ok(entries)
}

/// The reply of READDIRPLUS.
fn body_plus_of(attributes: Fattr, entries: Vec<DirEntryPlus>, eof: bool) -> Body
    ensures { result ≡ body_plus_by attributes entries.items eof }
{
    Body::ReadDirPlus(ReadDirPlusOk {
        attributes: Some(attributes),
        verifier: [0; 8],
        entries: ListOf::from_vec(entries),
        eof,
    })
}

/// READDIRPLUS.
#[tactic(none)]
pub fn read_dir_plus<P: Pairs>(
    alloc: Global,
    pairs: &mut P,
    cred: &Cred,
    a: &ReadDirPlusArgs<Text>,
) -> Result<Body, Halt>
    ensures { Performs P.told pairs.old pairs.new 0 (λ t. tells t (table.read_dir_plus t cred.now a.now)) result }
{
    let told = find_page(
        alloc,
        pairs,
        cred,
        ENTRY_PLUS_SIZE,
        a.directory.as_slice(),
        a.cookie,
        &a.verifier,
        a.maxcount,
    );
    let page = match told {
        Ok(page) => page,
        Err(halt) => return Err(halt),
    };
    match entries_plus_of(alloc, pairs, &page.begins, page.listing.entries.as_slice()) {
        Ok(entries) => Ok(body_plus_of(page.attributes, entries, page.listing.eof)),
        Err(fault) => Err(Halt::Fault(fault)),
    }
}
