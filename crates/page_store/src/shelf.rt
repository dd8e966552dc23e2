//! The maps in which a store keeps what it keeps.

ghost use Rattle.std.specs.Prelude.{◌≡◌, ℕ, IsSome, OnOk, option_copied, unwrap_or};
ghost use Rattle.std.specs.BTreeMap.{get};
ghost use Rattle.std.specs.Ordering.{nat_cmp};
ghost use Rattle.pair_types.specs.declared.slot.Tid.{Tid};
ghost use Rattle.page_store.specs.Rows.{kept_at};
ghost use Rattle.page_store.specs.Keeps.{kept_in, party_in, stranger, nothing, tid_cmp, changed, change_in, changed_by};
ghost use Rattle.page_store.specs.Keeps.{concerned, IsReady, IsPartyReady, RowsStay, PartiesStay};

use crate::party::{Involved, Party};
use crate::patch::Patch;
use crate::row::{Change, Row};
use nfs3_types::NoMemory;
use pair_types::Tid;
use std::alloc::Global;
use std::collections::BTreeMap;

/// What a store keeps: of each page by its number, of each transaction by its pass and serial, and the
/// number that it gives next.
#[derive(Drop)]
pub(crate) struct Shelf {
    pub rows: BTreeMap<u64, Row>,
    pub parties: BTreeMap<(u32, u64), Party>,
    pub next: u64,
}

impl Shelf {
    /// The row of a page, where there is one.
    pub fn row(&self, number: u64) -> Option<&Row>
        ensures { kept_at (option_copied result) ≡ kept_in self.now.rows number }
    {
        self.rows.get(&number)
    }

    /// What is kept of a transaction, where it is no stranger.
    pub fn party(&self, tid: Tid) -> Option<&Party>
        ensures { unwrap_or (option_copied result) stranger ≡ party_in self.now.parties tid }
    {
        self.parties.get(&(tid.pass, tid.serial))
    }
}

/// Makes room for a row of a number.
fn row_room(rows: &mut BTreeMap<u64, Row>, alloc: Global, number: u64) -> Result<(), NoMemory>
    ensures stay { RowsStay rows.old rows.new }
    ensures room { OnOk result (IsSome (get nat_cmp rows.new number)) }
{
    if !rows.contains_key(&number) {
        rows.insert(number, Row::blank(alloc))?;
    }
    Ok(())
}

/// Makes room for the rows of changes.
fn rows_room(
    rows: &mut BTreeMap<u64, Row>,
    alloc: Global,
    changes: &[Change],
) -> Result<(), NoMemory>
    ensures stay { RowsStay rows.old rows.new }
    ensures room { OnOk result (IsReady rows.new changes.now) }
{
    for change in changes {
        row_room(rows, alloc, change.number)?;
    }
    Ok(())
}

/// Makes room for what is kept of a transaction.
fn party_room(
    parties: &mut BTreeMap<(u32, u64), Party>,
    alloc: Global,
    party: &Option<Involved>,
) -> Result<(), NoMemory>
    ensures stay { PartiesStay parties.old parties.new }
    ensures room { OnOk result (IsPartyReady parties.new party.now) }
{
    let Some(involved) = party else {
        return Ok(());
    };
    let place = (involved.tid.pass, involved.tid.serial);
    if !parties.contains_key(&place) {
        parties.insert(place, Party::stranger(alloc))?;
    }
    Ok(())
}

/// Puts a row where there is room for it.
fn put_row(rows: &mut BTreeMap<u64, Row>, change: Change)
    requires { IsSome (get nat_cmp rows.old change.number) }
    ensures here { (number : ℕ) → kept_in rows.new number ≡ changed_by change (kept_in rows.old) number }
    ensures room { (number : ℕ) → IsSome (get nat_cmp rows.old number) → IsSome (get nat_cmp rows.new number) }
{
    if let Some(row) = rows.get_mut(&change.number) {
        *row = change.row;
    }
}

/// Puts the rows of changes, of two with one number the first.
fn put_rows(rows: &mut BTreeMap<u64, Row>, mut changes: Vec<Change>)
    requires { IsReady rows.old changes.items }
    ensures here { (number : ℕ) → kept_in rows.new number
        ≡ changed (change_in changes.items number) (kept_in rows.old number) }
    ensures room { (number : ℕ) → IsSome (get nat_cmp rows.old number) → IsSome (get nat_cmp rows.new number) }
{
    while let Some(change) = changes.pop() {
        put_row(rows, change);
    }
}

/// Puts what is kept of a transaction.
fn put_party(parties: &mut BTreeMap<(u32, u64), Party>, party: Option<Involved>)
    requires { IsPartyReady parties.old party }
    ensures here { (tid : Tid) → party_in parties.new tid
        ≡ unwrap_or (concerned party tid) (party_in parties.old tid) }
    ensures room { (place : ℕ × ℕ) → IsSome (get tid_cmp parties.old place) → IsSome (get tid_cmp parties.new place) }
{
    if let Some(involved) = party {
        let place = (involved.tid.pass, involved.tid.serial);
        if let Some(kept) = parties.get_mut(&place) {
            *kept = involved.party;
        }
    }
}

impl Shelf {
    ghost use Rattle.page_store.specs.Steps.{keeps_of, under, HasRoom, RoomStays};

    /// Nothing is kept yet. It takes no memory.
    pub fn new(alloc: Global) -> Shelf
        ensures { keeps_of result ≡ nothing }
    {
        Shelf {
            rows: BTreeMap::new(alloc),
            parties: BTreeMap::new(alloc),
            next: 0,
        }
    }

    /// Makes room for a patch; what is kept stays.
    pub fn make_room(&mut self, alloc: Global, patch: &Patch) -> Result<(), NoMemory>
        ensures same { keeps_of self.new ≡ keeps_of self.old }
        ensures stays { RoomStays self.old self.new }
        ensures room { OnOk result (HasRoom self.new patch.now) }
    {
        rows_room(&mut self.rows, alloc, &patch.rows)?;
        party_room(&mut self.parties, alloc, &patch.party)
    }

    /// Puts a patch where there is room for it. It takes no memory.
    pub fn adopt(&mut self, patch: Patch)
        requires { HasRoom self.old patch }
        ensures under { keeps_of self.new ≡ under patch (keeps_of self.old) }
        ensures stays { RoomStays self.old self.new }
    {
        let Patch { rows, party, next } = patch;
        put_rows(&mut self.rows, rows);
        put_party(&mut self.parties, party);
        self.next = next;
    }
}
