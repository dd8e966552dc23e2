//! Look-ups in what is kept, under a patch.

ghost use Rattle.std.specs.Prelude.{◌≡◌, Some, option_copied, unwrap_or};
ghost use Rattle.page_types.specs.Accesses.{is_same};
ghost use Rattle.page_store.specs.Rows.{kept_at};
ghost use Rattle.page_store.specs.Keeps.{change_in, concerned, stranger};
ghost use Rattle.page_store.specs.Steps.{seen};

use crate::party::{Involved, Party};
use crate::patch::Patch;
use crate::row::{Change, NOBODY, Row};
use crate::shelf::Shelf;
use page_types::Outcome;
use pair_types::Tid;

/// What is kept, under a patch.
#[derive(Clone, Copy)]
pub(crate) struct View<'a> {
    pub shelf: &'a Shelf,
    pub over: &'a Patch,
}

/// Whether two identities are one transaction's.
pub(crate) fn is_same(one: Tid, other: Tid) -> bool
    ensures { result ≡ is_same one other }
{
    one.pass == other.pass && one.serial == other.serial
}

/// The row that a list of changes has of a number.
fn changed_row(changes: &[Change], number: u64) -> Option<&Row>
    ensures { option_copied result ≡ change_in changes.now number }
{
    for change in changes {
        if change.number == number {
            return Some(&change.row);
        }
    }
    None
}

/// What is kept of a transaction from now on, where it is the one that is concerned.
fn party_of(involved: &Involved, tid: Tid) -> Option<&Party>
    ensures { option_copied result ≡ concerned (Some involved.now) tid }
{
    if is_same(involved.tid, tid) {
        Some(&involved.party)
    } else {
        None
    }
}

impl<'a> View<'a> {
    /// The row of a page, where there is one.
    pub fn row(&self, number: u64) -> Option<&Row>
        ensures { kept_at (option_copied result) ≡ (seen self.now).slot number }
    {
        match changed_row(&self.over.rows, number) {
            Some(row) => Some(row),
            None => self.shelf.row(number),
        }
    }

    /// What the patch has of a transaction.
    fn patched_party(&self, tid: Tid) -> Option<&Party>
        ensures { option_copied result ≡ concerned self.now.over.now.party tid }
    {
        match &self.over.party {
            Some(involved) => party_of(involved, tid),
            None => None,
        }
    }

    /// What is kept of a transaction, where it is no stranger.
    pub fn party(&self, tid: Tid) -> Option<&Party>
        ensures { unwrap_or (option_copied result) stranger ≡ (seen self.now).party tid }
    {
        match self.patched_party(tid) {
            Some(party) => Some(party),
            None => self.shelf.party(tid),
        }
    }

    /// How a transaction was decided here.
    pub fn outcome(&self, tid: Tid) -> Option<&Outcome>
        ensures { option_copied result ≡ ((seen self.now).party tid).outcome }
    {
        match self.party(tid) {
            Some(party) => party.outcome.as_ref(),
            None => None,
        }
    }

    /// Whether a transaction's part has ended here.
    pub fn has_ended(&self, tid: Tid) -> bool
        ensures { result ≡ ((seen self.now).party tid).ended }
    {
        match self.party(tid) {
            Some(party) => party.ended,
            None => false,
        }
    }

    /// The version of a page.
    pub fn version(&self, number: u64) -> u64
        ensures { result ≡ ((seen self.now).slot number).version }
    {
        match self.row(number) {
            Some(row) => row.version,
            None => 0,
        }
    }

    /// Who wrote a page last.
    pub fn by(&self, number: u64) -> Tid
        ensures { result ≡ ((seen self.now).slot number).by }
    {
        match self.row(number) {
            Some(row) => row.by,
            None => NOBODY,
        }
    }
}
