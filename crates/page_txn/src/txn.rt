//! A transaction over the pages behind a port.

ghost use Rattle.std.specs.Prelude.{◌≡◌, ◌<◌, [], false, OnOk, IfErr};
ghost use Rattle.std.specs.List.{list_any};
ghost use Rattle.pair_types.specs.PageMaps.{latest};
ghost use Rattle.pair_types.specs.PageState.{GivesUp};
ghost use Rattle.page_types.specs.Fair.{IsOfPass, IsOwnEntry, IsRight};
ghost use Rattle.two_phase.specs.Parts.{carries};
ghost use Rattle.page_txn.specs.Rows.{reads_of, writes_of, nothing_read, nothing_written};
ghost use Rattle.page_txn.specs.Since.{Standing};
ghost use Rattle.page_txn.specs.Causes.{state_by};
ghost use Rattle.page_txn.specs.Learning.{Learned};
ghost use Rattle.page_txn.specs.Parts.{CommitsRows};
ghost use Rattle.page_txn.specs.Rechecks.{Rechecks};

use crate::begun::Begun;
use crate::committing::commit_rows;
use crate::learning::{freshen_row, learn_row};
use crate::rechecking::recheck_rows;
use crate::row::Row;
use crate::rows::{forget, put};
use nfs3_types::Entry;
use page_types::{Port, Shared};
use pair_types::{Cross, Page, PageFault, Pages, Slot, StepFault, Tid};
use std::alloc::Global;
use std::collections::BTreeMap;
use std::marker::PhantomData;
use steady_port::Steady;
use two_phase::Commit;

/// A transaction over the pages behind a port, which it owns and gives back. It asks only what keeps the pass's own
/// entries fair, and each version that it knows was answered since it began.
#[derive(Drop)]
pub struct Txn<P: Steady, B: Begun> {
    port: P,
    alloc: Global,
    tid: Tid,
    empty: Page,
    rows: BTreeMap<(u32, u64), Row>,
    of: PhantomData<B>,
    ghost is_empty: { empty ≡ [] },
    ghost standing: { Standing B.start (P.state port) tid rows },
}

impl<P: Steady, B: Begun> Txn<P, B> {
    /// A transaction that has read and written nothing. It takes no memory.
    pub fn new(alloc: Global, port: P, tid: Tid) -> Txn<P, B>
        requires start { P.state port ≡ B.start }
        requires of_pass { IsOfPass (P.state port).pass tid }
        requires fresh { list_any (carries tid) (P.state port).mine ≡ false }
        ensures port { result.port ≡ port }
        ensures tid { result.tid ≡ tid }
        ensures reads { reads_of result.rows ≡ nothing_read }
        ensures writes { writes_of result.rows ≡ nothing_written }
    {
        let empty = Page::empty();
        let rows = BTreeMap::new(alloc);
        Txn {
            port,
            alloc,
            tid,
            empty,
            rows,
            of: PhantomData,
        }
    }

    /// Gives the port back.
    pub fn part(self) -> P
        ensures port { result ≡ self.port }
        ensures standing { Standing B.start (P.state result) self.tid self.rows }
    {
        self.port
    }

    /// Commits the transaction, with the call that it serves, and gives the port back. Where nothing was read it is one
    /// part, at store 0, that reads and writes nothing.
    pub fn commit(self, entry: Option<Shared<Entry>>) -> (P, Commit)
        requires entry { IsOwnEntry self.tid entry }
        requires right { IsRight (P.Rules.stands (P.state self.port).origin) P.Rules.next
            (reads_of self.rows) (writes_of self.rows) entry }
        ensures commits { CommitsRows (P.state self.port) (P.state result.0) self.tid self.rows entry result.1 }
        ensures standing { Standing B.start (P.state self.port) self.tid self.rows }
    {
        let mut port = self.port;
        let commit = commit_rows(self.alloc, &mut port, self.tid, &self.rows, entry);
        (port, commit)
    }

    /// Looks whether what was read is still so, and gives the port back: nothing is answered where each slot that was read
    /// had its version, and no writer's hold, when looked at; else what is in the way, once a transaction that holds it is
    /// finished. Nothing takes effect by it. The fault is that of a step of this.
    pub fn recheck(self) -> (P, Result<Option<Cross>, StepFault>)
        ensures rechecks { Rechecks (P.state self.port) (P.state result.0) self.tid self.rows result.1 }
        ensures standing { Standing B.start (P.state self.port) self.tid self.rows }
    {
        let mut port = self.port;
        let found = recheck_rows(self.alloc, &mut port, self.tid, &self.rows);
        (port, found)
    }

    /// What was written is forgotten; what was read stays. It takes no memory.
    pub fn undo(&mut self)
        ensures port { self.new.port ≡ self.old.port }
        ensures tid { self.new.tid ≡ self.old.tid }
        ensures reads { reads_of self.new.rows ≡ reads_of self.old.rows }
        ensures writes { writes_of self.new.rows ≡ nothing_written }
    {
        forget(&mut self.rows);
    }

    // Reads the slot where it was not yet read.
    fn learn(&mut self, s: Slot) -> Result<(), PageFault>
        requires { s.store < (P.state self.old.port).origin.stores }
        ensures tid { self.new.tid ≡ self.old.tid }
        ensures ok { OnOk result (Learned (state_by self.old.tid (P.state self.old.port) self.old.rows)
            (state_by self.new.tid (P.state self.new.port) self.new.rows) s) }
        ensures err { IfErr result (λ fault.
            GivesUp (state_by self.old.tid (P.state self.old.port) self.old.rows)
            (state_by self.new.tid (P.state self.new.port) self.new.rows) fault) }
    {
        learn_row(self.alloc, &mut self.port, self.tid, &mut self.rows, s)
    }

    // The page in a slot.
    fn page(&self, s: Slot) -> &Page
        ensures { result.now ≡ latest (writes_of self.now.rows) (reads_of self.now.rows) s }
    {
        match self.rows.get(&(s.store, s.number)) {
            Some(row) => match &row.written {
                Some(page) => page,
                None => match &row.content {
                    Some(page) => page,
                    None => &self.empty,
                },
            },
            None => &self.empty,
        }
    }
}

impl<P: Steady, B: Begun> Pages for Txn<P, B> {
    ghost use Rattle.page_txn.specs.RowsSound.{state_by-sound};

    ghost state = { λ t. state_by t.tid (P.state t.port) t.rows };

    ghost sound = { λ t. state_by-sound t.tid (P.state t.port) t.rows };

    fn stores(&self) -> u32 {
        self.port.stores()
    }

    fn read(&mut self, s: Slot) -> Result<&Page, PageFault> {
        if s.store >= self.port.stores() {
            return Ok(&self.empty);
        }
        match self.learn(s) {
            Ok(()) => Ok(self.page(s)),
            Err(fault) => Err(fault),
        }
    }

    fn write(&mut self, s: Slot, p: Page) -> Result<(), PageFault> {
        self.learn(s)?;
        put(&mut self.rows, s, p);
        Ok(())
    }

    fn fresh(&mut self, store: u32) -> Result<Slot, PageFault> {
        freshen_row(self.alloc, &mut self.port, self.tid, &mut self.rows, store)
    }
}
