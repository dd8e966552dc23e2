//! What stands in the way of a command: holds of other transactions, and versions that are not those read.

ghost use Rattle.std.specs.Prelude.{◌≡◌, Some, IfOk, IfSome, option_copied, is_some};
ghost use Rattle.page_types.specs.Accesses.{written_at};
ghost use Rattle.page_types.specs.Obeys.{busy_by, busy_reader, is_before, sooner, other_reader, has_reader, has_hold, busy_at};
ghost use Rattle.page_types.specs.Obeys.{busy, conflict, own_hold, first_held, refused_write};
ghost use Rattle.page_store.specs.Rows.{kept_at};
ghost use Rattle.page_store.specs.Keeps.{state};
ghost use Rattle.page_store.specs.Steps.{seen};
ghost use Rattle.page_store.specs.Ways.{writer_of, other_writer_of, own_prepared};

use crate::look::{View, is_same};
use crate::row::Row;
use nfs3_types::{ListOf, NoMemory};
use page_types::{Answer, Hold, PageRead, PageWrite, Shared};
use pair_types::{Page, Tid};
use std::alloc::Global;

/// The answer that a hold stands on a page.
pub(crate) fn busy_by(alloc: Global, number: u64, hold: &Hold) -> Result<Answer, NoMemory>
    ensures { IfOk result (λ answer. answer ≡ busy_by number hold.now) }
{
    Ok(Answer::Busy {
        number,
        tid: hold.tid,
        home: hold.home,
        parts: ListOf::from_vec(Vec::from_slice(alloc, hold.parts.as_slice())?),
    })
}

/// The answer that a hold stands on a page, where there is one.
pub(crate) fn busy_maybe(
    alloc: Global,
    number: u64,
    hold: Option<&Hold>,
) -> Result<Option<Answer>, NoMemory>
    ensures { IfOk result (λ answer. answer ≡ busy_reader number (option_copied hold.entry)) }
{
    match hold {
        Some(hold) => Ok(Some(busy_by(alloc, number, hold)?)),
        None => Ok(None),
    }
}

/// Whether a transaction comes before another: by its pass, and in one pass by its serial.
fn is_before(one: Tid, other: Tid) -> bool
    ensures { result ≡ is_before one other }
{
    one.pass < other.pass || one.pass == other.pass && one.serial < other.serial
}

/// The hold, or the other one where that is of an earlier transaction.
fn earlier<'a>(hold: &'a Hold, other: &'a Hold) -> &'a Hold
    ensures { result.now ≡ sooner hold.now (Some other.now) }
{
    if is_before(other.tid, hold.tid) {
        other
    } else {
        hold
    }
}

/// The hold, or the other one where there is one, and it is of an earlier transaction.
fn sooner<'a>(hold: &'a Hold, other: Option<&'a Hold>) -> &'a Hold
    ensures { result.now ≡ sooner hold.now (option_copied other.entry) }
{
    match other {
        Some(other) => earlier(hold, other),
        None => hold,
    }
}

/// Among the readers' holds of other transactions, that of the least.
fn other_reader(tid: Tid, readers: &[Shared<Hold>]) -> Option<&Hold>
    ensures { option_copied result ≡ other_reader tid readers.now }
{
    let mut least = None;
    let mut i = readers.len();
    while i > 0 {
        i -= 1;
        let hold = readers[i].get();
        if !is_same(hold.tid, tid) {
            least = Some(sooner(hold, least));
        }
    }
    least
}

/// Whether a transaction has one of these readers' holds.
fn has_reader(tid: Tid, readers: &[Shared<Hold>]) -> bool
    ensures { result ≡ has_reader tid readers.now }
{
    for hold in readers {
        if is_same(hold.get().tid, tid) {
            return true;
        }
    }
    false
}

/// The writer's hold on a page.
pub(crate) fn writer_of(row: Option<&Row>) -> Option<&Hold>
    ensures { option_copied result ≡ writer_of (kept_at (option_copied row.entry)).writer }
{
    match &row?.writer {
        Some(writer) => Some(&writer.get().hold),
        None => None,
    }
}

/// The writer's hold of another transaction on a page.
fn other_writer(tid: Tid, row: Option<&Row>) -> Option<&Hold>
    ensures { option_copied result ≡ other_writer_of tid (kept_at (option_copied row.entry)).writer }
{
    let hold = writer_of(row)?;
    if is_same(hold.tid, tid) {
        return None;
    }
    Some(hold)
}

/// The least reader's hold of another transaction on a page.
fn other_reader_of(tid: Tid, row: Option<&Row>) -> Option<&Hold>
    ensures { option_copied result ≡ other_reader tid (kept_at (option_copied row.entry)).readers }
{
    other_reader(tid, row?.readers.as_slice())
}

/// Whether a transaction has a hold on a page.
fn has_hold(tid: Tid, row: Option<&Row>) -> bool
    ensures { result ≡ has_hold tid (kept_at (option_copied row.entry)) }
{
    let Some(row) = row else {
        return false;
    };
    if has_reader(tid, row.readers.as_slice()) {
        return true;
    }
    match writer_of(Some(row)) {
        Some(hold) => is_same(hold.tid, tid),
        None => false,
    }
}

/// What is to be written to a page, where it is to be written.
pub(crate) fn content_of(writes: &[PageWrite], number: u64) -> Option<&Page>
    ensures { option_copied result ≡ written_at writes.now number }
{
    for write in writes {
        if write.number == number {
            return Some(&write.content);
        }
    }
    None
}

/// Whether a page is to be written.
fn is_written(writes: &[PageWrite], number: u64) -> bool
    ensures { result ≡ is_some (written_at writes.now number) }
{
    content_of(writes, number).is_some()
}

/// The hold of another transaction that bars a page.
fn bar<'a>(tid: Tid, writes: &[PageWrite], number: u64, row: Option<&'a Row>) -> Option<&'a Hold>
    ensures { busy_reader number (option_copied result)
        ≡ busy_at tid writes.now number (kept_at (option_copied row.entry)) }
{
    if let Some(hold) = other_writer(tid, row) {
        return Some(hold);
    }
    if is_written(writes, number) {
        return other_reader_of(tid, row);
    }
    None
}

impl<'a> View<'a> {
    /// That a hold of another transaction stands in the way.
    pub fn busy(
        &self,
        alloc: Global,
        tid: Tid,
        reads: &[PageRead],
        writes: &[PageWrite],
    ) -> Result<Option<Answer>, NoMemory>
        ensures answer { IfOk result
            (λ answer. answer ≡ busy (state (seen self.now)) tid reads.now writes.now) }
        ensures plain { IfOk result (λ answer. IfSome answer (λ a. refused_write a ≡ a)) }
    {
        for read in reads {
            let hold = bar(tid, writes, read.number, self.row(read.number));
            if let Some(hold) = hold {
                return Ok(Some(busy_by(alloc, read.number, hold)?));
            }
        }
        Ok(None)
    }

    /// That a page is not of the version that was read.
    pub fn conflict(&self, reads: &[PageRead]) -> Option<Answer>
        ensures answer { result ≡ conflict (state (seen self.now)) reads.now }
        ensures plain { IfSome result (λ a. refused_write a ≡ a) }
    {
        for read in reads {
            let version = self.version(read.number);
            if version != read.version {
                return Some(Answer::Conflict {
                    number: read.number,
                    version,
                    by: self.by(read.number),
                });
            }
        }
        None
    }

    /// Whether a transaction has a hold on one of the pages that it reads.
    pub fn is_prepared(&self, tid: Tid, reads: &[PageRead]) -> bool
        ensures { own_hold (state (seen self.now)) tid reads.now ≡ own_prepared result }
    {
        for read in reads {
            if has_hold(tid, self.row(read.number)) {
                return true;
            }
        }
        false
    }

    /// The first of these pages with a writer's hold.
    pub fn first_held(&self, alloc: Global, numbers: &[u64]) -> Result<Option<Answer>, NoMemory>
        ensures { IfOk result
            (λ answer. answer ≡ first_held (state (seen self.now)) numbers.now) }
    {
        for number in numbers {
            if let Some(hold) = writer_of(self.row(*number)) {
                return Ok(Some(busy_by(alloc, *number, hold)?));
            }
        }
        Ok(None)
    }
}
