//! What a store keeps of a page.

ghost use Rattle.std.specs.Prelude.{◌≡◌, ℕ, ◌+◌, ◌≤◌, ◌^◌, ◌∷◌, Some, IfOk, option_copied};
ghost use Rattle.page_types.specs.Stores.{never_written};
ghost use Rattle.page_types.specs.Obeys.{written, holding, releasing, resolving, without};
ghost use Rattle.page_store.specs.Rows.{kept_of, kept_at, row_of};

use crate::look::is_same;
use nfs3_types::{Copies, ListOf, NoMemory};
use page_types::{Hold, Shared, WriteHold};
use pair_types::{Page, Tid};
use std::alloc::Global;

/// Who wrote a page that was never written.
pub(crate) const NOBODY: Tid = Tid { pass: 0, serial: 0 };

/// What a store keeps of a page. Copies share the content and the holds.
#[derive(Drop)]
pub(crate) struct Row {
    pub version: u64,
    pub content: Page,
    pub by: Tid,
    /// The readers' holds, the latest first.
    pub readers: ListOf<Shared<Hold>>,
    pub writer: Option<Shared<WriteHold>>,
}

/// What a page holds from now on.
#[derive(Drop)]
pub(crate) struct Change {
    pub number: u64,
    pub row: Row,
}

impl Row {
    /// The row of a page that was never written. It takes no memory.
    pub fn blank(alloc: Global) -> Row
        ensures { result ≡ row_of never_written }
    {
        Row {
            version: 0,
            content: Page::empty(),
            by: NOBODY,
            readers: ListOf::new(alloc),
            writer: None,
        }
    }
}

/// An equal writer's hold, where there is one. It is shared.
fn copy_writer(
    alloc: Global,
    writer: &Option<Shared<WriteHold>>,
) -> Result<Option<Shared<WriteHold>>, NoMemory>
    ensures { IfOk result (λ copy. copy ≡ writer.now) }
{
    match writer {
        Some(writer) => Ok(Some(writer.copy(alloc)?)),
        None => Ok(None),
    }
}

/// The readers' holds with one more, at their head.
fn with_reader(
    alloc: Global,
    hold: &Shared<Hold>,
    readers: &[Shared<Hold>],
) -> Result<ListOf<Shared<Hold>>, NoMemory>
    ensures { IfOk result (λ list. list ≡ hold.now ∷ readers.now) }
{
    let mut list = Vec::with_capacity(alloc, readers.len().saturating_add(1))?;
    list.push(hold.copy(alloc)?)?;
    for reader in readers {
        list.push(reader.copy(alloc)?)?;
    }
    Ok(ListOf::from_vec(list))
}

/// The readers' holds of other transactions.
fn without(
    alloc: Global,
    tid: Tid,
    readers: &[Shared<Hold>],
) -> Result<ListOf<Shared<Hold>>, NoMemory>
    ensures { IfOk result (λ list. list ≡ without tid readers.now) }
{
    let mut list = Vec::new(alloc);
    for reader in readers {
        if !is_same(reader.get().tid, tid) {
            list.push(reader.copy(alloc)?)?;
        }
    }
    Ok(ListOf::from_vec(list))
}

/// The row of a page once a transaction has written it.
pub(crate) fn written_row(
    alloc: Global,
    row: Option<&Row>,
    tid: Tid,
    content: &Page,
) -> Result<Row, NoMemory>
    requires { (kept_at (option_copied row)).version ≤ 2 ^ 63 + 1 }
    ensures { IfOk result (λ new. new
        ≡ row_of (written tid (Some content.now) (kept_at (option_copied row.entry)))) }
{
    let Some(row) = row else {
        let mut new = Row::blank(alloc);
        new.version = 1;
        new.content = content.copy()?;
        new.by = tid;
        return Ok(new);
    };
    Ok(Row {
        version: row.version + 1,
        content: content.copy()?,
        by: tid,
        readers: row.readers.copy(alloc)?,
        writer: copy_writer(alloc, &row.writer)?,
    })
}

/// An equal row, or that of a page that was never written.
fn copy_row(alloc: Global, row: Option<&Row>) -> Result<Row, NoMemory>
    ensures { IfOk result (λ new. new ≡ row_of (kept_at (option_copied row.entry))) }
{
    let Some(row) = row else {
        return Ok(Row::blank(alloc));
    };
    Ok(Row {
        version: row.version,
        content: row.content.copy()?,
        by: row.by,
        readers: row.readers.copy(alloc)?,
        writer: copy_writer(alloc, &row.writer)?,
    })
}

/// The row of a page once a reader's hold stands on it.
fn read_row(alloc: Global, row: Option<&Row>, hold: &Shared<Hold>) -> Result<Row, NoMemory>
    ensures { IfOk result (λ new. new ≡ row_of (record (kept_at (option_copied row.entry)) {
      readers = hold.now ∷ (kept_at (option_copied row.entry)).readers;
    })) }
{
    let mut new = copy_row(alloc, row)?;
    new.readers = with_reader(alloc, hold, new.readers.as_slice())?;
    Ok(new)
}

/// The row of a page once a writer's hold stands on it.
fn write_row(
    alloc: Global,
    row: Option<&Row>,
    hold: &Shared<Hold>,
    content: &Page,
) -> Result<Row, NoMemory>
    ensures { IfOk result (λ new. new ≡ row_of (record (kept_at (option_copied row.entry)) {
      writer = Some (record { hold = hold.now; content = content.now });
    })) }
{
    let mut new = copy_row(alloc, row)?;
    let writer = WriteHold {
        hold: hold.get().copy(alloc)?,
        content: content.copy()?,
    };
    new.writer = Some(Shared::new(alloc, writer)?);
    Ok(new)
}

/// The row of a page once a transaction holds it that has read it, and maybe is to write it.
pub(crate) fn held_row(
    alloc: Global,
    row: Option<&Row>,
    hold: &Shared<Hold>,
    content: Option<&Page>,
) -> Result<Row, NoMemory>
    ensures { IfOk result (λ new. (version : ℕ) → new
        ≡ row_of (holding hold.now (option_copied content.entry) (Some version)
        (kept_at (option_copied row.entry)))) }
{
    match content {
        Some(content) => write_row(alloc, row, hold, content),
        None => read_row(alloc, row, hold),
    }
}

/// The row of a page on which a transaction's writer's hold goes.
fn released_row(
    alloc: Global,
    row: &Row,
    tid: Tid,
    commit: bool,
    content: &Page,
) -> Result<Row, NoMemory>
    requires { row.now.version ≤ 2 ^ 63 + 1 }
    ensures { IfOk result
        (λ new. new ≡ row_of (releasing tid commit content.now (kept_of row.now))) }
{
    let readers = without(alloc, tid, row.readers.as_slice())?;
    if commit {
        return Ok(Row {
            version: row.version + 1,
            content: content.copy()?,
            by: tid,
            readers,
            writer: None,
        });
    }
    Ok(Row {
        version: row.version,
        content: row.content.copy()?,
        by: row.by,
        readers,
        writer: None,
    })
}

/// The row of a page on which a transaction's readers' holds go.
fn freed_row(alloc: Global, row: &Row, tid: Tid) -> Result<Row, NoMemory>
    ensures { IfOk result (λ new. new ≡ row_of (record (kept_of row.now) {
      readers = without tid row.now.readers;
    })) }
{
    Ok(Row {
        version: row.version,
        content: row.content.copy()?,
        by: row.by,
        readers: without(alloc, tid, row.readers.as_slice())?,
        writer: copy_writer(alloc, &row.writer)?,
    })
}

/// The row of a page on which a writer's hold stands, once all holds of a transaction are gone.
fn ended_row(
    alloc: Global,
    row: &Row,
    tid: Tid,
    commit: bool,
    writer: &WriteHold,
) -> Result<Row, NoMemory>
    requires { row.now.version ≤ 2 ^ 63 + 1 }
    ensures { IfOk result
        (λ new. new ≡ row_of (resolving tid commit (Some writer.now) (kept_of row.now))) }
{
    if is_same(writer.hold.tid, tid) {
        released_row(alloc, row, tid, commit, &writer.content)
    } else {
        freed_row(alloc, row, tid)
    }
}

/// The row of a page once all holds of a transaction are gone.
pub(crate) fn resolved_row(
    alloc: Global,
    row: Option<&Row>,
    tid: Tid,
    commit: bool,
) -> Result<Row, NoMemory>
    requires { (kept_at (option_copied row)).version ≤ 2 ^ 63 + 1 }
    ensures { let kept = kept_at (option_copied row.entry) in
        IfOk result (λ new. new ≡ row_of (resolving tid commit kept.writer kept)) }
{
    let Some(row) = row else {
        return Ok(Row::blank(alloc));
    };
    match &row.writer {
        Some(writer) => ended_row(alloc, row, tid, commit, writer.get()),
        None => freed_row(alloc, row, tid),
    }
}
