//! What is written in rows.

ghost use Rattle.std.specs.Prelude.{IsSome};
ghost use Rattle.page_txn.specs.Rows.{row_at};
ghost use Rattle.page_txn.specs.Learning.{PutsRow, ForgetsWrites};

use crate::row::Row;
use pair_types::{Page, Slot};
use std::collections::BTreeMap;

/// Writes a page in the row of a slot. It takes no memory.
pub(crate) fn put(rows: &mut BTreeMap<(u32, u64), Row>, s: Slot, page: Page)
    requires { IsSome (row_at rows.old s) }
    ensures { PutsRow rows.old rows.new s page }
{
    if let Some(row) = rows.get_mut(&(s.store, s.number)) {
        row.written = Some(page);
    }
}

/// Forgets what is written in each row. It takes no memory.
pub(crate) fn forget(rows: &mut BTreeMap<(u32, u64), Row>)
    ensures { ForgetsWrites rows.old rows.new }
{
    rows.retain(|_place, row| {
        row.written = None;
        true
    });
}
