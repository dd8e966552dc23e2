//! The commit of what a transaction knows.

ghost use Rattle.nfs3_types.specs.declared.entry.Entry.{Entry};
ghost use Rattle.page_txn.specs.Parts.{IsHandable, CommitsRows};

use crate::parts::parts_of;
use crate::row::Row;
use nfs3_types::Entry;
use page_types::{Port, Shared};
use pair_types::{StepFault, Tid};
use std::alloc::Global;
use std::collections::BTreeMap;
use two_phase::Commit;

/// Hands down what the rows say, and commits it.
pub(crate) fn commit_rows<P: Port>(
    alloc: Global,
    port: &mut P,
    tid: Tid,
    rows: &BTreeMap<(u32, u64), Row>,
    entry: Option<Shared<Entry>>,
) -> Commit
    requires { IsHandable P.Rules.stands P.Rules.next (P.state port.old) tid rows.now entry }
    ensures { CommitsRows (P.state port.old) (P.state port.new) tid rows.now entry result }
{
    let _in_order = rows.len();
    let stores = port.stores();
    match parts_of(alloc, rows, stores) {
        Ok(parts) => two_phase::commit(alloc, port, tid, &parts, entry),
        Err(_lacking) => Commit::Fault(StepFault::NoMemory),
    }
}
