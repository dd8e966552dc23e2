//! Slots that come to be known.

ghost use Rattle.std.specs.Prelude.{◌<◌};
ghost use Rattle.page_txn.specs.Learning.{LearnsRow, FreshensRow};

use crate::asking::{fresh_slot, read_slot};
use crate::row::{Row, absent};
use page_types::Port;
use pair_types::{PageFault, Slot, StepFault, Tid};
use std::alloc::Global;
use std::collections::BTreeMap;
use steady_port::Steady;

/// Reads the slot where it was not yet read.
pub(crate) fn learn_row<P: Steady>(
    alloc: Global,
    port: &mut P,
    tid: Tid,
    rows: &mut BTreeMap<(u32, u64), Row>,
    s: Slot,
) -> Result<(), PageFault>
    requires { s.store < (P.state port.old).origin.stores }
    ensures { LearnsRow tid (record { port = P.state port.old; rows = rows.old })
        (record { port = P.state port.new; rows = rows.new }) s result }
{
    let place = (s.store, s.number);
    if rows.contains_key(&place) {
        return Ok(());
    }
    let row = read_slot(alloc, port, tid, s)?;
    match rows.insert(place, row) {
        Ok(_) => Ok(()),
        Err(_) => Err(PageFault::Step(StepFault::NoMemory)),
    }
}

/// Finds an absent slot of a store, which was not known.
pub(crate) fn freshen_row<P: Port>(
    alloc: Global,
    port: &mut P,
    tid: Tid,
    rows: &mut BTreeMap<(u32, u64), Row>,
    store: u32,
) -> Result<Slot, PageFault>
    requires { store < (P.state port.old).origin.stores }
    ensures { FreshensRow tid (record { port = P.state port.old; rows = rows.old })
        (record { port = P.state port.new; rows = rows.new }) store result }
{
    let s = fresh_slot(alloc, port, tid, rows, store)?;
    match rows.insert((s.store, s.number), absent()) {
        Ok(_) => Ok(s),
        Err(_) => Err(PageFault::Step(StepFault::NoMemory)),
    }
}
