//! The service, run on a case.

use crate::case::Case;
use outside::{Calm, ListClock, MemSink, MemSource, Moment, Text};
use std::alloc::{AllocError, Global};

/// The moments of the clock: the first, and then the second again and again.
const MOMENTS: [(u32, u32); 2] = [(1000, 5), (1001, 0)];

/// The most bytes of one put to the error sink.
const LINE: usize = 4096;

/// What came of a case.
#[derive(Drop)]
pub struct Played {
    /// What the case is called.
    pub name: String,
    /// The exit status.
    pub status: u8,
    /// Where the service wrote its replies.
    pub output: MemSink,
    /// Where it said why it ended.
    pub errors: MemSink,
}

/// The clock of every case.
fn clock(alloc: Global) -> Result<ListClock, AllocError> {
    let mut moments = Vec::new(alloc);
    for (seconds, nanos) in MOMENTS {
        moments.push(Moment { seconds, nanos })?;
    }
    Ok(ListClock::new(moments))
}

/// Runs the service on a case, in calm weather.
pub fn play(alloc: Global, case: Case) -> Result<Played, AllocError> {
    let mut clock = clock(alloc)?;
    let mut input = MemSource::new(case.input, case.cut, case.takes);
    let mut output = MemSink::new(alloc, case.cut, case.puts);
    let mut errors = MemSink::new(alloc, LINE, Text::new(alloc));
    let status = service::run(
        alloc,
        &case.words,
        &mut input,
        &mut output,
        &mut errors,
        &mut clock,
        &mut Calm,
    );
    Ok(Played {
        name: case.name,
        status,
        output,
        errors,
    })
}
