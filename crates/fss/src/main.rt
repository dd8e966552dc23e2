//! The program `fss`: it strips its own name from the words, takes the machine's input, output, error
//! output and clock, and runs the service over them. What it promises is what the service promises of
//! its top call, `run`; what the machine's streams give and take no proof can say. Where memory lacks for
//! the words, it ends as the service does where memory runs out before the first take.
#![tactic(auto)]

use outside::{Calm, StdSink, StdSource, WallClock};
use std::alloc::{AllocError, Global};
use std::env;
use std::process::ExitCode;
use std::rt::Env;

/// The exit status where memory ran out, and its line.
const NO_MEMORY: u8 = 7;

const NO_MEMORY_LINE: &str = "fss: no memory";

/// The words behind the program's name. Where one of them is no text there are none, which is no
/// command.
fn words<R: Env + AllocGlobal>(rt: &R, alloc: Global) -> Result<Vec<String>, AllocError> {
    let mut words = Vec::new(alloc);
    if let Ok(all) = env::args(rt) {
        for word in all.skip(1) {
            words.push(word)?;
        }
    }
    Ok(words)
}

fn main(rt: HostRuntime) -> anyhow::Result<ExitCode> {
    let Ok(words) = words(&rt, rt.alloc()) else {
        eprintln!(rt; "{NO_MEMORY_LINE}")?;
        return Ok(ExitCode::from(NO_MEMORY));
    };
    let status = service::run(
        rt.alloc(),
        &words,
        &mut StdSource::new(rt.stdin()),
        &mut StdSink::new(rt.stdout()),
        &mut StdSink::new(rt.stderr()),
        &mut WallClock::new(rt.clone()?),
        &mut Calm,
    );
    Ok(ExitCode::from(status))
}
