//! The nine lines that the workload writes.

ghost use Rattle.std.specs.Prelude.{◌≡◌, ◌++◌, IfOk, OnOk};
ghost use Rattle.workload.specs.Lines.{line, lines_of};

use itoa::Buffer;
use nfs3_types::{NoMemory, Text};
use std::alloc::Global;

/// What the workload counts.
#[derive(Clone, Copy, Debug, PartialEq, Eq)]
pub struct Tally {
    /// How many calls there were.
    pub calls: u32,
    /// How many of them were answered by a reply.
    pub acknowledged: u32,
    /// How many were answered by a server fault, since a command's outcome was not told.
    pub serverfault: u32,
    /// How many were put off.
    pub jukebox: u32,
    /// How many wanted memory.
    pub nomemory: u32,
    /// How many were not answered, since their delegate stopped.
    pub stopped: u32,
    /// How many entries the history has.
    pub history: u64,
    /// How many nodes the tree has.
    pub nodes: u64,
    /// How many bytes its files hold.
    pub bytes: u128,
}

/// Puts a line: a name, a space and a number.
fn put_line(text: &mut Vec<u8>, name: &[u8], number: u128) -> Result<(), NoMemory>
    ensures { OnOk result (text.new.items ≡ text.old.items ++ line name.now number) }
{
    let mut buffer = Buffer::new();
    text.extend_from_slice(name)?;
    text.extend_from_slice(b" ")?;
    text.extend_from_slice(buffer.format(number).as_bytes())?;
    text.extend_from_slice(b"\n")?;
    Ok(())
}

/// The lines of a tally.
pub fn lines_of(alloc: Global, tally: &Tally) -> Result<Text, NoMemory>
    ensures { IfOk result (λ text. text ≡ lines_of tally.now) }
{
    let mut text = Vec::new(alloc);
    put_line(&mut text, b"calls", u128::from(tally.calls))?;
    put_line(&mut text, b"acknowledged", u128::from(tally.acknowledged))?;
    put_line(&mut text, b"serverfault", u128::from(tally.serverfault))?;
    put_line(&mut text, b"jukebox", u128::from(tally.jukebox))?;
    put_line(&mut text, b"nomemory", u128::from(tally.nomemory))?;
    put_line(&mut text, b"stopped", u128::from(tally.stopped))?;
    put_line(&mut text, b"history", u128::from(tally.history))?;
    put_line(&mut text, b"nodes", u128::from(tally.nodes))?;
    put_line(&mut text, b"bytes", tally.bytes)?;
    Ok(Text::from_vec(text))
}
