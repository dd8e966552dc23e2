//! A steady port that owns a fabric.
//!
//! It promises all that `fabric`'s own port does, and that its pass was never told two pages of one version: its
//! fabric's journal is lawful, and in a lawful journal a page of the same version is the same page ([`SteadyPort`]).
//! It is `OwnedPort` again, line for line, with that fact in a ghost field: a port that holds another sees no fabric,
//! and so no lawful journal. It stands on `fabric`, on `steady_law` for the fact, and on `steady_port` for what is
//! promised, so that what asks for a steady port needs no fabric.
//!
//! ```text
//! let fabric = Fabric::new(alloc, 4, 3, page, weather)?;
//! let mut port = SteadyPort::new(fabric, pass);
//! let answer = port.step(store, &command)?;
//! let fabric = port.part();
//! ```
#![tactic(auto)]

mod port;

pub use port::SteadyPort;
