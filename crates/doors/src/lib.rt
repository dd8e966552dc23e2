//! Doors: where visits come from, each with an input, an output and a clock; and gates, which a test closes.
//!
//! It promises traits whose contracts say which visit comes, where a door tells its visits; that a fault comes only
//! where the door's own count of faults rose; and that the receipt of a settled visit tells what its parts told.
//! Beside the traits it has a door in memory, which tells everything, and thin adapters over the machine's TCP, which
//! tell nothing of content. It stands on `outside`.
//!
//! ```text
//! let mut door = TcpDoor::new(rt, address);
//! while let Some(visit) = door.next()? {
//!     let receipt = serve_one(visit);
//! }
//! ```
#![tactic(auto)]

mod door;
mod gate;
mod list_door;
mod tcp_door;
mod tcp_input;
mod tcp_output;
mod visit;

pub use door::Door;
pub use gate::{Gate, OpenGate};
pub use list_door::ListDoor;
pub use tcp_door::TcpDoor;
pub use tcp_input::TcpInput;
pub use tcp_output::TcpOutput;
pub use visit::Visit;
