//! All stores of a shape, each behind its replicas, and the journal of what they did.
//!
//! It promises that its journal is lawful, whatever commands its passes ask, where each command keeps its pass's own
//! entries fair ([`Fabric::journal`]); that the stores are what the journal tells ([`Fabric::store`], [`Fabric::group`]);
//! and that a step adds exactly its own entries, is answered as the store's rule says, and is in doubt only where a
//! majority of the store's replicas had a bad fate in it ([`Fabric::step`]). It stands on `store_group`, and on
//! `serial_core` for the law.
//!
//! ```text
//! let fabric = Fabric::new(alloc, 4, 3, page, weather)?;
//! let mut port = OwnedPort::new(fabric, pass);
//! let answer = port.step(store, &command)?;
//! let fabric = port.part();
//! ```
#![tactic(auto)]

mod book;
mod fabric;
mod fault;
mod owned;
mod shape;
mod taking;

pub use fabric::Fabric;
pub use fault::FabricFault;
pub use owned::OwnedPort;
