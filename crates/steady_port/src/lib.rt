//! Ways to the stores that tell one page for one version.
//!
//! It promises, of a [`Steady`] port, that whatever its pass was told of a page at a version is what it was told of that
//! version first: so what a later try reads at a version is what every earlier one read there. A port that ends after so
//! many steps is steady where the port below is. It stands on `page_types` alone.
//!
//! ```text
//! pub struct Txn<P: Steady> { port: P }
//!
//! let fused = FusedPort::new(port, 12);
//! let txn = Txn { port: fused };
//! ```
#![tactic(auto)]

mod steady;

pub use steady::Steady;
