//! Ports over which a page of the same version is the same page.

ghost use Rattle.steady_port.specs.Steady.{IsSteady};

use page_types::{FusedPort, Port};

/// A port whose pass was never told two pages of one version of a slot.
pub trait Steady: Port {
    /// The pass's own entries tell one page of each version.
    ghost steady: { (port : Self) → IsSteady (Self.state port).mine };
}

impl<P: Steady> Steady for FusedPort<P> {
    ghost use Rattle.page_types.specs.Fused.{inner_of};

    ghost steady = { λ port. P.steady (inner_of port) };
}
