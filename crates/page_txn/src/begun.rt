//! How a port stood when a transaction began.

ghost use Rattle.std.specs.Prelude.{[], None};
ghost use Rattle.page_types.specs.Ports.{PortState};

use std::marker::Brand;

/// How a port stood when a transaction began. Each call that begins one picks it, at `Brand`.
pub trait Begun {
    /// What the port told then.
    ghost start: { PortState };
}

impl Begun for Brand {
    ghost start = { record {
      origin = record { stores = 0; first = [] };
      pass = 0;
      mine = [];
      journal = None;
      doubts = 0;
      stops = 0;
    } };
}
