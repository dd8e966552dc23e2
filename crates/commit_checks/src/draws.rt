//! Numbers that are drawn.

ghost use Rattle.std.specs.Prelude.{◌<◌};

/// A source of numbers, which come from one number.
#[derive(Drop)]
pub struct Draws {
    state: u64,
}

impl Draws {
    /// The source of this number.
    pub fn new(number: u64) -> Draws {
        Draws { state: number }
    }

    /// The next number, brought below `end`.
    pub fn below(&mut self, end: u64) -> u64
        requires { 0 < end }
        ensures { result < end }
    {
        let product = self.state.wrapping_mul(6_364_136_223_846_793_005);
        self.state = product.wrapping_add(1_442_695_040_888_963_407);
        (self.state >> 33) % end
    }
}
