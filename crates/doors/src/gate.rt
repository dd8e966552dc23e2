//! Gates: where a test holds up a pass before its step.

/// Stands before each step of a pass. A test's gate may wait a stated number of turns.
pub trait Gate: Sync {
    /// Is called before each step of the pass.
    fn before_step(&self, pass: u32);
}

/// A gate that does nothing.
#[derive(Clone, Copy, Debug, PartialEq, Eq)]
pub struct OpenGate;

impl Gate for OpenGate {
    fn before_step(&self, pass: u32) {
        let _pass = pass;
    }
}
