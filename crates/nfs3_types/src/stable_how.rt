//! How lasting a write is.

ghost use Rattle.std.specs.Prelude.{◌≡◌};
ghost use Rattle.xdr_grammar.specs.Enumerations.{named};
ghost use Rattle.nfs3_types.specs.Stability.{stable_number, stabilities};

/// How lasting a write is (RFC 1813, section 3.3.7, stable_how).
#[derive(Clone, Copy, Debug, PartialEq, Eq)]
pub enum StableHow {
    /// It may be lost until it is committed.
    Unstable,
    /// The data is kept, and what is needed to read it back.
    DataSync,
    /// The data and all attributes are kept.
    FileSync,
}

impl StableHow {
    /// The number on the wire.
    pub fn number(self) -> u32
        ensures { result ≡ stable_number self }
    {
        match self {
            StableHow::Unstable => 0,
            StableHow::DataSync => 1,
            StableHow::FileSync => 2,
        }
    }

    /// The value of this number, where there is one.
    pub fn of(number: u32) -> Option<StableHow>
        ensures { result ≡ named stable_number stabilities number }
    {
        match number {
            0 => Some(StableHow::Unstable),
            1 => Some(StableHow::DataSync),
            2 => Some(StableHow::FileSync),
            _ => None,
        }
    }
}
