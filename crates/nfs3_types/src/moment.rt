//! Times (RFC 1813, section 2.5, `nfstime3`).

/// A time as NFS version 3 spells it: seconds since 1970-01-01 00:00 UTC, and nanoseconds past
/// them. Any two values are kept, also nanoseconds of a second or more.
#[derive(Clone, Copy, Debug, PartialEq, Eq)]
pub struct Moment {
    /// Whole seconds since 1970.
    pub seconds: u32,
    /// Nanoseconds past the second.
    pub nanos: u32,
}
