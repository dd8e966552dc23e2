//! The procedures of MOUNT, version 3 (RFC 1813, appendix I, section 5.2).

/// Asks nothing.
pub const NULL: u32 = 0;

/// Asks for the handle of a path.
pub const MNT: u32 = 1;

/// Asks who has mounted what.
pub const DUMP: u32 = 2;

/// Says that a path is mounted no more.
pub const UMNT: u32 = 3;

/// Says that nothing is mounted any more.
pub const UMNTALL: u32 = 4;

/// Asks what can be mounted. It is the last procedure.
pub const EXPORT: u32 = 5;
