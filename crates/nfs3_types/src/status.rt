//! Why a call succeeded or failed.

ghost use Rattle.std.specs.Prelude.{◌≡◌};
ghost use Rattle.xdr_grammar.specs.Enumerations.{named};
ghost use Rattle.nfs3_types.specs.Statuses.{status_number, statuses};

/// The status of a reply (RFC 1813, section 2.6, nfsstat3), by the standard's names.
#[derive(Clone, Copy, Debug, PartialEq, Eq)]
pub enum Status {
    /// The call succeeded.
    Ok,
    /// The caller is not the owner.
    Perm,
    /// No such file or directory.
    NoEnt,
    /// A hard fault of the disk.
    Io,
    /// No such device or address.
    Nxio,
    /// The caller has no right to do this.
    Acces,
    /// The name is there already.
    Exist,
    /// A link would cross file systems.
    Xdev,
    /// No such device.
    NoDev,
    /// Not a directory.
    NotDir,
    /// A directory.
    IsDir,
    /// An argument that is not valid.
    Inval,
    /// The file would grow too large.
    FBig,
    /// No space is left.
    NoSpc,
    /// The file system cannot be changed.
    Rofs,
    /// Too many links.
    MLink,
    /// The name is too long.
    NameTooLong,
    /// The directory is not empty.
    NotEmpty,
    /// The caller's quota is used up.
    DQuot,
    /// The handle names no file any more.
    Stale,
    /// Too many levels of remote paths.
    Remote,
    /// The handle is none of this service's.
    BadHandle,
    /// The guard does not agree with the file's times.
    NotSync,
    /// The directory's cookie is stale.
    BadCookie,
    /// The call is not supported.
    NotSupp,
    /// The buffer or the request is too small.
    TooSmall,
    /// A fault that no other status fits.
    ServerFault,
    /// An object of this type cannot be made.
    BadType,
    /// The call was begun and cannot be ended in time; ask again.
    Jukebox,
}

impl Status {
    /// The status's number on the wire.
    pub fn number(self) -> u32
        ensures { result ≡ status_number self }
    {
        match self {
            Status::Ok => 0,
            Status::Perm => 1,
            Status::NoEnt => 2,
            Status::Io => 5,
            Status::Nxio => 6,
            Status::Acces => 13,
            Status::Exist => 17,
            Status::Xdev => 18,
            Status::NoDev => 19,
            Status::NotDir => 20,
            Status::IsDir => 21,
            Status::Inval => 22,
            Status::FBig => 27,
            Status::NoSpc => 28,
            Status::Rofs => 30,
            Status::MLink => 31,
            Status::NameTooLong => 63,
            Status::NotEmpty => 66,
            Status::DQuot => 69,
            Status::Stale => 70,
            Status::Remote => 71,
            Status::BadHandle => 10001,
            Status::NotSync => 10002,
            Status::BadCookie => 10003,
            Status::NotSupp => 10004,
            Status::TooSmall => 10005,
            Status::ServerFault => 10006,
            Status::BadType => 10007,
            Status::Jukebox => 10008,
        }
    }

    /// The status of this number, where there is one.
    pub fn of(number: u32) -> Option<Status>
        ensures { result ≡ named status_number statuses number }
    {
        match number {
            0 => Some(Status::Ok),
            1 => Some(Status::Perm),
            2 => Some(Status::NoEnt),
            5 => Some(Status::Io),
            6 => Some(Status::Nxio),
            13 => Some(Status::Acces),
            17 => Some(Status::Exist),
            18 => Some(Status::Xdev),
            19 => Some(Status::NoDev),
            20 => Some(Status::NotDir),
            21 => Some(Status::IsDir),
            22 => Some(Status::Inval),
            27 => Some(Status::FBig),
            28 => Some(Status::NoSpc),
            30 => Some(Status::Rofs),
            31 => Some(Status::MLink),
            63 => Some(Status::NameTooLong),
            66 => Some(Status::NotEmpty),
            69 => Some(Status::DQuot),
            70 => Some(Status::Stale),
            71 => Some(Status::Remote),
            10001 => Some(Status::BadHandle),
            10002 => Some(Status::NotSync),
            10003 => Some(Status::BadCookie),
            10004 => Some(Status::NotSupp),
            10005 => Some(Status::TooSmall),
            10006 => Some(Status::ServerFault),
            10007 => Some(Status::BadType),
            10008 => Some(Status::Jukebox),
            _ => None,
        }
    }
}
