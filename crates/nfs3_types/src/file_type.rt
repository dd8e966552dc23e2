//! Types of files.

ghost use Rattle.std.specs.Prelude.{◌≡◌};
ghost use Rattle.xdr_grammar.specs.Enumerations.{named};
ghost use Rattle.nfs3_types.specs.FileTypes.{type_number, file_types};

/// The type of a file (RFC 1813, section 2.6, ftype3), by the standard's names.
#[derive(Clone, Copy, Debug, PartialEq, Eq)]
pub enum FileType {
    /// A regular file.
    Reg,
    /// A directory.
    Dir,
    /// A block device.
    Blk,
    /// A character device.
    Chr,
    /// A symbolic link.
    Lnk,
    /// A socket.
    Sock,
    /// A named pipe.
    Fifo,
}

impl FileType {
    /// The type's number on the wire.
    pub fn number(self) -> u32
        ensures { result ≡ type_number self }
    {
        match self {
            FileType::Reg => 1,
            FileType::Dir => 2,
            FileType::Blk => 3,
            FileType::Chr => 4,
            FileType::Lnk => 5,
            FileType::Sock => 6,
            FileType::Fifo => 7,
        }
    }

    /// The type of this number, where there is one.
    pub fn of(number: u32) -> Option<FileType>
        ensures { result ≡ named type_number file_types number }
    {
        match number {
            1 => Some(FileType::Reg),
            2 => Some(FileType::Dir),
            3 => Some(FileType::Blk),
            4 => Some(FileType::Chr),
            5 => Some(FileType::Lnk),
            6 => Some(FileType::Sock),
            7 => Some(FileType::Fifo),
            _ => None,
        }
    }
}
