//! The procedures of NFS version 3.

ghost use Rattle.std.specs.Prelude.{◌≡◌};
ghost use Rattle.nfs3_types.specs.Procedures.{procedure_number, procedure_named, procedure_at, has_status};

/// A procedure of NFS version 3 (RFC 1813, section 3.3), by the standard's name.
#[derive(Clone, Copy, Debug, PartialEq, Eq)]
pub enum Procedure {
    /// Nothing is asked.
    Null,
    /// The attributes of an object.
    GetAttr,
    /// Sets attributes.
    SetAttr,
    /// The object of a name.
    Lookup,
    /// Which rights the caller has.
    Access,
    /// What a symbolic link leads to.
    ReadLink,
    /// Content of a file.
    Read,
    /// Writes content of a file.
    Write,
    /// Makes a file.
    Create,
    /// Makes a directory.
    Mkdir,
    /// Makes a symbolic link.
    Symlink,
    /// Makes a special file.
    Mknod,
    /// Removes the name of a file.
    Remove,
    /// Removes a directory.
    Rmdir,
    /// Renames a file or a directory.
    Rename,
    /// Gives a file a further name.
    Link,
    /// Names in a directory.
    ReadDir,
    /// Names in a directory, with attributes and handles.
    ReadDirPlus,
    /// How full a file system is.
    FsStat,
    /// What a file system can do.
    FsInfo,
    /// What paths can be.
    PathConf,
    /// Makes writes last.
    Commit,
}

impl Procedure {
    /// The procedure's number.
    pub fn number(self) -> u32
        ensures { result ≡ procedure_number self }
    {
        match self {
            Procedure::Null => 0,
            Procedure::GetAttr => 1,
            Procedure::SetAttr => 2,
            Procedure::Lookup => 3,
            Procedure::Access => 4,
            Procedure::ReadLink => 5,
            Procedure::Read => 6,
            Procedure::Write => 7,
            Procedure::Create => 8,
            Procedure::Mkdir => 9,
            Procedure::Symlink => 10,
            Procedure::Mknod => 11,
            Procedure::Remove => 12,
            Procedure::Rmdir => 13,
            Procedure::Rename => 14,
            Procedure::Link => 15,
            Procedure::ReadDir => 16,
            Procedure::ReadDirPlus => 17,
            Procedure::FsStat => 18,
            Procedure::FsInfo => 19,
            Procedure::PathConf => 20,
            Procedure::Commit => 21,
        }
    }

    /// The procedure of this number, where there is one.
    #[tactic(auto, unfolding(crate::specs::Procedures::procedure_named))]
    pub fn of(number: u32) -> Option<Procedure>
        ensures { result ≡ procedure_named number }
    {
        match number {
            0 => Some(Procedure::Null),
            1 => Some(Procedure::GetAttr),
            2 => Some(Procedure::SetAttr),
            3 => Some(Procedure::Lookup),
            4 => Some(Procedure::Access),
            5 => Some(Procedure::ReadLink),
            6 => Some(Procedure::Read),
            7 => Some(Procedure::Write),
            8 => Some(Procedure::Create),
            9 => Some(Procedure::Mkdir),
            10 => Some(Procedure::Symlink),
            11 => Some(Procedure::Mknod),
            12 => Some(Procedure::Remove),
            13 => Some(Procedure::Rmdir),
            14 => Some(Procedure::Rename),
            15 => Some(Procedure::Link),
            16 => Some(Procedure::ReadDir),
            17 => Some(Procedure::ReadDirPlus),
            18 => Some(Procedure::FsStat),
            19 => Some(Procedure::FsInfo),
            20 => Some(Procedure::PathConf),
            21 => Some(Procedure::Commit),
            _ => None,
        }
    }

    /// The procedure as which this number is spelled: `Null` where it is that of no procedure.
    pub fn at(number: u32) -> Procedure
        ensures { result ≡ procedure_at number }
    {
        match Procedure::of(number) {
            Some(procedure) => procedure,
            None => Procedure::Null,
        }
    }

    /// Whether its result begins with a status: that of `Null` does not.
    pub fn has_status(self) -> bool
        ensures { result ≡ has_status self }
    {
        match self {
            Procedure::Null => false,
            _ => true,
        }
    }
}
