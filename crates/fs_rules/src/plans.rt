//! What a changing call is going to do, once all its checks have passed: numbers of nodes of the live tree, and
//! what the change needs besides the call.

use nfs3_types::Fattr;

/// SETATTR: the file, and its attributes as they will be.
#[derive(Clone, Copy, Debug, PartialEq, Eq)]
pub struct SetAttrPlan {
    /// The file.
    pub fileid: u64,
    /// Its attributes as they will be.
    pub attributes: Fattr,
}

/// WRITE: the file, and how many bytes are written.
#[derive(Clone, Copy, Debug, PartialEq, Eq)]
pub struct WritePlan {
    /// The file.
    pub fileid: u64,
    /// How many of the call's bytes are written, from the first.
    pub count: u32,
}

/// MKDIR and SYMLINK: the directory, and the number of what is made.
#[derive(Clone, Copy, Debug, PartialEq, Eq)]
pub struct NewPlan {
    /// The directory.
    pub directory: u64,
    /// The number of the new node.
    pub fileid: u64,
}

/// CREATE.
#[derive(Clone, Copy, Debug, PartialEq, Eq)]
pub struct CreatePlan {
    /// The directory.
    pub directory: u64,
    /// The file.
    pub fileid: u64,
    /// Whether it is made; else it is there.
    pub is_new: bool,
    /// The size that a file that is there gets, where one is given.
    pub size: Option<u64>,
}

/// REMOVE and RMDIR: the directory, and the node whose name goes.
#[derive(Clone, Copy, Debug, PartialEq, Eq)]
pub struct RemovePlan {
    /// The directory.
    pub directory: u64,
    /// The node.
    pub fileid: u64,
}

/// A node that has the new name of a RENAME, and goes.
#[derive(Clone, Copy, Debug, PartialEq, Eq)]
pub struct Replaced {
    /// The node.
    pub fileid: u64,
    /// Whether it is a directory.
    pub is_directory: bool,
}

/// RENAME.
#[derive(Clone, Copy, Debug, PartialEq, Eq)]
pub struct RenamePlan {
    /// The directory of the old name.
    pub from: u64,
    /// The directory of the new name.
    pub to: u64,
    /// The node.
    pub fileid: u64,
    /// Whether both names are the node's already, and stay.
    pub is_same: bool,
    /// Whether a directory gets another parent.
    pub reparents: bool,
    /// What has the new name.
    pub replaced: Option<Replaced>,
}

/// LINK: the file, and the directory of its further name.
#[derive(Clone, Copy, Debug, PartialEq, Eq)]
pub struct LinkPlan {
    /// The file.
    pub file: u64,
    /// The directory.
    pub directory: u64,
}

/// What the way from a directory up to the root says.
#[derive(Clone, Copy, Debug, PartialEq, Eq)]
pub enum Climb {
    /// The root is further up than a directory may be below it.
    TooDeep,
    /// The way leads through the directory that was sought, and to the root.
    Found,
    /// It leads to the root, and not through that directory.
    Root,
}
