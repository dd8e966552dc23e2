//! What is asked of the files of calls.

ghost use Rattle.std.specs.Prelude.{◌≡◌};
ghost use Rattle.fs_rules.specs.Attributes.{is_file as is_file_kind};

use fs_rules::Inode;
use nfs3_types::FileType;

/// Whether it is a regular file.
pub(crate) fn is_file(inode: &Inode) -> bool
    ensures { result ≡ is_file_kind inode.now.kind }
{
    inode.kind == FileType::Reg
}
