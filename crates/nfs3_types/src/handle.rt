//! This service's file handles.

ghost use Rattle.std.specs.Prelude.{◌≡◌, ◌↔◌, length, IsSome};
ghost use Rattle.nfs3_types.specs.Handles.{handle, handle_in};

use byteorder::{BigEndian, ByteOrder};

/// The greatest length in bytes of a file handle of any server (RFC 1813, section 2.4, NFS3_FHSIZE).
pub const FHSIZE: u32 = 64;

/// What a file handle of this service says (RFC 1813, section 2.6, nfs_fh3): which file of which
/// snapshot of which file system. A handle's bytes are the three numbers, eight bytes each, the highest
/// first.
#[derive(Clone, Copy, Debug, PartialEq, Eq)]
pub struct Handle {
    /// The file system.
    pub fsid: u64,
    /// The snapshot: 0 in the live tree.
    pub snapshot: u64,
    /// The file.
    pub fileid: u64,
}

impl Handle {
    /// What a handle of these bytes says. `None` exactly where they are not 24.
    #[tactic(auto, unfolding(crate::specs::Handles::handle, xdr_grammar::specs::Items::hyper))]
    pub fn of(text: &[u8]) -> Option<Handle>
        ensures said { result ≡ handle_in text.now }
        ensures some { IsSome result ↔ (length text.now ≡ 24) }
    {
        if text.len() != 24 {
            return None;
        }
        Some(Handle {
            fsid: BigEndian::read_u64(&text[..8]),
            snapshot: BigEndian::read_u64(&text[8..16]),
            fileid: BigEndian::read_u64(&text[16..]),
        })
    }

    /// The handle's bytes.
    #[tactic(auto, unfolding(crate::specs::Handles::handle, xdr_grammar::specs::Items::hyper))]
    pub fn spell(&self) -> [u8; 24]
        ensures { result ≡ handle.spelling self.now }
    {
        let mut text = [0; 24];
        text[..8].copy_from_slice(&self.fsid.to_be_bytes());
        text[8..16].copy_from_slice(&self.snapshot.to_be_bytes());
        text[16..].copy_from_slice(&self.fileid.to_be_bytes());
        text
    }
}
