//! What lies in a slot.

ghost use Rattle.std.specs.Prelude.{◌≡◌, ◌==◌, [], length, IfOk};

use bytes::Bytes;
use nfs3_types::NoMemory;
use std::alloc::Global;
use std::marker::Model;

/// What lies in a slot: a contract sees it as the list of its bytes. A copy shares the bytes.
#[derive(Debug, Drop)]
pub struct Page {
    bytes: Bytes,
}

impl Model for Page {
    ghost use Rattle.std.specs.Prelude.{List, ℕ};

    ghost Value = { List ℕ };

    ghost view = { λ page. page.bytes };
}

impl Page {
    /// The empty page, as which a slot reads where nothing was written. It takes no memory.
    pub fn empty() -> Page
        ensures { result ≡ [] }
    {
        Page {
            bytes: Bytes::new(),
        }
    }

    /// The page of these bytes, which are not copied. Taking them over may want memory.
    pub fn from_vec(bytes: Vec<u8>) -> Result<Page, NoMemory>
        ensures { IfOk result (λ page. page ≡ bytes.items) }
    {
        let bytes = Bytes::from_vec(bytes)?;
        Ok(Page { bytes })
    }

    /// The page of these bytes, which are shared. It takes no memory.
    pub fn from_bytes(bytes: Bytes) -> Page
        ensures { result ≡ bytes }
    {
        Page { bytes }
    }

    /// A page with these bytes.
    pub fn from_slice(alloc: Global, bytes: &[u8]) -> Result<Page, NoMemory>
        ensures { IfOk result (λ page. page ≡ bytes.now) }
    {
        let bytes = Bytes::copy_from_slice(alloc, bytes)?;
        Ok(Page { bytes })
    }

    /// The bytes.
    pub fn as_slice(&self) -> &[u8]
        ensures { result.now ≡ self.now }
    {
        self.bytes.as_slice()
    }

    /// How many bytes there are.
    pub fn len(&self) -> usize
        ensures { result ≡ length self.now }
    {
        self.bytes.len()
    }

    /// Whether there is no byte.
    pub fn is_empty(&self) -> bool
        ensures { result ≡ (length self.now == 0) }
    {
        self.bytes.is_empty()
    }

    /// An equal page, which shares the bytes, or `NoMemory`.
    pub fn copy(&self) -> Result<Page, NoMemory>
        ensures { IfOk result (λ page. page ≡ self.now) }
    {
        let bytes = self.bytes.clone()?;
        Ok(Page { bytes })
    }
}
