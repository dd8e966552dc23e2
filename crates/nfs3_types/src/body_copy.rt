//! Copies of the bodies of results.

ghost use Rattle.std.specs.Prelude.{◌≡◌, IfOk};

use crate::body::{
    AccessOk, Body, CommitOk, CreateOk, DirEntry, DirEntryPlus, FsInfoOk, FsStatOk, LinkOk,
    LookupOk, PathConfOk, ReadDirOk, ReadDirPlusOk, ReadLinkOk, ReadOk, RenameOk, WriteOk,
};
use crate::copies::Copies;
use crate::memory::NoMemory;
use crate::text::Text;
use std::alloc::Global;

fn copy_handle(alloc: Global, handle: &Option<Text>) -> Result<Option<Text>, NoMemory>
    ensures { IfOk result (λ copy. copy ≡ handle.now) }
{
    match handle {
        Some(handle) => Ok(Some(handle.copy(alloc)?)),
        None => Ok(None),
    }
}

impl LookupOk {
    fn copy(&self, alloc: Global) -> Result<LookupOk, NoMemory>
        ensures { IfOk result (λ copy. copy ≡ self.now) }
    {
        Ok(LookupOk {
            object: self.object.copy(alloc)?,
            attributes: self.attributes,
            directory: self.directory,
        })
    }
}

impl ReadLinkOk {
    fn copy(&self, alloc: Global) -> Result<ReadLinkOk, NoMemory>
        ensures { IfOk result (λ copy. copy ≡ self.now) }
    {
        Ok(ReadLinkOk {
            attributes: self.attributes,
            target: self.target.copy(alloc)?,
        })
    }
}

impl ReadOk {
    fn copy(&self, alloc: Global) -> Result<ReadOk, NoMemory>
        ensures { IfOk result (λ copy. copy ≡ self.now) }
    {
        Ok(ReadOk {
            attributes: self.attributes,
            count: self.count,
            eof: self.eof,
            data: self.data.copy(alloc)?,
        })
    }
}

impl CreateOk {
    fn copy(&self, alloc: Global) -> Result<CreateOk, NoMemory>
        ensures { IfOk result (λ copy. copy ≡ self.now) }
    {
        Ok(CreateOk {
            object: copy_handle(alloc, &self.object)?,
            attributes: self.attributes,
            directory: self.directory,
        })
    }
}

impl Copies for DirEntry {
    fn copy(&self, alloc: Global) -> Result<DirEntry, NoMemory> {
        Ok(DirEntry {
            fileid: self.fileid,
            name: self.name.copy(alloc)?,
            cookie: self.cookie,
        })
    }
}

impl ReadDirOk {
    fn copy(&self, alloc: Global) -> Result<ReadDirOk, NoMemory>
        ensures { IfOk result (λ copy. copy ≡ self.now) }
    {
        Ok(ReadDirOk {
            attributes: self.attributes,
            verifier: self.verifier,
            entries: self.entries.copy(alloc)?,
            eof: self.eof,
        })
    }
}

impl Copies for DirEntryPlus {
    fn copy(&self, alloc: Global) -> Result<DirEntryPlus, NoMemory> {
        Ok(DirEntryPlus {
            fileid: self.fileid,
            name: self.name.copy(alloc)?,
            cookie: self.cookie,
            attributes: self.attributes,
            object: copy_handle(alloc, &self.object)?,
        })
    }
}

impl ReadDirPlusOk {
    fn copy(&self, alloc: Global) -> Result<ReadDirPlusOk, NoMemory>
        ensures { IfOk result (λ copy. copy ≡ self.now) }
    {
        Ok(ReadDirPlusOk {
            attributes: self.attributes,
            verifier: self.verifier,
            entries: self.entries.copy(alloc)?,
            eof: self.eof,
        })
    }
}

impl Body {
    /// An equal body, or `NoMemory`.
    pub fn copy(&self, alloc: Global) -> Result<Body, NoMemory>
        ensures { IfOk result (λ body. body ≡ self.now) }
    {
        Ok(match self {
            Body::Null => Body::Null,
            Body::GetAttr(ok) => Body::GetAttr(*ok),
            Body::SetAttr(ok) => Body::SetAttr(*ok),
            Body::Lookup(ok) => Body::Lookup(ok.copy(alloc)?),
            Body::Access(ok) => Body::Access(*ok),
            Body::ReadLink(ok) => Body::ReadLink(ok.copy(alloc)?),
            Body::Read(ok) => Body::Read(ok.copy(alloc)?),
            Body::Write(ok) => Body::Write(*ok),
            Body::Create(ok) => Body::Create(ok.copy(alloc)?),
            Body::Mkdir(ok) => Body::Mkdir(ok.copy(alloc)?),
            Body::Symlink(ok) => Body::Symlink(ok.copy(alloc)?),
            Body::Remove(ok) => Body::Remove(*ok),
            Body::Rmdir(ok) => Body::Rmdir(*ok),
            Body::Rename(ok) => Body::Rename(*ok),
            Body::Link(ok) => Body::Link(*ok),
            Body::ReadDir(ok) => Body::ReadDir(ok.copy(alloc)?),
            Body::ReadDirPlus(ok) => Body::ReadDirPlus(ok.copy(alloc)?),
            Body::FsStat(ok) => Body::FsStat(*ok),
            Body::FsInfo(ok) => Body::FsInfo(*ok),
            Body::PathConf(ok) => Body::PathConf(*ok),
            Body::Commit(ok) => Body::Commit(*ok),
            Body::Nothing => Body::Nothing,
        })
    }
}
