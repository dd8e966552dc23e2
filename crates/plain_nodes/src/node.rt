//! The nodes of a tree.

ghost use Rattle.std.specs.Option.{option_copied};
ghost use Rattle.std.specs.Prelude.{◌≡◌, ◌+◌, ◌^◌, ◌<◌, ◌≤◌, nat_lt, false, Some, OnOk, OnErr, IfOk, length, vec_len};
ghost use Rattle.std.specs.Prelude.{vec_capacity};
ghost use Rattle.fs_rules.specs.Edits.{add_link, add_name, cuts_at, drop_link, drop_name, set_attributes, set_ctime, set_parent};
ghost use Rattle.fs_rules.specs.Edits.{set_size, set_size_if, touch, write_at};
ghost use Rattle.fs_rules.specs.Making.{gain_name, give_size, lacks_cookies, lacks_links};
ghost use Rattle.fs_rules.specs.Names.{named};
ghost use Rattle.fs_rules.specs.Renaming.{renew};
ghost use Rattle.plain_nodes.specs.Counts.{bytes_of};
ghost use Rattle.plain_nodes.specs.Needs.{HasCuts, HasLink};
ghost use Rattle.plain_nodes.specs.Starting.{begun};

use crate::entries::{copy_names, drop_named, entry_named};
use file_content::Content;
use fs_rules::{Inode, NameEntry, RenamePlan};
use nfs3_types::{Fattr, FileType, Moment, NoMemory, Text};
use std::alloc::Global;
use std::marker::Model;

/// A node: a file, a directory or a symbolic link.
#[derive(Drop)]
pub struct Node {
    /// What is kept beside the content and the names.
    pub inode: Inode,
    /// The bytes of a file, or the path that a symbolic link leads to.
    pub content: Content,
    /// What a directory has, by rising cookie.
    pub names: Vec<NameEntry>,
}

impl Model for Node {
    ghost use Rattle.fs_rules.specs.Tree.{Node};

    ghost Value = { Node };

    ghost view = { λ n. record {
      inode = n.inode;
      content = n.content;
      names = n.names.items;
    } };
}

impl Node {
    /// How many bytes it holds, where it is a file.
    pub fn byte_count(&self) -> u64
        ensures { result ≡ bytes_of self.now }
    {
        if self.inode.kind == FileType::Reg {
            self.content.len()
        } else {
            0
        }
    }

    /// The entry of this name in it.
    #[tactic(auto, unfolding(fs_rules::specs::Names::named))]
    pub fn named(&self, name: &[u8]) -> Option<&NameEntry>
        ensures { option_copied result ≡ named name.now self.now.names }
    {
        entry_named(&self.names, name)
    }

    /// Whether it has names.
    pub fn has_names(&self) -> bool
        ensures { result ≡ nat_lt 0 (length self.now.names) }
    {
        !self.names.is_empty()
    }

    // ---- its times and links

    /// It begins at this moment.
    pub fn begin(&mut self, first: Moment)
        ensures { self.new ≡ begun first self.old }
    {
        self.inode.atime = first;
        self.inode.mtime = first;
        self.inode.ctime = first;
    }

    /// The content or the names are others now.
    pub fn touch(&mut self, now: Moment)
        ensures { self.new ≡ touch now self.old }
    {
        self.inode.mtime = now;
        self.inode.ctime = now;
    }

    /// The attributes are others now.
    pub fn set_ctime(&mut self, now: Moment)
        ensures { self.new ≡ set_ctime now self.old }
    {
        self.inode.ctime = now;
    }

    /// It has one link more.
    pub fn add_link(&mut self)
        requires { HasLink self.old.inode }
        ensures { self.new ≡ add_link self.old }
    {
        self.inode.nlink += 1;
    }

    /// It has one link less.
    pub fn drop_link(&mut self)
        ensures { self.new ≡ drop_link self.old }
    {
        self.inode.nlink = self.inode.nlink.saturating_sub(1);
    }

    /// It was moved so.
    pub fn renew(&mut self, plan: &RenamePlan, now: Moment)
        ensures { self.new ≡ renew plan.now now self.old }
    {
        if plan.reparents {
            self.inode.parent = plan.to;
        }
        self.set_ctime(now);
    }

    // ---- its attributes and its content

    /// Sets its mode, its owner and its times to these.
    fn set_attributes(&mut self, a: &Fattr)
        ensures { self.new ≡ set_attributes a.now self.old }
    {
        self.inode.mode = a.mode;
        self.inode.uid = a.uid;
        self.inode.gid = a.gid;
        self.inode.atime = a.atime;
        self.inode.mtime = a.mtime;
        self.inode.ctime = a.ctime;
    }

    /// How often a call made it smaller, once it has this size.
    #[tactic(auto, unfolding(fs_rules::specs::Limits::most_numbers))]
    fn cuts_at(&self, size: u64) -> u64
        requires { HasCuts (Some size) self.now }
        ensures { result ≡ cuts_at size self.now }
    {
        if size < self.content.len() {
            self.inode.cuts + 1
        } else {
            self.inode.cuts
        }
    }

    /// Gives it a size: its content is cut or filled up with zeros. It takes no memory.
    #[tactic(auto, unfolding(fs_rules::specs::Edits::set_size))]
    fn set_size(&mut self, size: u64)
        requires { HasCuts (Some size) self.old }
        ensures { self.new ≡ set_size size self.old }
    {
        self.inode.cuts = self.cuts_at(size);
        self.content.resize(size);
    }

    /// Gives it a size, where one is given. It takes no memory.
    fn set_size_if(&mut self, size: Option<u64>)
        requires { HasCuts size self.old }
        ensures { self.new ≡ set_size_if size self.old }
    {
        if let Some(size) = size {
            self.set_size(size);
        }
    }

    /// Sets its attributes to these, and its size, where one is given. It takes no memory.
    pub fn set(&mut self, a: &Fattr, size: Option<u64>)
        requires { HasCuts size self.old }
        ensures { self.new ≡ set_attributes a.now (set_size_if size self.old) }
    {
        self.set_size_if(size);
        self.set_attributes(a);
    }

    /// A file that is made again gets a size, where one is given. It takes no memory.
    pub fn give_size(&mut self, size: Option<u64>, now: Moment)
        requires { HasCuts size self.old }
        ensures { self.new ≡ give_size size now self.old }
    {
        if let Some(size) = size {
            self.set_size(size);
            self.touch(now);
        }
    }

    /// Writes bytes at an offset; or answers `NoMemory`, and leaves it as it was. No byte changes nothing.
    pub fn write(
        &mut self,
        alloc: Global,
        offset: u64,
        bytes: &[u8],
        now: Moment,
    ) -> Result<(), NoMemory>
        requires { offset + length bytes.now < 2 ^ 64 }
        ensures ok { OnOk result (self.new ≡ write_at offset bytes.now now self.old) }
        ensures err { OnErr result (self.new ≡ self.old) }
    {
        if bytes.is_empty() {
            return Ok(());
        }
        self.content.write(alloc, offset, bytes)?;
        self.touch(now);
        Ok(())
    }

    // ---- its names

    /// It has a further name; or it answers `NoMemory`, and is as it was.
    #[tactic(auto, unfolding(fs_rules::specs::Limits::most_numbers))]
    fn push_name(&mut self, alloc: Global, name: &[u8], fileid: u64) -> Result<(), NoMemory>
        requires { lacks_cookies self.old.inode ≡ false }
        ensures ok { OnOk result (self.new ≡ add_name name.now fileid self.old) }
        ensures err { OnErr result (self.new ≡ self.old) }
    {
        let name = Text::from_slice(alloc, name)?;
        let cookie = self.inode.next_cookie;
        self.names.push(NameEntry {
            cookie,
            name,
            fileid,
        })?;
        self.inode.next_cookie = cookie + 1;
        Ok(())
    }

    /// It has a further name, and was touched; or it answers `NoMemory`, and is as it was.
    pub fn add_name(
        &mut self,
        alloc: Global,
        name: &[u8],
        fileid: u64,
        now: Moment,
    ) -> Result<(), NoMemory>
        requires { lacks_cookies self.old.inode ≡ false }
        ensures ok { OnOk result (self.new ≡ touch now (add_name name.now fileid self.old)) }
        ensures err { OnErr result (self.new ≡ self.old) }
    {
        self.push_name(alloc, name, fileid)?;
        self.touch(now);
        Ok(())
    }

    /// It has a further name, of a new node of this kind; or it answers `NoMemory`, and is as it was.
    #[tactic(auto, unfolding(fs_rules::specs::Limits::most_links))]
    pub fn gain_name(
        &mut self,
        alloc: Global,
        kind: FileType,
        name: &[u8],
        fileid: u64,
        now: Moment,
    ) -> Result<(), NoMemory>
        requires links { lacks_links kind self.old.inode ≡ false }
        requires cookies { lacks_cookies self.old.inode ≡ false }
        ensures ok { OnOk result (self.new ≡ gain_name kind name.now fileid now self.old) }
        ensures err { OnErr result (self.new ≡ self.old) }
    {
        self.push_name(alloc, name, fileid)?;
        if kind == FileType::Dir {
            self.add_link();
        }
        self.touch(now);
        Ok(())
    }

    /// It has a further name, and was touched; its names lie in this room now. It takes no memory.
    #[tactic(auto, unfolding(fs_rules::specs::Limits::most_numbers))]
    pub fn take_name(&mut self, room: Vec<NameEntry>, name: Text, fileid: u64, now: Moment)
        requires empty { vec_len room ≡ 0 }
        requires enough { length self.old.names + 1 ≤ vec_capacity room }
        requires cookies { lacks_cookies self.old.inode ≡ false }
        ensures { self.new ≡ touch now (add_name name fileid self.old) }
    {
        let mut names = room;
        let Ok(()) = names.append(&mut self.names) else {
            return;
        };
        let cookie = self.inode.next_cookie;
        let Ok(()) = names.push(NameEntry {
            cookie,
            name,
            fileid,
        }) else {
            return;
        };
        self.names = names;
        self.inode.next_cookie = cookie + 1;
        self.touch(now);
    }

    /// It has no name that is this one, and was touched.
    pub fn drop_name(&mut self, name: &[u8], now: Moment)
        ensures { self.new ≡ touch now (drop_name name.now self.old) }
    {
        drop_named(&mut self.names, name);
        self.touch(now);
    }

    /// An equal node, or `NoMemory`.
    pub fn copy(&self, alloc: Global) -> Result<Node, NoMemory>
        ensures { IfOk result (λ node. node ≡ self.now) }
    {
        Ok(Node {
            inode: self.inode,
            content: self.content.copy(alloc)?,
            names: copy_names(alloc, &self.names)?,
        })
    }
}
