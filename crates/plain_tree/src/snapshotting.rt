//! MKDIR and RMDIR: in the directory `.snapshot` they take and drop snapshots.

ghost use Rattle.std.specs.Prelude.{◌≡◌, ◌<◌, ◌^◌, ◌-◌, length, IfOk, OnOk, OnErr};
ghost use Rattle.fs_rules.specs.Checks.{Does};
ghost use Rattle.fs_rules.specs.Making.{told_of_new};
ghost use Rattle.fs_rules.specs.Snapshots as table;
ghost use Rattle.fs_rules.specs.declared.place.Place.TheVariants.{Kept, SnapshotDirectory};
ghost use Rattle.plain_tree.specs.Giving.{DoesOwn};

use crate::fault::Fault;
use crate::plain::Plain;
use crate::snapshot::Snapshot;
use crate::snapshots::{drop_snapshots_named, snapshot_named};
use fs_rules::checks::{is_dot, is_dot_dot, is_dots, need, need_good_name, refuse_if};
use fs_rules::limits::{LAST_EPOCH, MOST_SNAPSHOTS};
use fs_rules::{Place, wcc_of};
use nfs3_types::{Body, CreateOk, Cred, DirOp, MkdirArgs, Moment, NoMemory, Status, Text};
use std::alloc::Global;

/// Whether a place is the directory `.snapshot`.
fn is_snapshot_directory(place: Place) -> bool
    ensures { result ≡ table.is_snapshot_directory place }
{
    match place {
        Place::Live(_) => false,
        Place::SnapshotDirectory => true,
        Place::Kept(_, _) => false,
    }
}

impl Plain {
    ghost use Rattle.plain_tree.specs.Trees.{tree_of};

    /// Whether a snapshot has this name.
    #[tactic(auto, unfolding(fs_rules::specs::Places::entry_at, fs_rules::specs::Places::node_at, fs_rules::specs::Names::named, fs_rules::specs::Places::snapshot_directory))]
    fn has_snapshot(&self, name: &[u8]) -> bool
        ensures { result ≡ table.has_snapshot (tree_of self.now) name.now }
    {
        snapshot_named(&self.snapshots, name).is_some()
    }

    // ---- taking one

    /// Whether a snapshot can be taken: user 0 alone takes them.
    #[tactic(auto, unfolding(fs_rules::specs::Snapshots::need_new_snapshot, fs_rules::specs::Limits::most_snapshots, fs_rules::specs::Limits::last_epoch))]
    fn need_new_snapshot(&self, cred: &Cred, name: &[u8]) -> Result<(), Status>
        ensures check { result ≡ table.need_new_snapshot (tree_of self.now) cred.now name.now }
        ensures few { OnOk result (length self.now.snapshots.items < 1024) }
        ensures young { OnOk result (self.now.epoch < 2 ^ 32 - 1) }
    {
        need_good_name(name)?;
        need(cred.uid == 0, Status::Acces)?;
        refuse_if(is_dots(name) || self.has_snapshot(name), Status::Exist)?;
        refuse_if(self.snapshots.len() >= MOST_SNAPSHOTS, Status::NoSpc)?;
        refuse_if(self.epoch >= LAST_EPOCH, Status::NoSpc)
    }

    /// Takes a snapshot, a whole copy of the live tree; or answers `NoMemory`, and leaves the tree as it was.
    #[tactic(auto, unfolding(fs_rules::specs::Snapshots::add_snapshot))]
    fn add_snapshot(&mut self, alloc: Global, name: &[u8], now: Moment) -> Result<(), NoMemory>
        requires few { length self.old.snapshots.items < 1024 }
        requires young { self.old.epoch < 2 ^ 32 - 1 }
        ensures ok { OnOk result (tree_of self.new ≡ table.add_snapshot now name.now (tree_of self.old)) }
        ensures err { OnErr result (tree_of self.new ≡ tree_of self.old) }
    {
        let number = self.epoch;
        let name = Text::from_slice(alloc, name)?;
        let nodes = self.nodes.copy(alloc)?;
        self.snapshots.push(Snapshot {
            name,
            number,
            nodes,
        })?;
        self.epoch = number + 1;
        self.snapshot_times.mtime = now;
        self.snapshot_times.ctime = now;
        Ok(())
    }

    /// Takes a snapshot, and tells of it; or answers `NoMemory`, and leaves the tree as it was.
    #[tactic(auto, unfolding(fs_rules::specs::Snapshots::add_snapshot, fs_rules::specs::Making::told_of_new, fs_rules::specs::Places::handle_at))]
    fn take_and_tell(
        &mut self,
        alloc: Global,
        name: &[u8],
        now: Moment,
    ) -> Result<CreateOk, NoMemory>
        requires few { length self.old.snapshots.items < 1024 }
        requires young { self.old.epoch < 2 ^ 32 - 1 }
        ensures taken { OnOk result (tree_of self.new ≡ table.add_snapshot now name.now (tree_of self.old)) }
        ensures told { IfOk result (λ told. told ≡ told_of_new (tree_of self.old) (tree_of self.new) SnapshotDirectory
            (Kept self.old.epoch 1)) }
        ensures err { OnErr result (tree_of self.new ≡ tree_of self.old) }
    {
        let directory = Place::SnapshotDirectory;
        let object = Place::Kept(self.epoch, 1);
        let before = self.shown(directory);
        let handle = self.handle_at(alloc, object)?;
        self.add_snapshot(alloc, name, now)?;
        Ok(CreateOk {
            object: Some(handle),
            attributes: self.shown(object),
            directory: wcc_of(before, self.shown(directory)),
        })
    }

    /// MKDIR in `.snapshot` takes a snapshot.
    #[tactic(auto, unfolding(fs_rules::specs::Snapshots::take_snapshot))]
    fn take_snapshot(
        &mut self,
        alloc: Global,
        cred: &Cred,
        name: &[u8],
        now: Moment,
    ) -> Result<Body, Fault>
        ensures { DoesOwn (table.take_snapshot (tree_of self.old) cred.now name.now now) (tree_of self.old) (tree_of self.new)
            result }
    {
        self.need_new_snapshot(cred, name)?;
        let told = self.take_and_tell(alloc, name, now)?;
        Ok(Body::Mkdir(told))
    }

    // ---- dropping one

    /// Whether a snapshot can be dropped: user 0 alone drops them.
    #[tactic(auto, unfolding(fs_rules::specs::Snapshots::need_snapshot))]
    fn need_snapshot(&self, cred: &Cred, name: &[u8]) -> Result<(), Status>
        ensures { result ≡ table.need_snapshot (tree_of self.now) cred.now name.now }
    {
        need_good_name(name)?;
        refuse_if(is_dot(name), Status::Inval)?;
        refuse_if(is_dot_dot(name), Status::Exist)?;
        need(cred.uid == 0, Status::Acces)?;
        need(self.has_snapshot(name), Status::NoEnt)
    }

    /// The snapshots of this name go.
    #[tactic(auto, unfolding(fs_rules::specs::Snapshots::drop_named))]
    fn drop_named(&mut self, name: &[u8], now: Moment)
        ensures { tree_of self.new ≡ table.drop_named now name.now (tree_of self.old) }
    {
        drop_snapshots_named(&mut self.snapshots, name);
        self.snapshot_times.mtime = now;
        self.snapshot_times.ctime = now;
    }

    /// RMDIR in `.snapshot` drops a snapshot. It takes no memory.
    #[tactic(auto, unfolding(fs_rules::specs::Snapshots::drop_snapshot))]
    fn drop_snapshot(&mut self, cred: &Cred, name: &[u8], now: Moment) -> Result<Body, Status>
        ensures { Does (table.drop_snapshot (tree_of self.old) cred.now name.now now) (tree_of self.old) (tree_of self.new)
            result }
    {
        self.need_snapshot(cred, name)?;
        let place = Place::SnapshotDirectory;
        let before = self.shown(place);
        self.drop_named(name, now);
        Ok(Body::Rmdir(wcc_of(before, self.shown(place))))
    }

    // ---- the two procedures

    /// MKDIR: in `.snapshot` it takes a snapshot.
    #[tactic(auto, unfolding(fs_rules::specs::Snapshots::mkdir))]
    pub(crate) fn mkdir(
        &mut self,
        alloc: Global,
        cred: &Cred,
        a: &MkdirArgs<Text>,
        now: Moment,
        lane: usize,
    ) -> Result<Body, Fault>
        requires { lane < 16 }
        ensures { DoesOwn (table.mkdir (tree_of self.old) cred.now a.now now lane) (tree_of self.old) (tree_of self.new) result }
    {
        let o = self.find_object(a.place.directory.as_slice())?;
        if is_snapshot_directory(o.place) {
            self.take_snapshot(alloc, cred, a.place.name.as_slice(), now)
        } else {
            self.make_directory(alloc, cred, a, now, lane, &o)
        }
    }

    /// RMDIR: in `.snapshot` it drops a snapshot. It takes no memory.
    #[tactic(auto, unfolding(fs_rules::specs::Snapshots::rmdir))]
    pub(crate) fn rmdir(
        &mut self,
        cred: &Cred,
        a: &DirOp<Text>,
        now: Moment,
    ) -> Result<Body, Status>
        ensures { Does (table.rmdir (tree_of self.old) cred.now a.now now) (tree_of self.old) (tree_of self.new) result }
    {
        let o = self.find_object(a.directory.as_slice())?;
        if is_snapshot_directory(o.place) {
            self.drop_snapshot(cred, a.name.as_slice(), now)
        } else {
            self.remove_directory(cred, a.name.as_slice(), now, &o)
        }
    }
}
