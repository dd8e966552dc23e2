//! Answering a call.

ghost use Rattle.std.specs.Prelude.{◌≡◌, ◌<◌, IsTrue};
ghost use Rattle.nfs3_types.specs.declared.body.Body.{Body as AnyBody};
ghost use Rattle.fs_rules.specs.Answers.{only_reads, row};
ghost use Rattle.fs_rules.specs.Checks.{Check, Does, Row, told};
ghost use Rattle.fs_rules.specs.Tree.{Tree};
ghost use Rattle.plain_tree.specs.Giving.{Answers, DoesOwn, GivesOwn};

use crate::fault::Fault;
use crate::plain::Plain;
use nfs3_types::{Body, CallOver, Cred, Moment, NoMemory, OwnCall, Reply, Status};
use std::alloc::Global;

/// What a call that changes nothing does, by what its checks gave.
fn tells(given: Result<Body, Status>) -> Result<Body, Fault>
    ensures { (t : Tree) (check : Check AnyBody) → given ≡ check → DoesOwn (told t check) t t result }
{
    Ok(given?)
}

/// The same, unless memory ran out.
fn tells_unless(given: Result<Body, Fault>) -> Result<Body, Fault>
    ensures { (t : Tree) (check : Check AnyBody) → GivesOwn check given → DoesOwn (told t check) t t result }
{
    given
}

/// What a call does that takes no memory.
fn does(given: Result<Body, Status>) -> Result<Body, Fault>
    ensures { (row : Row) (old new : Tree) → Does row old new given → DoesOwn row old new result }
{
    Ok(given?)
}

impl Plain {
    ghost use Rattle.plain_tree.specs.Trees.{tree_of};

    /// What a call does that only reads.
    #[tactic(auto, unfolding(fs_rules::specs::Answers::row))]
    fn read_by(
        &self,
        alloc: Global,
        cred: &Cred,
        call: &OwnCall,
        moment: Moment,
        lane: u32,
    ) -> Result<Body, Fault>
        requires reads { IsTrue (only_reads call.now) }
        ensures { DoesOwn (row (tree_of self.now) (record { cred = cred.now; call = call.now; now = moment; lane = lane }))
            (tree_of self.now) (tree_of self.now) result }
    {
        match call {
            CallOver::GetAttr(a) => tells(self.get_attr(a)),
            CallOver::Lookup(a) => tells_unless(self.lookup(alloc, cred, a)),
            CallOver::Access(a) => tells(self.access(cred, a)),
            CallOver::ReadLink(a) => tells_unless(self.read_link(alloc, a)),
            CallOver::Read(a) => tells_unless(self.read(alloc, cred, a)),
            CallOver::ReadDir(a) => tells_unless(self.read_dir(alloc, cred, a)),
            CallOver::ReadDirPlus(a) => tells_unless(self.read_dir_plus(alloc, cred, a)),
            CallOver::FsStat(a) => tells(self.fs_stat(a)),
            CallOver::FsInfo(a) => tells(self.fs_info(a)),
            CallOver::PathConf(a) => tells(self.path_conf(a)),
            CallOver::Commit(a) => tells(self.commit(a)),
            _ => unreachable!(),
        }
    }

    /// What a call does: its row of the answer table.
    #[tactic(auto, unfolding(fs_rules::specs::Answers::row))]
    fn act(
        &mut self,
        alloc: Global,
        cred: &Cred,
        call: &OwnCall,
        moment: Moment,
        lane: u32,
    ) -> Result<Body, Fault>
        requires { lane < 16 }
        ensures { DoesOwn (row (tree_of self.old) (record { cred = cred.now; call = call.now; now = moment; lane = lane }))
            (tree_of self.old) (tree_of self.new) result }
    {
        match call {
            CallOver::Null => Ok(Body::Null),
            CallOver::SetAttr(a) => does(self.set_attr(cred, a, moment)),
            CallOver::Write(a) => self.write(alloc, cred, a, moment),
            CallOver::Create(a) => self.create(alloc, cred, a, moment, lane as usize),
            CallOver::Mkdir(a) => self.mkdir(alloc, cred, a, moment, lane as usize),
            CallOver::Symlink(a) => self.symlink(alloc, cred, a, moment, lane as usize),
            CallOver::Mknod(_) => Err(Fault::Refused(Status::NotSupp)),
            CallOver::Remove(a) => does(self.remove(cred, a, moment)),
            CallOver::Rmdir(a) => does(self.rmdir(cred, a, moment)),
            CallOver::Rename(a) => self.rename(alloc, cred, a, moment),
            CallOver::Link(a) => self.link(alloc, cred, a, moment),
            _ => self.read_by(alloc, cred, call, moment, lane),
        }
    }

    /// Answers a call of this caller, at this moment, in a lane below 16, as the answer table has it, and leaves the
    /// tree that the table has after it. At `NoMemory` the tree is as it was.
    pub fn answer(
        &mut self,
        alloc: Global,
        cred: &Cred,
        call: &OwnCall,
        moment: Moment,
        lane: u32,
    ) -> Result<Reply, NoMemory>
        requires { lane < 16 }
        ensures { Answers (record { cred = cred.now; call = call.now; now = moment; lane = lane }) (tree_of self.old)
            (tree_of self.new) result }
    {
        let procedure = call.procedure();
        match self.act(alloc, cred, call, moment, lane) {
            Ok(body) => Ok(Reply {
                procedure,
                status: Status::Ok,
                body,
            }),
            Err(Fault::Refused(status)) => Ok(Reply {
                procedure,
                status,
                body: Body::Nothing,
            }),
            Err(Fault::NoMemory) => Err(NoMemory),
        }
    }
}
