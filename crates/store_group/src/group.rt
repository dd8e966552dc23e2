//! The store group.

ghost use Rattle.std.specs.Prelude.{◌≡◌, ◌⊎◌, length, IfOk};
ghost use Rattle.store_group.specs.Behind.{step_fault};
ghost use Rattle.page_types.specs.Stores.{first_state};
ghost use Rattle.page_types.specs.Obeys.{after_all};
ghost use Rattle.page_store.specs.Shown.{state_of, obeyed_of, AreFormed};
ghost use Rattle.store_group.specs.Props.{AreFormed-prop};

use crate::adopting::{adopt_both, adopt_late};
use crate::ready::{Ready, copy_of};
use nfs3_types::NoMemory;
use outside::Weather;
use page_store::Store;
use page_types::{Answer, Command};
use pair_types::{Page, StepFault};
use paxos_group::{Group, GroupFault};
use std::alloc::Global;

/// A store whose commands a group of replicas settles. It obeyed the settled ones.
#[derive(Drop)]
pub struct StoreGroup {
    /// The page that it began with.
    first: Option<Page>,
    store: Store,
    group: Group<Command>,
    ghost folded: { state_of store ≡ after_all (first_state first) group.log },
    ghost counted: { obeyed_of store ≡ length group.log },
    ghost formed: { AreFormed group.pending } by { AreFormed-prop group.pending },
}

/// What a step did.
#[derive(Debug, Drop)]
pub struct Stepped {
    /// The command that was pending, and its answer, where it is settled now.
    pub late: Option<(Command, Answer)>,
    /// Whether the group stands as after a doubt: a command is pending.
    pub doubted: bool,
    /// What the step's own command is answered.
    pub own: Result<Answer, StepFault>,
}

fn fault_of(fault: GroupFault) -> StepFault
    ensures { result ≡ step_fault fault }
{
    match fault {
        GroupFault::Doubt => StepFault::Doubt,
        GroupFault::NoMemory => StepFault::NoMemory,
    }
}

fn copy_page(page: &Option<Page>) -> Result<Option<Page>, NoMemory>
    ensures { IfOk result (λ copy. copy ≡ page.now) }
{
    match page {
        Some(page) => Ok(Some(page.copy()?)),
        None => Ok(None),
    }
}

impl StoreGroup {
    ghost use Rattle.std.specs.Prelude.{◌≢◌, ◌+◌, ◌<◌, ◌≤◌, ◌^◌, ◌++◌, [], None, true, false, IfErr, OnErr, IsTrue, is_some};
    ghost use Rattle.pair_types.specs.declared.fault.StepFault.{StepFault};
    ghost use Rattle.page_types.specs.Obeys.{IsFormed};
    ghost use Rattle.paxos_group.specs.Moments.{Attempts, IsHeard, moment};
    ghost use Rattle.store_group.specs.Behind.{Left, settled_by};
    ghost use Rattle.store_group.specs.Readies.{IsReadyFor};
    ghost use Rattle.store_group.specs.Shown.{behind, settling_of, first_of_store, end_of, IsReady};

    /// A store that obeyed nothing, of three or five replicas. Where there is a first page, it lies in slot 0.
    pub fn new(
        alloc: Global,
        store: u32,
        replicas: u32,
        first: Option<Page>,
    ) -> Result<StoreGroup, NoMemory>
        requires { (replicas ≡ 3) ⊎ (replicas ≡ 5) }
        ensures behind { IfOk result (λ g. behind g ≡ record { state = first_state first; pending = None }) }
        ensures settling { IfOk result (λ g. settling_of g ≡ record {
          store = store;
          replicas = replicas;
          accepted = [];
          log = [];
          pending = None;
          round = 1;
          held = 0;
        }) }
        ensures first { IfOk result (λ g. first_of_store g ≡ first) }
    {
        let page = copy_page(&first)?;
        Ok(StoreGroup {
            first,
            store: Store::new(alloc, page)?,
            group: Group::new(alloc, store, replicas)?,
        })
    }

    /// Takes the memory that the store needs for its pending command and then this one. All stays.
    pub fn ready(&mut self, alloc: Global, command: &Command) -> Result<Ready, NoMemory>
        requires next { length (settling_of self.old).log < 2 ^ 63 }
        requires formed { IsFormed command.now }
        ensures ready { IfOk result (IsReady self.new command.now) }
        ensures tells { IfOk result (IsReadyFor (behind self.old) command.now) }
        ensures same { behind self.new ≡ behind self.old }
        ensures settling { settling_of self.new ≡ settling_of self.old }
        ensures first { first_of_store self.new ≡ first_of_store self.old }
    {
        let late = copy_of(alloc, self.group.pending())?;
        let plan = self.store.plan(alloc, late.as_ref(), command)?;
        Ok(Ready { late, plan })
    }

    /// One step of a command: the pending one, where there is one, is settled first. What was made ready for the
    /// command in this state is used up.
    pub fn step<W: Weather>(
        &mut self,
        alloc: Global,
        command: &Command,
        ready: Ready,
        weather: &mut W,
    ) -> Stepped
        requires ready { IsReady self.old command.now ready }
        requires formed { IsFormed command.now }
        requires round { (settling_of self.old).round < 2 ^ 63 }
        requires next { length (settling_of self.old).log < 2 ^ 63 }

        // What it leaves.
        ensures left { Left result.own result.doubted (behind self.old) (behind self.new) command.now result.late }
        ensures untouched { OnErr result.own (result.doubted ≡ false → (settling_of self.new ≡ settling_of self.old)
            × (weather.new ≡ weather.old)) }
        ensures first { first_of_store self.new ≡ first_of_store self.old }
        ensures round { (settling_of self.new).round ≤ (settling_of self.old).round + 2 }
        ensures log { (settling_of self.new).log ≡ (settling_of self.old).log ++ settled_by result.late result.own command.now }

        // When it ends so.
        ensures attempts { Attempts W.told 8 (moment (settling_of self.old) weather.old)
            (moment (settling_of self.new) weather.new) (end_of result.own) }
        ensures doubt_is_doubted { IfErr result.own (λ fault. fault ≡ StepFault.Doubt → result.doubted ≡ true) }
        ensures never_stopped { IfErr result.own (λ fault. fault ≢ StepFault.Stopped) }
        ensures late_heard { IsTrue (is_some result.late) → IsHeard W.told (moment (settling_of self.old) weather.old) }
    {
        let Ready { late, plan } = ready;
        let appended = self.group.append(alloc, command, weather);
        match appended.own {
            Ok(()) => {
                let settled = adopt_both(&mut self.store, late, plan);
                Stepped {
                    late: settled.late,
                    doubted: appended.doubted,
                    own: Ok(settled.own),
                }
            }
            Err(fault) => Stepped {
                late: adopt_late(&mut self.store, late, plan, appended.late),
                doubted: appended.doubted,
                own: Err(fault_of(fault)),
            },
        }
    }

    /// The store, which obeyed the settled commands.
    pub fn store(&self) -> &Store
        ensures state { state_of result.now ≡ (behind self.now).state }
        ensures folded { state_of result.now ≡ after_all (first_state (first_of_store self.now)) (settling_of self.now).log }
        ensures counted { obeyed_of result.now ≡ length (settling_of self.now).log }
    {
        &self.store
    }

    /// The group.
    pub fn group(&self) -> &Group<Command>
        ensures { result.now ≡ settling_of self.now }
    {
        &self.group
    }
}
