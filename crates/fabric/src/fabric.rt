//! The fabric.

ghost use Rattle.std.specs.Prelude.{◌≡◌, ◌==◌, ℕ, ◌+◌, ◌<◌, ◌≤◌, ◌^◌, [], None, length, reverse, slice_get, Some, if◌then◌else◌};
ghost use Rattle.std.specs.Prelude.{◌⊎◌, IfOk, IfErr, OnOk, Err};
ghost use Rattle.page_types.specs.Journals.{own};
ghost use Rattle.page_types.specs.Stores.{first_state};
ghost use Rattle.serial_rules.specs.Worlds.{first_page, replay, pending};
ghost use Rattle.store_group.specs.Shown.{behind, settling_of, first_of_store};
ghost use Rattle.fabric.specs.Settled.{settled, steps};
ghost use Rattle.fabric.specs.Stepping.{IsShape};
ghost use Rattle.fabric.specs.Keeping.{AreFirst, IsFirst};

use crate::book::Book;
use crate::fault::FabricFault;
use crate::shape::is_shape;
use crate::taking::take_step;
use nfs3_types::NoMemory;
use outside::Weather;
use page_store::Store;
use page_types::{Answer, Command, JEntry, Journaled, Meaning};
use pair_types::{Page, StepFault};
use std::alloc::Global;
use std::marker::{Model, PhantomData};
use store_group::StoreGroup;

/// Where a fabric took so many steps, it takes no more.
const MOST_STEPS: u64 = 1 << 62;

/// All stores of a shape, and the journal of what they did. A contract sees what they began with, the journal, how many
/// steps answered a doubt, and the weather.
#[derive(Drop)]
pub struct Fabric<M: Meaning, W: Weather + Drop> {
    alloc: Global,
    stores: u32,
    replicas: u32,
    first: Page,
    groups: Vec<StoreGroup>,
    book: Book,
    weather: W,
    of: PhantomData<M>,
}

impl<M: Meaning, W: Weather + Drop> Model for Fabric<M, W> {
    ghost use Rattle.fabric.specs.Shown.{Shown};

    ghost Value = { Shown W };

    ghost use Rattle.fabric.specs.Keeping.{IsFabric, shown_of};

    ghost view = { λ a. shown_of a.stores a.first a.replicas a.book a.weather };

    ghost invariant = { λ a. IsFabric (M.stands (record { stores = a.stores; first = a.first })) M.next W.told
        (shown_of a.stores a.first a.replicas a.book a.weather) a.groups.items a.book.steps };
}

/// The page that a store begins with: store 0 has the first page.
fn page_of(store: u32, first: &Page) -> Result<Option<Page>, NoMemory>
    ensures { IfOk result (λ page. page ≡ (if store == 0 then Some first.now else None)) }
{
    if store == 0 {
        return Ok(Some(first.copy()?));
    }
    Ok(None)
}

/// The store group of a store.
fn first_group(
    alloc: Global,
    store: u32,
    replicas: u32,
    first: &Page,
) -> Result<StoreGroup, NoMemory>
    requires { (replicas ≡ 3) ⊎ (replicas ≡ 5) }
    ensures { IfOk result (IsFirst first.now replicas store) }
{
    let page = page_of(store, first)?;
    let group = StoreGroup::new(alloc, store, replicas, page)?;
    Ok(group)
}

/// The store groups of a shape.
fn groups_of(
    alloc: Global,
    stores: u32,
    replicas: u32,
    first: &Page,
) -> Result<Vec<StoreGroup>, NoMemory>
    requires { IsShape stores replicas }
    ensures { IfOk result (λ groups. AreFirst first.now replicas stores groups.items) }
{
    let mut groups = Vec::new(alloc);
    for store in 0..stores {
        let group = first_group(alloc, store, replicas, first)?;
        groups.push(group)?;
    }
    Ok(groups)
}

impl<M: Meaning, W: Weather + Drop> Fabric<M, W> {
    ghost use Rattle.fabric.specs.Shown.{past, store_of};
    ghost use Rattle.fabric.specs.Settled.{doubts_in};
    ghost use Rattle.fabric.specs.Stepping.{AreHeard, AreMarred, StepsAs, Worsens};
    ghost use Rattle.outside.specs.Weather.{bad_fates};
    ghost use Rattle.page_types.specs.Obeys.{after_all};
    ghost use Rattle.page_types.specs.Ports.{IsAnswer};
    ghost use Rattle.page_types.specs.Fair.{IsFair};
    ghost use Rattle.page_store.specs.Shown.{state_of};
    ghost use Rattle.paxos_group.specs.Steps.{Endures};
    ghost use Rattle.serial_rules.specs.Lawful.{IsLawful};

    /// Stores of a shape, of which store 0 has the first page in slot 0. Nothing was done yet.
    pub fn new(
        alloc: Global,
        stores: u32,
        replicas: u32,
        first: Page,
        weather: W,
    ) -> Result<Fabric<M, W>, FabricFault>
        ensures made { IfOk result (λ fabric. fabric ≡ record {
          origin = record { stores = stores; first = first };
          replicas = replicas;
          journal = [];
          doubts = 0;
          weather = weather;
        }) }
        ensures shape { OnOk result (IsShape stores replicas) }
        ensures bad { IfErr result (λ fault. fault ≡ FabricFault.BadShape → ¬ IsShape stores replicas) }
        ensures memory { IfErr result (λ fault. fault ≡ FabricFault.NoMemory → IsShape stores replicas) }
    {
        if !is_shape(stores, replicas) {
            return Err(FabricFault::BadShape);
        }
        let groups = groups_of(alloc, stores, replicas, &first)?;
        Ok(Fabric {
            alloc,
            stores,
            replicas,
            first,
            groups,
            book: Book::new(alloc),
            weather,
            of: PhantomData,
        })
    }

    /// One step of a command of a pass at a store. Where memory lacks before the first message, all stays. After 2^62
    /// steps it is stopped.
    pub fn step(&mut self, pass: u32, store: u32, command: &Command) -> Result<Answer, StepFault>
        requires store { store < self.old.origin.stores }
        requires fair { IsFair (M.stands self.old.origin) M.next self.old.origin.stores (own pass (past self.old))
            pass store command.now }

        // What it does.
        ensures step { StepsAs W.told self.old self.new
            (record { pass = pass; store = store; command = command.now }) result }
        ensures answer { IfOk result (IsAnswer self.old.origin.stores command.now) }
        ensures doubts { self.new.doubts ≡ self.old.doubts + doubts_in result }
        ensures origin { self.new.origin ≡ self.old.origin }
        ensures replicas { self.new.replicas ≡ self.old.replicas }

        // When it ends so.
        ensures heard { OnOk result (AreHeard W.told self.old.replicas self.old.weather store) }
        ensures worsens { IfErr result (λ fault. fault ≡ StepFault.Doubt →
            Worsens W.told self.old.replicas self.old.weather self.new.weather store) }
        ensures full { steps (past self.old) ≡ 2 ^ 62 → result ≡ Err StepFault.Stopped }
        ensures stopped { IfErr result (λ fault. fault ≡ StepFault.Stopped →
            (steps (past self.old) ≡ 2 ^ 62) × (self.new ≡ self.old)) }
        ensures endures { Endures W.told self.old.weather self.new.weather }
    {
        if self.book.steps >= MOST_STEPS {
            return Err(StepFault::Stopped);
        }
        let group = &mut self.groups[store as usize];
        take_step(
            self.alloc,
            group,
            &mut self.book,
            &mut self.weather,
            pass,
            store,
            command,
        )
    }

    /// The journal, the oldest entry first.
    pub fn journal(&self) -> &[JEntry]
        ensures journal { result.now ≡ self.now.journal }
        ensures lawful { IsLawful (M.stands self.now.origin) M.next self.now.origin (past self.now) }
        ensures heard { (store : ℕ) → 1 ≤ length (settled (past self.now) store) →
            AreHeard W.told self.now.replicas self.now.weather store }
        ensures most { steps (past self.now) ≤ 2 ^ 62 }
    {
        serial_core::fair_is_lawful::<M>();
        &self.book.entries
    }

    /// How many stores there are.
    pub fn stores(&self) -> u32
        ensures stores { result ≡ self.now.origin.stores }
        ensures some { 1 ≤ result }
    {
        self.stores
    }

    /// How many steps answered a doubt.
    pub fn doubts(&self) -> u64
        ensures doubts { result ≡ self.now.doubts }
        ensures most { result ≤ steps (past self.now) }

        // Each took a bad fate at least, and one of them those of a majority of one store's replicas.
        ensures few { result ≤ bad_fates (W.told.bad self.now.weather) }
        ensures marred { 1 ≤ result → AreMarred W.told self.now.origin.stores self.now.replicas self.now.weather }
    {
        self.book.doubts
    }

    /// A store: it obeyed what was settled at it, and nothing else.
    pub fn store(&self, store: u32) -> &Store
        requires { store < self.now.origin.stores }
        ensures state { state_of result.now ≡ replay self.now.origin (past self.now) store }
        ensures folded { state_of result.now
            ≡ after_all (first_state (first_page self.now.origin store)) (reverse (settled (past self.now) store)) }
    {
        self.group(store).store()
    }

    /// A store behind its replicas.
    pub fn group(&self, store: u32) -> &StoreGroup
        requires { store < self.now.origin.stores }
        ensures behind { behind result.now ≡ store_of self.now store }
        ensures store { (settling_of result.now).store ≡ store }
        ensures replicas { (settling_of result.now).replicas ≡ self.now.replicas }
        ensures log { (settling_of result.now).log ≡ reverse (settled (past self.now) store) }
        ensures first { first_of_store result.now ≡ first_page self.now.origin store }
    {
        &self.groups[store as usize]
    }
}

impl<M: Meaning, W: Weather + Drop> Journaled for Fabric<M, W> {
    ghost use Rattle.fabric.specs.Shown.{past};

    ghost journal = { λ fabric. past fabric };

    ghost origin = { λ fabric. fabric.origin };
}
