//! Drawn commands of four passes, at the stores of a shape, beside plain models.

ghost use Rattle.std.specs.Prelude.{◌<◌, ◌≤◌, ◌⊎◌, ◌≡◌};
ghost use Rattle.page_types.specs.Obeys.{IsFormed};

use crate::asked::{Asked, Kind, Written, command_of};
use crate::draws::Draws;
use crate::model::{Model, PAGES};
use crate::told::{kind_of, told_of};
use anyhow::{Result, bail, ensure};
use outside::Weather;
use page_types::{Answer, Command, PageRead};
use pair_types::{Page, StepFault, Tid};
use std::alloc::Global;
use store_group::{Stepped, StoreGroup};
use workload::RoughWeather;

/// How long a log may be here.
const MOST: u64 = 1 << 40;

/// A store behind its replicas, the model of it, and the command that is pending at it.
#[derive(Drop)]
struct Pair {
    group: StoreGroup,
    model: Model,
    pending: Option<Asked>,
}

/// Which kinds of answers came, how many commands were in doubt, and how many were settled late.
#[derive(Drop)]
struct Seen {
    kinds: [bool; 11],
    doubts: u64,
    late: u64,
}

/// One step of a command at a store group.
pub fn step<W: Weather>(
    alloc: Global,
    group: &mut StoreGroup,
    command: &Command,
    weather: &mut W,
) -> Result<Stepped>
    requires { IsFormed command.now }
{
    ensure!(group.group().round() < MOST, "too many rounds");
    ensure!((group.group().log().len() as u64) < MOST, "too long a log");
    let ready = group.ready(alloc, command)?;
    Ok(group.step(alloc, command, ready, weather))
}

/// One step of what is asked at a store group.
pub fn asked_at<W: Weather>(
    alloc: Global,
    group: &mut StoreGroup,
    asked: &Asked,
    weather: &mut W,
) -> Result<Stepped>
    requires { asked.now.first.number < asked.now.second.number }
{
    let command = command_of(alloc, asked)?;
    step(alloc, group, &command, weather)
}

fn kind_at(draw: u64) -> Kind {
    match draw {
        0 => Kind::Fresh,
        1 | 2 => Kind::Read,
        3 => Kind::Look,
        4..=7 => Kind::Write,
        8..=11 => Kind::Prepare,
        12 | 13 => Kind::Decide,
        _ => Kind::Resolve,
    }
}

fn written_at(draw: u64) -> Written {
    match draw {
        0 => Written::Neither,
        1 => Written::First,
        _ => Written::Second,
    }
}

/// A read of a page, mostly at the version that it has.
fn read_of(draws: &mut Draws, model: &Model, number: u64) -> PageRead
    ensures { result.number ≡ number }
{
    let mut version = model.version(number);
    if draws.once_in(8) {
        version ^= 1;
    }
    PageRead { number, version }
}

/// A command that is drawn: the pages and the transactions move on as the run does.
fn drawn(draws: &mut Draws, model: &Model, turn: u32, stores: u32) -> Asked
    requires { 0 < stores }
    ensures { result.first.number < result.second.number }
{
    let window = u64::from(turn / 256);
    let number = (window * 3 + draws.below(6)) % (PAGES - 4);
    let second = number + 1 + draws.below(3);
    let tid = Tid {
        pass: 1 + draws.below(4) as u32,
        serial: window * 8 + 1 + draws.below(8),
    };
    Asked {
        kind: kind_at(draws.below(16)),
        tid,
        first: read_of(draws, model, number),
        second: read_of(draws, model, second),
        written: written_at(draws.below(3)),
        byte: draws.below(256) as u8,
        home: draws.below(u64::from(stores)) as u32,
        other: draws.below(u64::from(stores)) as u32,
        commit: draws.once_in(2),
    }
}

impl Seen {
    fn note(&mut self, kind: usize) {
        if let Some(seen) = self.kinds.get_mut(kind) {
            *seen = true;
        }
    }

    fn kinds(&self) -> usize {
        self.kinds.iter().filter(|seen| **seen).count()
    }
}

impl Pair {
    /// Whether the answer is the model's.
    fn is_equal(&mut self, asked: &Asked, answer: &Answer, seen: &mut Seen) -> Result<bool> {
        let told = told_of(answer);
        seen.note(kind_of(told));
        Ok(self.model.obey(asked)? == told)
    }

    /// Whether what is settled late is what was pending, and is answered as the model answers it.
    fn is_late_equal(&mut self, stepped: &Stepped, seen: &mut Seen) -> Result<bool> {
        let Some((_, answer)) = &stepped.late else {
            return Ok(true);
        };
        let Some(asked) = self.pending else {
            return Ok(false);
        };
        self.pending = None;
        seen.late = seen.late.wrapping_add(1);
        self.is_equal(&asked, answer, seen)
    }

    /// A doubt: the command is pending, where there was none.
    fn doubt(&mut self, asked: &Asked, seen: &mut Seen) -> bool {
        seen.doubts = seen.doubts.wrapping_add(1);
        if self.pending.is_none() {
            self.pending = Some(*asked);
        }
        true
    }

    /// Whether what the command is answered is as the model has it.
    fn is_own_equal(&mut self, asked: &Asked, stepped: &Stepped, seen: &mut Seen) -> Result<bool> {
        match &stepped.own {
            Ok(answer) => Ok(self.pending.is_none() && self.is_equal(asked, answer, seen)?),
            Err(StepFault::Doubt) => Ok(self.doubt(asked, seen)),
            Err(_) => bail!("no memory"),
        }
    }

    /// Whether a step is as the model has it.
    fn is_step_equal(&mut self, asked: &Asked, stepped: &Stepped, seen: &mut Seen) -> Result<bool> {
        Ok(self.is_late_equal(stepped, seen)? && self.is_own_equal(asked, stepped, seen)?)
    }

    /// Whether a step of the command at the store is as the model has it.
    fn ask(
        &mut self,
        alloc: Global,
        asked: &Asked,
        weather: &mut RoughWeather,
        seen: &mut Seen,
    ) -> Result<bool>
        requires { asked.now.first.number < asked.now.second.number }
    {
        let stepped = asked_at(alloc, &mut self.group, asked, weather)?;
        self.is_step_equal(asked, &stepped, seen)
    }

    /// Whether the pages are the model's.
    fn has_equal_pages(&self) -> bool {
        let store = self.group.store();
        for number in 0..PAGES {
            let byte = store.content(number).first().copied().unwrap_or(0);
            if store.version(number) != self.model.version(number)
                || byte != self.model.byte(number)
            {
                return false;
            }
        }
        true
    }
}

/// The stores of a shape, of which store 0 has a first page.
pub fn groups(alloc: Global, stores: u32, replicas: u32) -> Result<Vec<StoreGroup>> {
    ensure!(
        replicas == 3 || replicas == 5,
        "a store has 3 or 5 replicas"
    );
    let mut groups = Vec::new(alloc);
    for store in 0..stores {
        let page = if store == 0 {
            Some(Page::from_slice(alloc, &[7])?)
        } else {
            None
        };
        groups.push(StoreGroup::new(alloc, store, replicas, page)?)?;
    }
    Ok(groups)
}

fn pairs(alloc: Global, stores: u32, replicas: u32) -> Result<Vec<Pair>> {
    let mut pairs = Vec::new(alloc);
    for (store, group) in groups(alloc, stores, replicas)?.into_iter().enumerate() {
        let first = if store == 0 { Some(7) } else { None };
        pairs.push(Pair {
            group,
            model: Model::new(alloc, first)?,
            pending: None,
        })?;
    }
    Ok(pairs)
}

/// How a run is: of so many commands, in a weather.
#[derive(Clone, Copy, Debug)]
pub struct Plan {
    pub stores: u32,
    pub replicas: u32,
    pub commands: u32,
    pub lost: u32,
    pub rough: u32,
    pub number: u64,
}

fn some(count: u64) -> &'static str {
    if count == 0 { "none" } else { "some" }
}

/// What is said of a run.
pub fn run(alloc: Global, plan: Plan) -> Result<String> {
    ensure!(0 < plan.stores, "there is no store");
    let mut pairs = pairs(alloc, plan.stores, plan.replicas)?;
    let mut draws = Draws::new(plan.number);
    let mut weather = RoughWeather::new(plan.number, plan.lost, plan.rough);
    let mut seen = Seen {
        kinds: [false; 11],
        doubts: 0,
        late: 0,
    };
    for turn in 0..plan.commands {
        let at = draws.below(u64::from(plan.stores)) as usize;
        let Some(pair) = pairs.get_mut(at) else {
            bail!("no store has this number");
        };
        let asked = drawn(&mut draws, &pair.model, turn, plan.stores);
        if !pair.ask(alloc, &asked, &mut weather, &mut seen)? {
            return Ok(format!(in alloc; "differs at {turn}: {:?}", asked)?);
        }
    }
    if !pairs.iter().all(|pair| pair.has_equal_pages()) {
        return Ok(String::from_str(alloc, "the pages differ")?);
    }
    let (doubts, late) = (some(seen.doubts), some(seen.late));
    Ok(format!(in alloc;
        "equal, {} kinds of answers, {doubts} in doubt, {late} late",
        seen.kinds()
    )?)
}
