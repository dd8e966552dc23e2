//! One step at one store group.

ghost use Rattle.std.specs.Prelude.{◌≡◌, ◌+◌, ◌<◌, ◌≤◌, ◌^◌, IfOk, IfErr, OnOk, length, vec_len, vec_capacity};
ghost use Rattle.page_types.specs.Obeys.{IsFormed};
ghost use Rattle.store_group.specs.Shown.{settling_of};
ghost use Rattle.fabric.specs.Taking.{IsMade, IsSame, IsSameBook, Scene, Takes, request_of};

use crate::book::{Asked, Book};
use nfs3_types::Copies;
use outside::Weather;
use page_types::{Answer, Command};
use pair_types::StepFault;
use std::alloc::Global;
use store_group::{Ready, StoreGroup};

/// What a step needs, with its copies for the journal.
#[derive(Drop)]
pub(crate) struct Made {
    pub ready: Ready,
    pub asked: Asked,
    pub told: Answer,
}

/// Takes all memory that a step of the command needs, but for that of the replicas.
fn make(
    alloc: Global,
    group: &mut StoreGroup,
    book: &mut Book,
    pass: u32,
    store: u32,
    command: &Command,
) -> Result<Made, StepFault>
    requires next { length (settling_of group.old).log < 2 ^ 63 }
    requires formed { IsFormed command.now }
    ensures room { OnOk result (vec_len book.new.entries + 2 ≤ vec_capacity book.new.entries) }
    ensures made { IfOk result (IsMade group.new command.now) }
    ensures asked { IfOk result (λ made. request_of made.asked
        ≡ record { pass = pass; store = store; command = command.now }) }
    ensures fault { IfErr result (λ fault. fault ≡ StepFault.NoMemory) }
    ensures same { IsSame group.old group.new }
    ensures book { IsSameBook book.old book.new }
{
    book.make_room()?;
    let kept = command.copy(alloc)?;
    let ready = group.ready(alloc, command)?;
    let told = ready.own().copy(alloc)?;
    let asked = Asked {
        pass,
        store,
        command: kept,
    };
    Ok(Made { ready, asked, told })
}

/// One step of a command for which all was made ready, written down.
fn step_made<W: Weather>(
    alloc: Global,
    group: &mut StoreGroup,
    book: &mut Book,
    weather: &mut W,
    command: &Command,
    made: Made,
) -> Result<Answer, StepFault>
    requires next { length (settling_of group.old).log < 2 ^ 63 }
    requires round { (settling_of group.old).round < 2 ^ 63 }
    requires formed { IsFormed command.now }
    requires room { vec_len book.old.entries + 2 ≤ vec_capacity book.old.entries }
    requires steps { book.old.steps < 2 ^ 62 }
    requires doubts { book.old.doubts < 2 ^ 62 }
    requires made { IsMade group.old command.now made }
    ensures { Takes W.told
        (record { group = group.old; book = book.old; weather = weather.old })
        (record { group = group.new; book = book.new; weather = weather.new })
        (record { pass = made.asked.pass; store = made.asked.store; command = command.now }) result }
{
    let Made { ready, asked, told } = made;
    let stepped = group.step(alloc, command, ready, weather);
    book.note(asked, told, stepped)
}

/// One step of a command of a pass at the store group of a store, written down.
#[tactic(auto, using(crate::proofs::Assembling::nothing))]
pub(crate) fn take_step<W: Weather>(
    alloc: Global,
    group: &mut StoreGroup,
    book: &mut Book,
    weather: &mut W,
    pass: u32,
    store: u32,
    command: &Command,
) -> Result<Answer, StepFault>
    requires next { length (settling_of group.old).log < 2 ^ 63 }
    requires round { (settling_of group.old).round < 2 ^ 63 }
    requires formed { IsFormed command.now }
    requires steps { book.old.steps < 2 ^ 62 }
    requires doubts { book.old.doubts < 2 ^ 62 }
    ensures { Takes W.told
        (record { group = group.old; book = book.old; weather = weather.old })
        (record { group = group.new; book = book.new; weather = weather.new })
        (record { pass = pass; store = store; command = command.now }) result }
{
    let made = make(alloc, group, book, pass, store, command)?;
    step_made(alloc, group, book, weather, command, made)
}
