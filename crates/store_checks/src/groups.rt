ghost use Rattle.outside.specs.ListWeather.{list_told};

use nfs3_types::NoMemory;
use outside::{Calm, Fate, ListWeather, LostReplicas, MessageName, Weather};
use page_types::Command;
use paxos_group::{Appended, Group, GroupFault};
use std::alloc::Global;
use std::test::*;

/// The fates of a list, and from the `wait`-th fresh message on the first held message comes before each.
#[derive(Drop)]
struct Straying {
    fates: ListWeather,
    wait: u64,
}

impl Weather for Straying {
    ghost told = { record {
      bad = λ weather. list_told.bad weather.fates;
      to_come = λ weather. list_told.to_come weather.fates;
      silent = λ weather. list_told.silent weather.fates;
    } };

    fn fate(&mut self, message: MessageName) -> Fate {
        self.fates.fate(message)
    }

    fn stray(&mut self, held: u64) -> Option<u64> {
        let _held = held;
        if self.wait > 0 {
            self.wait -= 1;
            return None;
        }
        Some(0)
    }
}

const SETTLED: Appended = Appended {
    late: false,
    doubted: false,
    own: Ok(()),
};

const DOUBTED: Appended = Appended {
    late: false,
    doubted: true,
    own: Err(GroupFault::Doubt),
};

const LATE: Appended = Appended {
    late: true,
    doubted: false,
    own: Ok(()),
};

const FRESH: Command = Command::Fresh;

const READ: Command = Command::Read { number: 0 };

/// Whether these two are settled, in this order.
fn are_settled(group: &Group<Command>) -> bool {
    matches!(group.log(), [Command::Fresh, Command::Read { number: 0 }])
}

#[test]
fn a_doubted_command_is_settled_late(rt: HostRuntime) -> Result<(), Fail> {
    let alloc = rt.alloc();
    let mut group = Group::new(alloc, 0, 5)?;
    let doubted = group.append(alloc, &FRESH, &mut LostReplicas::new(3));
    assert_eq!(rt; doubted, DOUBTED);
    assert!(rt; matches!(group.pending(), Some(Command::Fresh)));
    assert_eq!(rt; group.log().len(), 0);
    assert_eq!(rt; group.append(alloc, &READ, &mut Calm), LATE);
    assert!(rt; group.pending().is_none());
    assert_eq!(rt; group.round(), 4);
    assert!(rt; are_settled(&group));
    if group.log().len() == 2 {
        assert!(rt; group.holders(0) >= 3);
        assert!(rt; group.holders(1) >= 3);
    }
    Ok(())
}

/// The fates of one append, in which the message at this place alone has another fate.
fn one_other(alloc: Global, place: usize, other: Fate) -> Result<ListWeather, NoMemory> {
    let mut fates = Vec::new(alloc);
    for _ in 0..place {
        fates.push(Fate::Deliver)?;
    }
    fates.push(other)?;
    Ok(ListWeather::new(fates))
}

#[test]
fn one_message_has_another_fate(rt: HostRuntime) -> Result<(), Fail> {
    let alloc = rt.alloc();
    for other in [Fate::Lose, Fate::Hold, Fate::Repeat] {
        for (replicas, places) in [(3, 12), (5, 20)] {
            for place in 0..places {
                let mut group = Group::new(alloc, 1, if replicas == 3 { 3 } else { 5 })?;
                let mut weather = one_other(alloc, place, other)?;
                assert_eq!(rt; group.append(alloc, &FRESH, &mut weather), SETTLED);
                assert!(rt; matches!(group.log(), [Command::Fresh]));
            }
        }
    }
    Ok(())
}

#[test]
fn a_held_put_comes_after_a_later_ballot(rt: HostRuntime) -> Result<(), Fail> {
    let alloc = rt.alloc();
    let mut group = Group::new(alloc, 2, 3)?;
    let mut fates = Vec::new(alloc);
    for _ in 0..6 {
        fates.push(Fate::Deliver)?;
    }
    for fate in [Fate::Hold, Fate::Hold, Fate::Lose] {
        fates.push(fate)?;
    }
    let doubted = group.append(alloc, &FRESH, &mut ListWeather::new(fates));
    assert_eq!(rt; doubted, DOUBTED);
    let mut weather = Straying {
        fates: ListWeather::new(Vec::new(alloc)),
        wait: 3,
    };
    assert_eq!(rt; group.append(alloc, &READ, &mut weather), LATE);
    assert!(rt; are_settled(&group));
    if group.log().len() == 2 {
        assert_eq!(rt; (group.holders(0), group.holders(1)), (3, 3));
    }
    Ok(())
}
