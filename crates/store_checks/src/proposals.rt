use nfs3_types::{Copies, NoMemory};
use page_types::Command;
use paxos_core::{Acceptor, Ballot, Message, Proposer, Stage};
use std::alloc::Global;
use std::test::*;

/// Sends the message twice to these replicas, and their answers to the proposer, and says how far it is.
fn send(
    alloc: Global,
    acceptors: &mut [Acceptor<Command>],
    reached: &[usize],
    message: &Message<Command>,
    proposer: &mut Proposer<Command>,
) -> Result<Stage, NoMemory> {
    let mut stage = Stage::Waiting;
    for (replica, acceptor) in acceptors.iter_mut().enumerate() {
        if !reached.contains(&replica) {
            continue;
        }
        for _ in 0..2 {
            if let Some(answer) = acceptor.on_message(alloc, message)? {
                stage = proposer.on_message(alloc, &answer)?;
            }
        }
    }
    Ok(stage)
}

/// Makes a proposal to read the page of this number, whose asks and puts reach these replicas, and says
/// how far it comes, and the page of the command that it proposes.
fn propose(
    alloc: Global,
    acceptors: &mut [Acceptor<Command>],
    round: u64,
    number: u64,
    asks: &[usize],
    puts: &[usize],
) -> Result<(Stage, u64), NoMemory> {
    let index = 4;
    let ballot = Ballot { round, proposer: 9 };
    let mut proposer = Proposer::new(alloc, index, ballot, 3, Command::Read { number })?;
    let ask = Message::Ask { index, ballot };
    let mut stage = send(alloc, acceptors, asks, &ask, &mut proposer)?;
    if stage == Stage::Promised {
        let put = Message::Put {
            index,
            ballot,
            value: proposer.value().copy(alloc)?,
        };
        stage = send(alloc, acceptors, puts, &put, &mut proposer)?;
    }
    match proposer.value() {
        Command::Read { number } => Ok((stage, *number)),
        _ => Ok((stage, 0)),
    }
}

#[test]
fn a_proposal_that_was_not_chosen_is_taken_up(rt: HostRuntime) -> Result<(), Fail> {
    let alloc = rt.alloc();
    let mut acceptors = Vec::new(alloc);
    for replica in 0..3 {
        acceptors.push(Acceptor::new(alloc, replica))?;
    }
    let first = propose(alloc, &mut acceptors, 1, 7, &[0, 1], &[0])?;
    let second = propose(alloc, &mut acceptors, 2, 8, &[1, 2], &[1])?;
    let third = propose(alloc, &mut acceptors, 3, 9, &[0, 1, 2], &[0, 2])?;
    let below = propose(alloc, &mut acceptors, 2, 9, &[0, 1, 2], &[0, 1, 2])?;
    assert_eq!(rt; first, (Stage::Promised, 7));
    assert_eq!(rt; second, (Stage::Promised, 8));
    assert_eq!(rt; third, (Stage::Chosen, 8));
    assert_eq!(rt; below, (Stage::Waiting, 9));
    Ok(())
}
