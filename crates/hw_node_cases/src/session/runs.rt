//! Runs of nodes over an outside in memory, and what is answered for them.

ghost use Rattle.std.specs.Prelude.{◌≤◌, length};

use crate::session::outside::{Moments, Outside, consumer_of};
use hw_case_words::Answer;
use hw_io::Consumer;
use hw_replay::StartFault;
use hw_service::{Environment, Peer, Served, ServiceFault, Sources, host, meet, run, serve};
use std::alloc::Global;

/// The files of a node.
const SOURCES: Sources<'static> = Sources {
    config: "CONFIG",
    keys: "KEYS",
    log: "LOG",
};

/// What a node does.
#[derive(Drop)]
pub enum Command {
    /// It serves this many sessions.
    Serve(u64),
    /// It takes turns as a validator.
    TakeTurns(Turns),
    /// It is dialled by this many peers that meet it.
    Host(u64),
    /// It dials one peer and meets it.
    Meet,
}

/// The turns of a validator: one at each moment of the clock, with these peers.
#[derive(Drop)]
pub struct Turns {
    pub me: u32,
    pub peers: Vec<Peer>,
    pub clock: Moments,
}

/// Does what the command says, with consumers of these plans, and puts the status and the outside then.
pub fn put_run(answer: &mut Answer, outside: &mut Outside, plans: &str, command: Command) {
    let mut consumers: Vec<Box<dyn Consumer>> = Vec::new(answer.alloc());
    if plans != "none" {
        for plan in plans.split(',') {
            let consumer = consumer_of(answer, plan);
            match Box::new(answer.alloc(), consumer) {
                Ok(consumer) => {
                    if consumers.push(consumer).is_err() {
                        answer.refuse();
                    }
                }
                Err(_) => answer.refuse(),
            }
        }
    }
    let served = served_by(answer.alloc(), outside, &mut consumers, command);
    answer.show(&status_of(&served));
    put_outside(answer, outside);
}

/// How the run of a node ends.
fn served_by(
    alloc: Global,
    outside: &mut Outside,
    consumers: &mut Vec<Box<dyn Consumer>>,
    command: Command,
) -> Result<Served, ServiceFault>
    // It asks for nothing. With a `requires` the proof is for whatever consumers the caller has.
    requires { 0 ≤ length consumers.old.items }
{
    let Outside { files, out, door } = outside;
    match command {
        Command::Serve(sessions) => { serve(alloc, SOURCES, sessions, files, out, door, consumers) }
        Command::TakeTurns(mut turns) => take_turns(alloc, outside, consumers, &mut turns),
        Command::Host(sessions) => host(alloc, SOURCES, sessions, files, out, door, consumers),
        Command::Meet => meet(alloc, SOURCES, "peer", files, out, door, consumers),
    }
}

fn take_turns(
    alloc: Global,
    outside: &mut Outside,
    consumers: &mut Vec<Box<dyn Consumer>>,
    turns: &mut Turns,
) -> Result<Served, ServiceFault>
    // It asks for nothing, as above.
    requires { 0 ≤ length consumers.old.items }
{
    let Outside { files, out, door } = outside;
    let count = turns.clock.moments.len() as u64;
    let mut environment = Environment {
        files,
        out,
        clock: &mut turns.clock,
        door,
    };
    run(
        alloc,
        SOURCES,
        turns.me,
        count,
        &mut turns.peers,
        &mut environment,
        consumers,
    )
}

/// The status with which a program ends that runs so.
fn status_of(served: &Result<Served, ServiceFault>) -> u8 {
    match served {
        Ok(served) if served.limits > 0 => 8,
        Ok(served) if served.link_failed => 6,
        Ok(_) => 0,
        Err(ServiceFault::NoValidator) => 1,
        Err(ServiceFault::Settings(_) | ServiceFault::Keys(_)) => 2,
        Err(ServiceFault::Log(fault)) => match fault {
            StartFault::RecordsFull(_) | StartFault::ParkFull(_) => 8,
            StartFault::Clash { .. } => 9,
            _ => 2,
        },
        Err(ServiceFault::Read) => 4,
        Err(ServiceFault::Append | ServiceFault::Write) => 5,
        Err(ServiceFault::OutOfMemory) => 7,
        Err(ServiceFault::Clash(_)) => 9,
    }
}

/// Puts what was written, the log, and what the node wrote in each session.
fn put_outside(answer: &mut Answer, outside: &Outside) {
    answer.put(" ");
    put_lines(answer, outside.out.taken());
    answer.put(" log ");
    if let Some(log) = outside.files.file("LOG") {
        answer.hex(log);
    }
    for session in outside.door.sessions() {
        answer.put(" session ");
        answer.hex(session.written());
    }
}

/// Puts what was written, with a `/` for each line feed.
fn put_lines(answer: &mut Answer, written: &[u8]) {
    for byte in written {
        answer.character(if *byte == b'\n' { b'/' } else { *byte });
    }
}
