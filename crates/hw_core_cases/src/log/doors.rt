//! Doors in memory.

use crate::log::counts::{Count, done, put_count};
use crate::log::plans::plan;
use hw_case_words::{Answer, number};
use hw_doubles::{MemAsk, MemDoor, MemSession, PacedDoor, WatchedDoor};
use hw_io::{Door, DoorNumbers};

/// What a door in such pieces answers to the steps, and then its sessions and its numbers.
pub fn door_text(answer: &mut Answer, piece: usize, calls: &str, peers: &str, steps: &str) {
    let mut door = MemDoor::in_pieces(answer.alloc(), piece);
    plan(answer, &mut door.plan, calls);
    expect(answer, &mut door, peers);
    walk(answer, &mut door, steps);
    put_sessions(answer, door.sessions());
    put_numbers(answer, door.numbers());
}

/// The same of one that records the calls of `read` in its last session: what was read and written before each.
pub fn watched_text(answer: &mut Answer, peers: &str, steps: &str) {
    let mut door = MemDoor::new(answer.alloc());
    expect(answer, &mut door, peers);
    let mut door = WatchedDoor::new(answer.alloc(), door);
    walk(answer, &mut door, steps);
    put_sessions(answer, door.sessions());
    put_asks(answer, door.asks());
}

/// The same of one in such pieces, whose peers wait for what is written to them.
pub fn paced_text(answer: &mut Answer, piece: usize, holds: &str, peers: &str, steps: &str) {
    let mut door = MemDoor::in_pieces(answer.alloc(), piece);
    expect(answer, &mut door, peers);
    let mut paced = PacedDoor::new(answer.alloc(), door);
    hold(answer, &mut paced, holds);
    walk(answer, &mut paced, steps);
    put_sessions(answer, paced.door.sessions());
    put_numbers(answer, paced.door.numbers());
}

/// Holds back what the peers say after a number of bytes until another number of bytes was written.
fn hold(answer: &mut Answer, paced: &mut PacedDoor, holds: &str) {
    for hold in holds.split(',') {
        if let Some((said, written)) = hold.split_once(':') {
            let held = paced.hold(number(said) as usize, number(written) as usize);
            answer.keep(held);
        }
    }
}

/// Makes the door expect the peers.
fn expect(answer: &mut Answer, door: &mut MemDoor, peers: &str) {
    for peer in peers.split(',') {
        if peer != "-" {
            let expected = door.expect(peer.as_bytes());
            answer.keep(expected);
        }
    }
}

/// Takes the steps, and puts down what is answered to each.
fn walk<D: Door>(answer: &mut Answer, door: &mut D, steps: &str) {
    for step in steps.split(',') {
        let count = take_step(answer, door, step);
        put_count(answer, count);
    }
}

fn take_step<D: Door>(answer: &mut Answer, door: &mut D, step: &str) -> Count {
    match step.split_once(':') {
        Some(("dial", address)) => done(door.dial(address)),
        Some(("read", count)) => read(answer, door, number(count) as usize),
        Some((_, piece)) => door.write(piece.as_bytes()),
        None if step == "accept" => done(door.accept()),
        None => {
            door.hang_up();
            Ok(0)
        }
    }
}

/// Reads at most this many bytes, or sixteen.
fn read<D: Door>(answer: &mut Answer, door: &mut D, count: usize) -> Count {
    let mut buf = answer.zeros(count.min(16));
    door.read(buf.as_mut_slice())
}

fn put_sessions(answer: &mut Answer, sessions: &[MemSession]) {
    for session in sessions {
        answer.put(session.address().unwrap_or("-"));
        answer.put("/");
        put_talk(answer, session.heard(), session.written());
        answer.put(if session.has_failed() { "! " } else { " " });
    }
}

fn put_numbers(answer: &mut Answer, numbers: DoorNumbers) {
    answer.labelled("accepts ", numbers.accepts);
    answer.labelled(" dials ", numbers.dials);
    answer.labelled(" ends ", numbers.ends);
    answer.labelled(" faults ", numbers.faults);
}

fn put_asks(answer: &mut Answer, asks: &[MemAsk]) {
    for ask in asks {
        put_talk(answer, ask.heard(), ask.said());
        answer.put(" ");
    }
    answer.labelled("asks ", asks.len() as u64);
}

/// What was heard from a peer, and what was written to it.
fn put_talk(answer: &mut Answer, heard: &[u8], said: &[u8]) {
    answer.characters(heard);
    answer.put("/");
    answer.characters(said);
}
