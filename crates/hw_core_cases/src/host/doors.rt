//! A real door, and its peers.

use crate::host::answers::{put_count, put_done, put_read, put_system, put_within, put_word};
use crate::host::peers::Peers;
use hw_case_words::{Answer, number};
use hw_host::HostDoor;
use hw_io::{Door, DoorNumbers, IoFault};
use std::rt::Clock;
use std::time::Duration;

/// The address of this machine from which a peer comes, and the other one.
const HERE: &str = "127.0.0.1";

const AFAR: &str = "::1";

/// What a door at this address and its peers answer to the steps, and the door's numbers.
pub fn door_text(rt: HostRuntime, answer: &mut Answer, address: &str, steps: &str) {
    match Peers::new(rt, answer.alloc()) {
        Ok(mut peers) => with_peers(rt, answer, &mut peers, address, steps),
        Err(_) => answer.refuse(),
    }
}

fn with_peers(rt: HostRuntime, answer: &mut Answer, peers: &mut Peers, address: &str, steps: &str) {
    match address {
        "-" => at_door(rt, answer, peers, &mut HostDoor::without_address(rt), steps),
        "taken" => {
            let address = peer_address(answer, peers);
            at_address(rt, answer, peers, address.as_str(), steps);
        }
        _ => at_address(rt, answer, peers, address, steps),
    }
}

fn at_address(rt: HostRuntime, answer: &mut Answer, peers: &mut Peers, address: &str, steps: &str) {
    let mut door = HostDoor::new(rt, address);
    peers.expect(door.port().unwrap_or(0));
    at_door(rt, answer, peers, &mut door, steps);
}

/// Where the peer listens.
fn peer_address(answer: &mut Answer, peers: &Peers) -> String {
    answer.filled("127.0.0.1:#", u64::from(peers.port()))
}

fn at_door(
    rt: HostRuntime,
    answer: &mut Answer,
    peers: &mut Peers,
    door: &mut HostDoor<'_, HostRuntime>,
    steps: &str,
) {
    walk(rt, answer, peers, door, steps);
    put_numbers(answer, door.numbers());
}

fn put_numbers(answer: &mut Answer, numbers: DoorNumbers) {
    put_word(answer, "");
    answer.labelled("accepts ", numbers.accepts);
    answer.labelled(" dials ", numbers.dials);
    answer.labelled(" ends ", numbers.ends);
    answer.labelled(" faults ", numbers.faults);
}

/// Takes the steps.
fn walk<D: Door>(
    rt: HostRuntime,
    answer: &mut Answer,
    peers: &mut Peers,
    door: &mut D,
    steps: &str,
) {
    for step in steps.split(',') {
        take_step(rt, answer, peers, door, step);
    }
}

/// Takes a step, and puts down what is answered to it.
fn take_step<D: Door>(
    rt: HostRuntime,
    answer: &mut Answer,
    peers: &mut Peers,
    door: &mut D,
    step: &str,
) {
    match step.split_once(':') {
        Some((call, words)) => take_call(rt, answer, peers, door, call, words),
        None => take_word(rt, answer, peers, door, step),
    }
}

/// Takes a step of one word.
fn take_word<D: Door>(
    rt: HostRuntime,
    answer: &mut Answer,
    peers: &mut Peers,
    door: &mut D,
    step: &str,
) {
    match step {
        "accept" => put_done(answer, door.accept()),
        "dial" => dial_peer(answer, peers, door),
        "end" => hang_up(answer, door),
        "flood" => put_done(answer, flood(door)),
        "meet" => put_system(answer, peers.meet()),
        "shut" => put_system(answer, peers.shut()),
        "clock" => begin_clock(rt, answer, peers),
        _ => answer.refuse(),
    }
}

/// Takes a step of the door that has an argument.
fn take_call<D: Door>(
    rt: HostRuntime,
    answer: &mut Answer,
    peers: &mut Peers,
    door: &mut D,
    call: &str,
    words: &str,
) {
    match call {
        "dial" => put_done(answer, door.dial(words)),
        "read" => read(answer, door, number(words) as usize),
        "write" => put_count(answer, door.write(words.as_bytes())),
        "trickle" => put_within(answer, trickle(rt, peers, door), words),
        _ => take_peer_call(rt, answer, peers, call, words),
    }
}

/// Takes a step of a peer that has an argument.
fn take_peer_call(
    rt: HostRuntime,
    answer: &mut Answer,
    peers: &mut Peers,
    call: &str,
    words: &str,
) {
    match call {
        "come" => put_system(answer, peers.come(rt, HERE, words)),
        "afar" => put_system(answer, peers.come(rt, AFAR, words)),
        "say" => put_system(answer, peers.say(words)),
        "hear" => hear(answer, peers, number(words) as usize),
        "within" => put_within(answer, peers.milliseconds(rt), words),
        _ => answer.refuse(),
    }
}

fn dial_peer<D: Door>(answer: &mut Answer, peers: &Peers, door: &mut D) {
    let address = peer_address(answer, peers);
    put_done(answer, door.dial(address.as_str()));
}

fn hang_up<D: Door>(answer: &mut Answer, door: &mut D) {
    door.hang_up();
    put_word(answer, "done");
}

fn begin_clock(rt: HostRuntime, answer: &mut Answer, peers: &mut Peers) {
    if peers.keep_moment(rt).is_err() {
        answer.refuse();
    }
}

/// Reads at most this many bytes, or sixteen.
fn read<D: Door>(answer: &mut Answer, door: &mut D, count: usize) {
    let mut piece = answer.zeros(count.min(16));
    let outcome = door.read(piece.as_mut_slice());
    put_read(answer, outcome, piece.as_slice());
}

/// The last peer hears at most this many bytes, or sixteen.
fn hear(answer: &mut Answer, peers: &mut Peers, count: usize) {
    let mut piece = answer.zeros(count.min(16));
    let outcome = match peers.hear(piece.as_mut_slice()) {
        Ok(count) => Ok(count),
        Err(_) => Err(IoFault::Failed),
    };
    put_read(answer, outcome, piece.as_slice());
}

/// Writes 65,536 bytes again and again until that fails, 64 MiB at most.
fn flood<D: Door>(door: &mut D) -> Result<(), IoFault> {
    for _ in 0..1_024 {
        door.write(&[0; 65_536])?;
    }
    Ok(())
}

/// The last peer says a byte each 300 milliseconds: how many a door read until it gave up.
fn trickle<D: Door>(rt: HostRuntime, peers: &mut Peers, door: &mut D) -> u64 {
    let mut count: u64 = 0;
    for _ in 0..60 {
        if peers.say("a").is_err() || door.read(&mut [0]) != Ok(1) {
            break;
        }
        count = count.saturating_add(1);
        rt.sleep(Duration::from_millis(300));
    }
    count
}

/// `as wanted`, where a door that listens at each address of this machine and its peers answer that.
pub fn afar_text(rt: HostRuntime, answer: &mut Answer, words: &str) {
    match words.split_once(" -> ") {
        Some((steps, wanted)) if has_two_addresses(rt) => {
            let mut found = Answer::new(answer.alloc());
            door_text(rt, &mut found, "[::]:0", steps);
            put_compared(answer, found, wanted);
        }
        Some(_) => put_word(answer, "as wanted"),
        None => answer.refuse(),
    }
}

/// Whether a door can listen at each address of this machine.
fn has_two_addresses(rt: HostRuntime) -> bool {
    HostDoor::new(rt, "[::]:0").port().is_some()
}

fn put_compared(answer: &mut Answer, found: Answer, wanted: &str) {
    match found.finish() {
        Some(text) if text.as_str() == wanted => put_word(answer, "as wanted"),
        Some(text) => put_word(answer, text.as_str()),
        None => answer.refuse(),
    }
}
