//! Nodes that serve, and validators that take turns.

use crate::session::outside::{Moments, outside_of};
use crate::session::runs::{Command, Turns, put_run};
use hw_case_words::{Answer, number};
use hw_service::Peer;

/// What comes of a service with the outside that these words give.
pub fn service_text(answer: &mut Answer, words: &[&str]) {
    let mut outside = outside_of(answer, words);
    if let [_, _, _, _, plans, command, ..] = words {
        let command = command_of(answer, command);
        put_run(answer, &mut outside, plans, command);
    }
}

fn command_of(answer: &mut Answer, word: &str) -> Command {
    match word.split_once(':') {
        Some(("serve", sessions)) => Command::Serve(number(sessions)),
        Some((_, words)) => Command::TakeTurns(turns_of(answer, words)),
        None => Command::Serve(0),
    }
}

/// The turns that these words give: the validator, how many peers it has, and the moment of each turn.
fn turns_of(answer: &mut Answer, words: &str) -> Turns {
    let words = answer.words(words, ':');
    match words.as_slice() {
        [me, peers, moments @ ..] => Turns {
            me: (number(me) % 1_024) as u32,
            peers: peers_of(answer, number(peers)),
            clock: clock_of(answer, moments),
        },
        _ => Turns {
            me: 0,
            peers: peers_of(answer, 0),
            clock: clock_of(answer, &[]),
        },
    }
}

/// This many peers.
fn peers_of(answer: &mut Answer, count: u64) -> Vec<Peer> {
    let mut peers = Vec::new(answer.alloc());
    for _ in 0..count {
        put_peer(answer, &mut peers);
    }
    peers
}

fn put_peer(answer: &mut Answer, peers: &mut Vec<Peer>) {
    match Peer::new(answer.alloc(), "peer") {
        Ok(peer) => {
            if peers.push(peer).is_err() {
                answer.refuse();
            }
        }
        Err(_) => answer.refuse(),
    }
}

/// A clock that gives these moments.
fn clock_of(answer: &mut Answer, words: &[&str]) -> Moments {
    let mut moments = Vec::new(answer.alloc());
    for word in words {
        if moments.push(number(word)).is_err() {
            answer.refuse();
        }
    }
    Moments { moments, next: 0 }
}
