//! Nodes that run to meet others.

use crate::session::outside::outside_of;
use crate::session::runs::{Command, put_run};
use hw_case_words::{Answer, number};

/// What comes of a reunion with the outside that these words give.
pub fn reunion_text(answer: &mut Answer, words: &[&str]) {
    let mut outside = outside_of(answer, words);
    if let [_, _, _, _, plans, command, ..] = words {
        put_run(answer, &mut outside, plans, command_of(command));
    }
}

fn command_of(word: &str) -> Command {
    match word.split_once(':') {
        Some((_, sessions)) => Command::Host(number(sessions)),
        None => Command::Meet,
    }
}
