//! What is printed for words that are in no command's grammar, or name a validator that there isn't.
//!
//! Which words are in a grammar is `Request::of`'s to say. Here is found what is wrong first with words that are in
//! none, as a person reads them: how many there are before what they say.

use hw_program::{
    MAX_LOGS, MAX_NODES, MAX_ROUNDS, MAX_SESSIONS, MAX_STEPS, MAX_TURNS, MAX_VALIDATOR,
    NodeCommand, Request, is_word,
};
use hw_text::number_up_to;

/// A command, how many words come after it, and which of them are numbers.
#[derive(Clone, Copy)]
struct Form<'c> {
    command: &'c str,
    least: usize,
    most: usize,
    numbers: &'static [Number],
}

/// A word that is a number: its place after the command, counted from 0, its name, and its range.
#[derive(Clone, Copy)]
struct Number {
    place: usize,
    name: &'static str,
    least: u64,
    most: u64,
}

const NUMBER: Number = Number {
    place: 0,
    name: "NUMBER",
    least: 0,
    most: u64::MAX,
};

const OF_GEN: [Number; 2] = [
    NUMBER,
    Number {
        place: 1,
        name: "ROUNDS",
        least: 1,
        most: MAX_ROUNDS,
    },
];

const OF_SIM: [Number; 3] = [
    NUMBER,
    Number {
        place: 1,
        name: "NODES",
        least: 1,
        most: MAX_NODES,
    },
    Number {
        place: 2,
        name: "STEPS",
        least: 0,
        most: MAX_STEPS,
    },
];

const OF_ERA_AUDIT: [Number; 1] = [Number {
    place: 0,
    name: "COUNT",
    least: 1,
    most: MAX_LOGS,
}];

const OF_SERVE: [Number; 1] = [Number {
    place: 4,
    name: "SESSIONS",
    least: 1,
    most: MAX_SESSIONS,
}];

const OF_RUN: [Number; 2] = [
    Number {
        place: 3,
        name: "ME",
        least: 0,
        most: MAX_VALIDATOR,
    },
    Number {
        place: 4,
        name: "TURNS",
        least: 1,
        most: MAX_TURNS,
    },
];

/// The commands, one a line, with their words and the ranges of these.
const COMMANDS: &str = "highway: the words are one of these; none is empty or begins with `-`
  replay LOG
  explain LOG
  audit LEFT RIGHT
  script FILE
  mend LOG NEW
  migrate LOG NEW
  certify LOG BLOCK NEW                     BLOCK: 64 digits 0 to 9 and a to f
  check FILE KEYS [LOG]
  gen NUMBER ROUNDS                         NUMBER: below 2^64; ROUNDS: 1 to 4096
  sim NUMBER NODES STEPS                    NODES: 1 to 16; STEPS: 0 to 20000
  eras LOG ..                               1 to 64 logs
  era-audit COUNT LEFT .. RIGHT ..          COUNT: 1 to 64, of LEFT; 1 to 64 logs of each node
  serve CONFIG KEYS LOG ADDRESS SESSIONS    SESSIONS: 1 to 65536
  host CONFIG KEYS LOG ADDRESS SESSIONS     SESSIONS: 1 to 65536
  run CONFIG KEYS LOG ME TURNS PEER ..      ME: a validator of CONFIG; TURNS: 1 to 1000000; 1 to 16 peers
  meet CONFIG KEYS LOG PEER
";

/// Writes on standard error which word is wrong, where that can be said, and all commands.
pub fn tell_usage(rt: &impl Eprint, words: &[String], request: &Request<'_>) {
    match request {
        Request::Node(NodeCommand::Run { .. }) => {
            let _ = eprintln!(rt; "highway: ME of `run` is no validator of CONFIG");
        }
        _ => tell_wrong_word(rt, words),
    }
    let _ = eprint!(rt; "{COMMANDS}");
}

/// Writes the first thing that is wrong with these words.
fn tell_wrong_word(rt: &impl Eprint, words: &[String]) {
    let Some((command, rest)) = words.split_first() else {
        let _ = eprintln!(rt; "highway: there is no command, or a word is no text");
        return;
    };
    for (place, word) in words.iter().enumerate() {
        if !is_word(word.as_str()) {
            let place = place + 1;
            let _ = eprintln!(rt; "highway: word {place} is empty or begins with `-`");
            return;
        }
    }
    match form_of(command.as_str()) {
        Some(form) => tell_of_form(rt, &form, rest),
        None => {
            let _ = eprintln!(rt; "highway: `{command}` is no command");
        }
    }
}

fn form_of(command: &str) -> Option<Form<'_>> {
    let (least, most, numbers): (usize, usize, &'static [Number]) = match command {
        "replay" | "explain" | "script" => (1, 1, &[]),
        "audit" | "mend" | "migrate" => (2, 2, &[]),
        "certify" => (3, 3, &[]),
        "check" => (2, 3, &[]),
        "gen" => (2, 2, &OF_GEN),
        "sim" => (3, 3, &OF_SIM),
        "eras" => (1, 64, &[]),
        "era-audit" => (3, 129, &OF_ERA_AUDIT),
        "serve" | "host" => (5, 5, &OF_SERVE),
        "run" => (6, 21, &OF_RUN),
        "meet" => (4, 4, &[]),
        _ => return None,
    };
    Some(Form {
        command,
        least,
        most,
        numbers,
    })
}

/// Writes what is wrong with the words after a command.
fn tell_of_form(rt: &impl Eprint, form: &Form<'_>, words: &[String]) {
    let (command, count) = (form.command, words.len());
    if count < form.least || form.most < count {
        tell_count(rt, form, count);
        return;
    }
    match wrong_number(form.numbers, words) {
        Some(number) => {
            let (name, least, most) = (number.name, number.least, number.most);
            let _ = eprintln!(rt;
                "highway: {name} of `{command}` is no number from {least} to {most}"
            );
        }
        None => tell_of_other_words(rt, command),
    }
}

/// Writes that `count` words come after a command, which takes fewer or more.
fn tell_count(rt: &impl Eprint, form: &Form<'_>, count: usize) {
    let (command, least, most) = (form.command, form.least, form.most);
    let _ = if least == most {
        eprintln!(rt; "highway: words behind `{command}`: {count} in place of {least}")
    } else {
        eprintln!(rt; "highway: words behind `{command}`: {count} in place of {least} to {most}")
    };
}

/// Writes what is left to be wrong where the count of words and their numbers are right.
fn tell_of_other_words(rt: &impl Eprint, command: &str) {
    let _ = match command {
        "certify" => eprintln!(rt; "highway: BLOCK of `certify` isn't 64 digits 0 to 9 and a to f"),
        _ => eprintln!(rt; "highway: the words of `{command}` don't go together"),
    };
}

/// The first of these numbers that the words haven't in its range.
fn wrong_number<'n>(numbers: &'n [Number], words: &[String]) -> Option<&'n Number> {
    for number in numbers {
        if !words
            .get(number.place)
            .is_some_and(|word| is_in_range(number, word.as_str()))
        {
            return Some(number);
        }
    }
    None
}

/// Whether a word is a number in this range.
fn is_in_range(number: &Number, word: &str) -> bool {
    number_up_to(number.most, word.as_bytes()).is_some_and(|value| value >= number.least)
}
