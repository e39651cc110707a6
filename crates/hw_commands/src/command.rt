//! The grammar of a command line.

ghost use Rattle.std.specs.{Prelude.{◌≡◌, ◌<◌, ◌+◌, ◌^◌, length, map, string_bytes, IfSome}, List.{list_all}};
ghost use Rattle.hw_text.specs.Numbers.{number_below};
ghost use Rattle.hw_commands.specs.Commands.{is_word, are_logs, eras_of, two_nodes, numbered_of, of_words, of_few, of_one, of_two, of_three, gen_of, sim_of, certify_of, digest_in_word, request_of};
ghost use Rattle.hw_commands.specs.Asked.{asked, IsInRange};

use crate::digits::digest_in_word;
use crate::words::Words;
use hw_text::number_up_to;
use hw_types::Digest;

/// A node has at most this many logs, one for each era.
pub const MAX_LOGS: u64 = hw_eras::MAX_LOGS as u64;

/// A generated journal has at most this many rounds.
pub const MAX_ROUNDS: u64 = 4_096;

/// A simulated run has at most this many nodes.
pub const MAX_NODES: u64 = 16;

/// A simulated run has at most this many steps.
pub const MAX_STEPS: u64 = 20_000;

/// A command whose end and text are worked out from its words and what the files hold, with the words that it works
/// on.
#[derive(Drop)]
pub enum Command<'w> {
    /// Takes the vertices of a log, in order, and reports on the node that they leave.
    Replay {
        log: &'w str,
    },
    /// Takes the vertices of a log, in order, and prints each final block with its summit.
    Explain {
        log: &'w str,
    },
    /// Takes the vertices of two logs, and prints what the two nodes say of each other.
    Audit {
        left: &'w str,
        right: &'w str,
    },
    /// Delivers what a script says, and prints what becomes of it.
    Script {
        file: &'w str,
    },
    /// Writes the header and the whole entries of a log into a new file.
    Mend {
        log: &'w str,
        new: &'w str,
    },
    /// Writes a log into a new file, in version 2.
    Migrate {
        log: &'w str,
        new: &'w str,
    },
    /// Writes the certificate of a block that a log decided into a new file.
    Certify {
        log: &'w str,
        block: Digest,
        new: &'w str,
    },
    /// Checks a certificate by keys.
    Check {
        file: &'w str,
        keys: &'w str,
    },
    /// Checks a certificate by keys. After a yes it prints what a log and the certificate's node say of each
    /// other.
    CheckLog {
        file: &'w str,
        keys: &'w str,
        log: &'w str,
    },
    /// Gives a node the units of `rounds` rounds, which the number makes, and prints what comes of them.
    Gen {
        number: u64,
        rounds: u32,
    },
    /// Lets the words of the number choose `steps` steps of `nodes` nodes, and prints what comes of it.
    Sim {
        number: u64,
        nodes: u32,
        steps: u32,
    },
    /// Takes the vertices of each log in its era, in order, and reports on each era of the node that they leave.
    Eras {
        logs: &'w [String],
    },
    /// Takes the vertices of the logs of two nodes, each in its era, and prints what the eras say of each
    /// other.
    EraAudit {
        left: &'w [String],
        right: &'w [String],
    },
}

/// The command that the words ask for, if they are in the grammar.
#[tactic(auto, unfolding(crate::specs::Commands::request_of))]
pub fn command_of(words: &Words) -> Option<Command<'_>>
    ensures asked { asked result ≡ request_of words.now }
    ensures range { IfSome result IsInRange }
{
    let words = words.as_slice();
    if !are_words(words) {
        return None;
    }
    let (command, words) = words.split_first()?;
    of_words(command.as_str(), words)
}

/// The command of this name with the words after it.
fn of_words<'w>(command: &str, words: &'w [String]) -> Option<Command<'w>>
    ensures asked { asked result ≡ of_words command.now (map string_bytes words.now) }
    ensures range { IfSome result IsInRange }
{
    match command {
        "eras" => eras(words),
        "era-audit" => era_audit(words),
        _ => of_few(command, words),
    }
}

/// The eras of these logs.
fn eras<'w>(logs: &'w [String]) -> Option<Command<'w>>
    ensures asked { asked result ≡ eras_of (map string_bytes logs.now) }
    ensures range { IfSome result IsInRange }
{
    if are_logs(logs) {
        Some(Command::Eras { logs })
    } else {
        None
    }
}

/// The audit of the eras of two nodes. The first word says how many of the logs are the left node's.
fn era_audit<'w>(words: &'w [String]) -> Option<Command<'w>>
    ensures asked { asked result ≡ numbered_of (map string_bytes words.now) }
    ensures range { IfSome result IsInRange }
{
    let (number, logs) = words.split_first()?;
    let count = number_up_to(MAX_LOGS, number.as_bytes())?;
    let (left, right) = logs.split_at_checked(count as usize)?;
    two_nodes(left, right)
}

/// The audit of the eras of two nodes, which these logs leave.
fn two_nodes<'w>(left: &'w [String], right: &'w [String]) -> Option<Command<'w>>
    ensures asked { asked result ≡ two_nodes (map string_bytes left.now) (map string_bytes right.now) }
    ensures range { IfSome result IsInRange }
{
    if are_logs(left) && are_logs(right) {
        Some(Command::EraAudit { left, right })
    } else {
        None
    }
}

/// Whether a node may have this many logs: 1 to 64.
fn are_logs(logs: &[String]) -> bool
    ensures { result ≡ are_logs (map string_bytes logs.now) }
{
    (1..=MAX_LOGS as usize).contains(&logs.len())
}

/// The command of this name with one to three words after it.
#[tactic(auto, unfolding(crate::specs::Commands::of_few))]
fn of_few<'w>(command: &str, words: &'w [String]) -> Option<Command<'w>>
    ensures asked { asked result ≡ of_few command.now (map string_bytes words.now) }
    ensures range { IfSome result IsInRange }
{
    match words {
        [first] => of_one(command, first.as_str()),
        [first, second] => of_two(command, first.as_str(), second.as_str()),
        [first, second, third] => of_three(
            command,
            first.as_str(),
            second.as_str(),
            third.as_str(),
        ),
        _ => None,
    }
}

/// The command of this name with one word after it.
fn of_one<'w>(command: &str, word: &'w str) -> Option<Command<'w>>
    ensures asked { asked result ≡ of_one command.now word.now }
    ensures range { IfSome result IsInRange }
{
    match (command, word) {
        ("replay", log) => Some(Command::Replay { log }),
        ("explain", log) => Some(Command::Explain { log }),
        ("script", file) => Some(Command::Script { file }),
        _ => None,
    }
}

/// The command of this name with two words after it.
#[tactic(auto, unfolding(crate::specs::Commands::of_two))]
fn of_two<'w>(command: &str, first: &'w str, second: &'w str) -> Option<Command<'w>>
    ensures asked { asked result ≡ of_two command.now first.now second.now }
    ensures range { IfSome result IsInRange }
{
    match (command, first, second) {
        ("audit", left, right) => Some(Command::Audit { left, right }),
        ("mend", log, new) => Some(Command::Mend { log, new }),
        ("migrate", log, new) => Some(Command::Migrate { log, new }),
        ("check", file, keys) => Some(Command::Check { file, keys }),
        ("gen", number, rounds) => generation(number, rounds),
        _ => None,
    }
}

/// The generated journal of a number, with 1 to 4096 rounds.
fn generation<'w>(number: &str, rounds: &str) -> Option<Command<'w>>
    ensures asked { asked result ≡ gen_of (number_below (2 ^ 64) number.now) (number_below 4097 rounds.now) }
    ensures range { IfSome result IsInRange }
{
    let number = number_up_to(u64::MAX, number.as_bytes())?;
    let rounds = number_up_to(MAX_ROUNDS, rounds.as_bytes())?;
    if rounds == 0 {
        return None;
    }
    Some(Command::Gen {
        number,
        rounds: rounds as u32,
    })
}

/// The command of this name with three words after it.
#[tactic(auto, unfolding(crate::specs::Commands::of_three))]
fn of_three<'w>(
    command: &str,
    first: &'w str,
    second: &'w str,
    third: &'w str,
) -> Option<Command<'w>>
    ensures asked { asked result ≡ of_three command.now first.now second.now third.now }
    ensures range { IfSome result IsInRange }
{
    match (command, first, second, third) {
        ("sim", number, nodes, steps) => simulation(number, nodes, steps),
        ("certify", log, block, new) => certification(log, block, new),
        ("check", file, keys, log) => Some(Command::CheckLog { file, keys, log }),
        _ => None,
    }
}

/// The certificate of the block that a word names, which a log decided, in a new file.
fn certification<'w>(log: &'w str, block: &str, new: &'w str) -> Option<Command<'w>>
    ensures asked { asked result ≡ certify_of log.now (digest_in_word block.now) new.now }
    ensures range { IfSome result IsInRange }
{
    let block = digest_in_word(block)?;
    Some(Command::Certify { log, block, new })
}

/// A simulated run of a number, with 1 to 16 nodes and at most 20000 steps.
fn simulation<'w>(number: &str, nodes: &str, steps: &str) -> Option<Command<'w>>
    ensures asked { asked result ≡ sim_of (number_below (2 ^ 64) number.now) (number_below 17 nodes.now) (number_below 20001 steps.now) }
    ensures range { IfSome result IsInRange }
{
    let number = number_up_to(u64::MAX, number.as_bytes())?;
    let nodes = number_up_to(MAX_NODES, nodes.as_bytes())?;
    let steps = number_up_to(MAX_STEPS, steps.as_bytes())?;
    if nodes == 0 {
        return None;
    }
    Some(Command::Sim {
        number,
        nodes: nodes as u32,
        steps: steps as u32,
    })
}

/// Whether each text may be a word.
pub fn are_words(texts: &[String]) -> bool
    ensures { result ≡ list_all (λ text. is_word (string_bytes text)) texts.now }
{
    texts.iter().all(|text| is_word(text.as_str()))
}

/// Whether the text may be a word: it isn't empty and doesn't begin with `-`.
pub fn is_word(text: &str) -> bool
    ensures { result ≡ is_word text.now }
{
    match text.as_bytes() {
        [] => false,
        [first, ..] => *first != b'-',
    }
}
