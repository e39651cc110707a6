//! The grammar of a command line: what a node that runs is asked for.

ghost use Rattle.std.specs.{Prelude.{◌≡◌, map, string_bytes}, Option.{option_map}};
ghost use Rattle.hw_text.specs.Numbers.{number_below};
ghost use Rattle.hw_service.specs.Begin.{names_of};
ghost use Rattle.hw_program.specs.{Services.{Serve, Host, sessions_of, turns_of, service_in, meeting_in, service_of, names_in}, Serving.{service, asked_service}};

use hw_commands::{Words, are_words};
use hw_service::Sources;
use hw_text::number_up_to;
use hw_types::MAX_VALIDATORS;

/// A node serves at most this many sessions in one run, or meets this many peers that come.
pub const MAX_SESSIONS: u64 = 65_536;

/// A validator's number is at most this.
pub const MAX_VALIDATOR: u64 = MAX_VALIDATORS as u64 - 1;

/// A validator takes at most this many turns in one run.
pub const MAX_TURNS: u64 = 1_000_000;

/// A validator dials at most this many peers in a turn.
const MAX_PEERS: usize = 16;

/// What a node that runs is asked for, with the words that it works on.
#[derive(Drop)]
pub enum NodeCommand<'w> {
    /// Serves this many sessions, one after the other, to peers that come to the address.
    Serve {
        sources: Sources<'w>,
        address: &'w str,
        sessions: u64,
    },
    /// Lets a validator take this many turns. In each it makes its unit, if there is one to make, and dials the peers
    /// at these addresses.
    Run {
        sources: Sources<'w>,
        me: u32,
        turns: u64,
        peers: &'w [String],
    },
    /// Meets this many peers that come to the address, one after the other.
    Host {
        sources: Sources<'w>,
        address: &'w str,
        sessions: u64,
    },
    /// Dials the peer at this address and meets it.
    Meet {
        sources: Sources<'w>,
        peer: &'w str,
    },
}

impl<'w> NodeCommand<'w> {
    /// The names of the files that the node begins from.
    pub fn sources(&self) -> Sources<'w>
        ensures { names_of result ≡ names_in (service self.now) }
    {
        match self {
            NodeCommand::Serve { sources, .. }
            | NodeCommand::Run { sources, .. }
            | NodeCommand::Host { sources, .. }
            | NodeCommand::Meet { sources, .. } => *sources,
        }
    }
}

/// The run of a node that the words ask for, if they ask for one and are in its grammar.
#[tactic(auto, unfolding(crate::specs::Services::service_of))]
pub fn service_of(words: &Words) -> Option<NodeCommand<'_>>
    ensures { asked_service result ≡ service_of words.now }
{
    let words = words.as_slice();
    if !are_words(words) {
        return None;
    }
    match words {
        [command, config, keys, log, first, second, rest @ ..] => {
            let sources = Sources {
                config: config.as_str(),
                keys: keys.as_str(),
                log: log.as_str(),
            };
            service_in(
                command.as_str(),
                sources,
                first.as_str(),
                second.as_str(),
                rest,
            )
        }
        [command, config, keys, log, peer] => {
            let sources = Sources {
                config: config.as_str(),
                keys: keys.as_str(),
                log: log.as_str(),
            };
            meeting_in(command.as_str(), sources, peer.as_str())
        }
        _ => None,
    }
}

/// The run of a node that the command asks for, by the one word after the names of its files.
#[tactic(auto, unfolding(crate::specs::Services::meeting_in))]
fn meeting_in<'w>(command: &str, sources: Sources<'w>, peer: &'w str) -> Option<NodeCommand<'w>>
    ensures { asked_service result ≡ meeting_in command.now (names_of sources.entry) peer.now }
{
    match command {
        "meet" => Some(NodeCommand::Meet { sources, peer }),
        _ => None,
    }
}

/// The run of a node that the command asks for, by the two words and the rest after the names of its files.
#[tactic(auto, unfolding(crate::specs::Services::service_in))]
fn service_in<'w>(
    command: &str,
    sources: Sources<'w>,
    first: &'w str,
    second: &str,
    rest: &'w [String],
) -> Option<NodeCommand<'w>>
    ensures { asked_service result ≡ service_in command.now (names_of sources.entry) first.now second.now (map string_bytes rest.now) }
{
    match command {
        "serve" => Some(NodeCommand::Serve {
            sources,
            address: first,
            sessions: sessions_of(second, rest)?,
        }),
        "host" => Some(NodeCommand::Host {
            sources,
            address: first,
            sessions: sessions_of(second, rest)?,
        }),
        "run" => turns_of(sources, first, second, rest),
        _ => None,
    }
}

/// How many sessions the word gives, where that is in its range and no word comes after it.
fn sessions_of(sessions: &str, rest: &[String]) -> Option<u64>
    ensures { result ≡ sessions_of (number_below 65537 sessions.now) (map string_bytes rest.now) }
{
    let sessions = number_up_to(MAX_SESSIONS, sessions.as_bytes())?;
    if sessions == 0 || !rest.is_empty() {
        return None;
    }
    Some(sessions)
}

/// A run of the validator `me` for `turns` turns with the peers at these addresses, where each is in its range.
fn turns_of<'w>(
    sources: Sources<'w>,
    me: &str,
    turns: &str,
    peers: &'w [String],
) -> Option<NodeCommand<'w>>
    ensures { asked_service result ≡ turns_of (names_of sources.entry) (number_below 1024 me.now) (number_below 1000001 turns.now) (map string_bytes peers.now) }
{
    let me = number_up_to(MAX_VALIDATOR, me.as_bytes())?;
    let turns = number_up_to(MAX_TURNS, turns.as_bytes())?;
    if turns == 0 || peers.is_empty() || peers.len() > MAX_PEERS {
        return None;
    }
    Some(NodeCommand::Run {
        sources,
        me: me as u32,
        turns,
        peers,
    })
}
