//! What the words of a command line ask for.

ghost use Rattle.std.specs.{Prelude.{◌≡◌}, Option.{option_copied}};
ghost use Rattle.hw_commands.specs.Commands.{request_of};
ghost use Rattle.hw_program.specs.{Services.{service_of, address_in, log_in}, Requested.{worked_request, node_request, HasRange}};

use crate::services::{NodeCommand, service_of};
use hw_commands::{Command, Words, command_of};

/// What the words of a command line ask for.
#[derive(Drop)]
pub enum Request<'w> {
    /// A node is to run.
    Node(NodeCommand<'w>),
    /// The end and the text of a command are to be worked out from its words and what the files hold. Words that
    /// are in no command's grammar ask for no command, and are answered with the usage.
    Work(Option<Command<'w>>),
}

impl<'w> Request<'w> {
    /// What these words ask for. No words are in the grammars of two commands.
    pub fn of(words: &'w Words) -> Request<'w>
        ensures work { worked_request result ≡ request_of words.now }
        ensures node { node_request result ≡ service_of words.now }
        ensures range { HasRange result }
    {
        match service_of(words) {
            Some(command) => Request::Node(command),
            None => Request::Work(command_of(words)),
        }
    }

    /// The log of the node that is to run.
    pub fn log_of_node(&self) -> Option<&'w str>
        ensures { option_copied result ≡ log_in (node_request self.now) }
    {
        match self {
            Request::Node(command) => Some(command.sources().log),
            Request::Work(_) => None,
        }
    }

    /// The address at which the node is to listen for peers, if it is asked to serve, or to meet peers that come.
    pub fn listening_address(&self) -> Option<&'w str>
        ensures { option_copied result ≡ address_in (node_request self.now) }
    {
        match self {
            Request::Node(NodeCommand::Serve { address, .. } | NodeCommand::Host { address, .. }) =>
                Some(*address),
            _ => None,
        }
    }
}
