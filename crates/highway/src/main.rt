//! The program: its top call, over the real files, output and arguments.
#![tactic(auto)]

mod certificate;
mod node_log;
mod usage;

use certificate::tell_origin;
use hw_host::{
    Announced, BlockCount, HostClock, HostDoor, HostSink, LogFile, NO_LIMIT, NodeFiles, ToldFiles,
    ValueFile,
};
use hw_io::Consumer;
use hw_program::{Command, NodeCommand, OUT_OF_MEMORY, Request, Words, highway};
use hw_types::OutOfMemory;
use node_log::{Ahead, NodeFileNames, look_ahead};
use std::env;
use std::io::ErrorKind;
use std::process::ExitCode;
use std::rt::Env;
use usage::tell_usage;

/// The status of words that are in no command's grammar.
const USAGE: u8 = 1;

/// A script, a configuration and a list of keys have at most this many bytes: 512 for each of the 131,072
/// vertices of a journal.
pub(crate) const SHORT_FILE: usize = 67_108_864;

/// A certificate that is to be checked has at most this many bytes: 4,096 for each of its 131,072 vertices.
const CERTIFICATE: usize = 536_870_912;

fn main(rt: HostRuntime) -> ExitCode {
    ExitCode::from(run(rt).unwrap_or(OUT_OF_MEMORY))
}

/// Runs with the words after the program's name.
fn run(rt: HostRuntime) -> Result<u8, OutOfMemory> {
    let words = command_line(&rt)?;
    run_on_host(rt, &words)
}

/// Runs over the files, the output, the clock and the network of the host. The values of decided blocks go into a
/// file, and their count onto standard error; a consumer that is dropped is reported there. Where the words ask to
/// serve or to host, the door listens at their address. The log of a node that runs is appended to by this process
/// alone, and is held against the keys before the node starts. So is each vertex of a peer that doesn't go into the log.
fn run_on_host(rt: HostRuntime, words: &Words) -> Result<u8, OutOfMemory> {
    let alloc = rt.alloc();
    let request = Request::of(words);
    let values = ValueFile::new(alloc, ToldFiles::new(rt));
    let count = BlockCount::new(alloc, HostSink::new(rt.stderr()));
    let mut consumers: Vec<Box<dyn Consumer>> = Vec::new(alloc);
    consumers.push(Box::new(alloc, Announced::new(rt, 0, values))?)?;
    consumers.push(Box::new(alloc, Announced::new(rt, 1, count))?)?;
    let log = match request.log_of_node() {
        Some(name) => Some(LogFile::new(alloc, name)?),
        None => None,
    };
    let ahead = match (&request, &log) {
        (Request::Node(command), Some(log)) => look_ahead(rt, names_of(command), log),
        _ => Ahead::nothing(),
    };
    let mut files = NodeFiles::new(rt, log.as_ref()).within(
        limit_of(&request),
        long_file(&request),
    );
    let mut out = HostSink::new(rt.stdout());
    let mut clock = HostClock::of_turns(rt, log.as_ref(), ahead.round);
    let mut door = door_of(rt, &request)
        .behind(log.as_ref())
        .holding(ahead.keys);
    let status = highway(
        alloc,
        words,
        &mut files,
        &mut out,
        &mut clock,
        &mut door,
        &mut consumers,
    );
    if status == USAGE {
        tell_usage(&rt, words.as_slice(), &request);
    }
    if let Request::Work(Some(Command::Check { file, .. })) = &request {
        tell_origin(rt, *file);
    }
    if let Some(error) = out.error() {
        let _ = eprintln!(rt; "highway: standard output: {error}");
    }
    Ok(status)
}

/// The files of a node.
fn names_of<'w>(command: &NodeCommand<'w>) -> NodeFileNames<'w> {
    let sources = command.sources();
    NodeFileNames {
        config: sources.config,
        keys: sources.keys,
        log: sources.log,
    }
}

/// The door of a node: it listens at the address of the words, if there is one, and is for meetings where the words are
/// of one.
fn door_of<'w>(rt: HostRuntime, request: &Request<'w>) -> HostDoor<'w, HostRuntime> {
    let door = match request.listening_address() {
        Some(address) => HostDoor::new(rt, address),
        None => HostDoor::without_address(rt),
    };
    match request {
        Request::Node(NodeCommand::Host { .. } | NodeCommand::Meet { .. }) => door.for_meetings(),
        _ => door,
    }
}

/// The log that is read bit by bit, where the other files are read at once.
fn long_file<'w>(request: &Request<'w>) -> Option<&'w str> {
    match request {
        Request::Work(Some(Command::CheckLog { log, .. })) => Some(*log),
        _ => request.log_of_node(),
    }
}

/// How many bytes a file may have that is read at once.
fn limit_of(request: &Request<'_>) -> usize {
    match request {
        Request::Work(Some(Command::Check { .. } | Command::CheckLog { .. })) => CERTIFICATE,
        Request::Work(Some(Command::Script { .. })) | Request::Node(_) => SHORT_FILE,
        Request::Work(_) => NO_LIMIT,
    }
}

/// The words after the program's name. Where one is no text, there are none, so that they aren't in
/// the grammar.
fn command_line(rt: &(impl Env + AllocGlobal)) -> Result<Words, OutOfMemory> {
    let mut words = Words::new(rt.alloc());
    match env::args(rt) {
        Ok(arguments) => {
            for argument in arguments.skip(1) {
                words.push(argument.as_str())?;
            }
            Ok(words)
        }
        Err(error) if error.kind() == ErrorKind::InvalidData => Ok(words),
        Err(_) => Err(OutOfMemory),
    }
}
