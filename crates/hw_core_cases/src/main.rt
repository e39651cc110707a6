//! What the layers up to one node and its journal answer for the lines of the input.
//!
//! A line `section NAME` begins a section: from there on the group of that name answers each line, until another
//! section begins. A section begins with nothing that an earlier one left. Each group's own page says which lines it
//! has, and what they answer.
//!
//! | Section | What answers |
//! |---|---|
//! | `script` | scripts |
//! | `leaf` | the small layers, the codec, keys and settings |
//! | `log` | logs, logs that are written anew, and the outside in memory |
//! | `graph` | the layers of the graph, and the validator's step |
//! | `journal` | a node and its journal |
//! | `bench` | the speed of the codec |
//! | `host` | the real files, output, clock, door and consumers |
//!
//! The speed is measured by hand, with the lines `section bench` and `measure 20000` as the input.
#![tactic(auto)]

mod bench;
mod graph;
mod host;
mod journal;
mod leaf;
mod log;
mod script;

use crate::journal::Node;
use hw_admit::State;
use hw_case_words::{Answer, Sections, answer_all};
use std::io;

/// A section of the input, with what its lines left so far.
#[derive(Drop)]
enum Section {
    /// Before the first line that names one.
    Unnamed,
    Script,
    Leaf,
    Log,
    Graph(Option<State>),
    Journal(Vec<Node>),
    Bench,
    Host,
}

fn main(rt: HostRuntime) -> io::Result<()> {
    let mut section = Section::Unnamed;
    answer_all(&rt, &mut section)
}

impl Sections<HostRuntime> for Section {
    fn begin(&mut self, answer: &mut Answer, name: &str) {
        *self = match name {
            "script" => Section::Script,
            "leaf" => Section::Leaf,
            "log" => Section::Log,
            "graph" => Section::Graph(None),
            "journal" => Section::Journal(Vec::new(answer.alloc())),
            "bench" => Section::Bench,
            "host" => Section::Host,
            _ => {
                answer.refuse();
                Section::Unnamed
            }
        };
    }

    fn tell(&mut self, rt: &HostRuntime, answer: &mut Answer, line: &str) {
        match self {
            Section::Script => script::tell(*rt, answer, line),
            Section::Leaf => leaf::tell(answer, line),
            Section::Log => log::tell(answer, line),
            Section::Graph(held) => graph::tell(answer, held, line),
            Section::Journal(nodes) => journal::tell(answer, nodes, line),
            Section::Bench => bench::tell(*rt, answer, line),
            Section::Host => host::tell(*rt, answer, line),
            Section::Unnamed => answer.refuse(),
        }
    }
}
