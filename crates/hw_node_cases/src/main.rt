//! What is made of nodes and their journals answers for the lines of the input.
//!
//! A line `section NAME` begins a section: from there on the group of that name answers each line, until another
//! section begins. A section begins with nothing that an earlier one left. Each group's own page says which lines it
//! has, and what they answer.
//!
//! | Section | What answers |
//! |---|---|
//! | `node` | needs, certificates, consumers, and clusters of nodes |
//! | `eras` | eras of nodes, their audits, and runs over their logs |
//! | `meeting` | nodes that meet, and their frames |
//! | `session` | nodes with a log, that serve, take turns and meet others |
#![tactic(auto)]

mod eras;
mod meeting;
mod node;
mod paced;
mod receipts;
mod session;
mod spelled;

use hw_case_words::{Answer, Sections, answer_all};
use hw_core::Core;
use hw_eras::Eras;
use hw_session::Node;
use std::io;

/// A section of the input, with what its lines left so far.
#[derive(Drop)]
enum Section {
    /// Before the first line that names one.
    Unnamed,
    Node(Vec<Core>),
    Eras(Vec<Eras>),
    Meeting(Vec<Core>),
    Session(Vec<Node>),
}

fn main(rt: HostRuntime) -> io::Result<()> {
    let mut section = Section::Unnamed;
    answer_all(&rt, &mut section)
}

impl Sections<HostRuntime> for Section {
    fn begin(&mut self, answer: &mut Answer, name: &str) {
        *self = match name {
            "node" => Section::Node(Vec::new(answer.alloc())),
            "eras" => Section::Eras(Vec::new(answer.alloc())),
            "meeting" => Section::Meeting(Vec::new(answer.alloc())),
            "session" => Section::Session(Vec::new(answer.alloc())),
            _ => {
                answer.refuse();
                Section::Unnamed
            }
        };
    }

    fn tell(&mut self, _rt: &HostRuntime, answer: &mut Answer, line: &str) {
        match self {
            Section::Node(nodes) => node::tell(answer, nodes, line),
            Section::Eras(nodes) => eras::tell(answer, nodes, line),
            Section::Meeting(nodes) => meeting::tell(answer, nodes, line),
            Section::Session(nodes) => session::tell(answer, nodes, line),
            Section::Unnamed => answer.refuse(),
        }
    }
}
