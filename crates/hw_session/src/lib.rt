//! A node that stores what it received in a log.
//!
//! A [`Node`] starts from its log, or begins a new one. What it accepts goes last in its journal, and then
//! its entry goes last in the log, before anything else is answered. So a node that starts again from its
//! log goes on where it was. A unit whose entry is torn was never handed out.
//!
//! It serves a peer frame by frame. What it does at a frame is a reaction of the definitions. A session is
//! the talk of these reactions over the frames of the peer's bytes, however the reads are cut.
#![tactic(auto)]

mod accept;
mod answer;
mod drive;
mod entry;
mod fault;
mod laws;
mod make;
mod node;
mod peer;
mod recall;
mod say;
mod serve;
mod stage;
mod start;

pub use fault::{AcceptFault, MakeFault};
pub use hw_keys::{Keys, KeysFault};
pub use hw_link::SessionEnd;
pub use hw_replay::StartFault;
pub use laws::{a_log_gives_its_journal_back, a_node_keeps_the_log_of_its_journal};
pub use make::MadeUnit;
pub use node::{ClashUnits, Node};
pub use recall::recall_core;
pub use stage::PeerMark;
pub use start::{fault_of_read, name_of};
