//! The run of a node: it starts, serves sessions, meets others one after the other or takes turns, and reports.
//!
//! In a session a peer is served, or a peer is dialled and answers. In a meeting two nodes that were apart send each
//! other a summary of what they have of each validator. Then each sends what the other lacks. After each session or
//! meeting the consumers are passed what is decided now, and then its line is written.
#![tactic(auto)]

mod begin;
mod close;
mod end;
mod ended;
mod environment;
mod fault;
mod hosting;
mod lines;
mod meeting;
mod node_host;
mod node_meet;
mod own;
mod peer;
mod serving;
mod sessions;
mod taker;
mod talk;
mod turns;

pub use begin::Sources;
pub use ended::Served;
pub use environment::Environment;
pub use fault::ServiceFault;
pub use hosting::host;
pub use meeting::meet;
pub use node_meet::{host_node, meet_node};
pub use peer::Peer;
pub use serving::serve;
pub use sessions::{Sessions, hold_sessions};
pub use taker::NodeTaker;
pub use talk::Talk;
pub use turns::run;
