//! The outside of the program on a real machine: files, standard output, the clock, and TCP.
//!
//! Each type keeps the contract of its trait in `hw_io`, and promises nothing of content. The crate is apart, so that
//! nothing below the program depends on how the machine is reached. The program's two consumers are here too: the
//! values of decided blocks go into a file, and their count onto an output.
#![tactic(auto)]

mod addresses;
mod announced;
mod appended;
mod clock;
mod complaints;
mod count;
mod door;
mod failures;
mod files;
mod hung;
mod journal;
mod known;
mod log;
mod networks;
mod node_files;
mod patience;
mod session;
mod signatures;
mod suspects;
mod told_files;
mod values;
mod waiting;
mod wants;

pub use announced::Announced;
pub use clock::HostClock;
pub use complaints::Voice;
pub use count::BlockCount;
pub use door::HostDoor;
pub use files::{HostFiles, HostSink};
pub use log::LogFile;
pub use node_files::{NO_LIMIT, NodeFiles};
pub use told_files::ToldFiles;
pub use values::{BLOCKS_FILE, ValueFile};
