//! Log files: a header with the configuration, and then one entry for each vertex.
//!
//! `specs/Grammar.antt` has the whole grammar, as a relation of bytes and what they say. The function of
//! `specs/Log.antt` gives just that, and a [`LogReader`] gives its answers one entry at a time, however
//! the reads of the file are cut. Its memory does not grow with the file.
//!
//! A log of version 2 tells a unit by what changed since its creator's last unit in the log, where
//! it goes on from that one. [`Lasts`] keeps what that takes of the last unit of each validator.
//!
//! A log can be written anew, into a file that isn't there yet: [`mend`] leaves its torn end out, [`migrate`] writes it
//! in version 2. No vertex is delivered to a node then: a log above its own limits, and one with units that break rules,
//! are written whole. The log is read to its end before the first byte is written.
#![tactic(auto)]

mod ahead;
mod entry;
mod error;
mod fault;
mod file;
mod following;
mod head;
mod held;
mod lasts;
mod laws;
mod measure;
mod mending;
mod migrating;
mod name;
mod reader;
mod rewritten;
mod spelling;
mod target;
mod whole;
mod writer;

pub use entry::{LogEntry, NamedEntry};
pub use error::LogError;
pub use fault::RewriteFault;
pub use file::read_file;
pub use lasts::{Lasts, Noted};
pub use laws::{
    a_header_is_an_empty_log, a_log_is_what_it_says_as_written, a_log_written_anew_says_the_same,
    a_vertex_is_read_where_it_is_spelled, an_append_adds_the_entry, logs_and_errors_are_there,
    what_is_written_is_said, whole_entries_stand_before_a_cut, writes_is_log_of,
};
pub use mending::mend;
pub use migrating::migrate;
pub use reader::LogReader;
pub use whole::{Log, read_log};
pub use writer::{append_entry, append_header, entry_bytes};
