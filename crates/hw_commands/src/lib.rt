//! The commands whose end and text are worked out from their words and what the files hold.
//!
//! [`command_of`] is the parser of their words, and [`work`] runs them. Each command has a module here, alone or with
//! one like it.
//!
//! `specs/Program.antt` says how a run ends and what it writes, and `specs/Files.antt` what it leaves of the files.
//! Each command is one case in both, and one variant of [`Command`]. `specs/Fed.antt` says what a command that calls
//! consumers gives them, and which of them its text names.
//!
//! How a run ends (its status, and the lines of what went wrong) is the same for the commands of nodes.
#![tactic(auto)]

mod audit;
mod certify;
mod check;
mod command;
mod digits;
mod ended;
mod eras;
mod explain;
mod faults;
mod laws;
mod replay;
mod rewrite;
mod script;
mod texts;
mod words;
mod working;
mod workloads;

pub use command::{
    Command, MAX_LOGS, MAX_NODES, MAX_ROUNDS, MAX_STEPS, are_words, command_of, is_word,
};
pub use ended::{
    CLASH, CONFLICT, DONE, Ended, INPUT, LIMIT, LINK_FAULT, NO, OUT_OF_MEMORY, READ_FAULT,
    RunFault, USAGE, WRITE_FAULT,
};
pub use faults::{bad_keys, clash, input, input_end, stopped, usage};
pub use laws::{
    a_conflict_is_reported, a_migrated_log_reads_the_same, an_audit_tells_the_verdict,
    an_era_audit_tells_the_verdict, certificates_are_answered,
};
pub use words::Words;
pub use working::{APPEND_FAULT_LINE, READ_FAULT_LINE, finish, out_of_memory, work};
