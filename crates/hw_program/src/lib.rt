//! The program over any outside: one top call, which runs the command that its words ask for.
//!
//! [`Request::of`] is the parser of the words, for the top call and for what is built outside.
//!
//! The commands that are worked out from their words and what the files hold are hw_commands'. A run of a node isn't:
//! what is written in it depends on sessions and moments.
//! `specs/Services.antt` has its part of the grammar, and `specs/Served.antt` says what it comes to, by what a run of
//! hw_service comes to, and how it ends.
#![tactic(auto)]

mod ends;
mod request;
mod run;
mod run_turns;
mod services;

pub use hw_commands::{
    Command, MAX_LOGS, MAX_NODES, MAX_ROUNDS, MAX_STEPS, OUT_OF_MEMORY, Words, is_word,
};
pub use request::Request;
pub use run::highway;
pub use services::{MAX_SESSIONS, MAX_TURNS, MAX_VALIDATOR, NodeCommand};
