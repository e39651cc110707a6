//! Configurations and units as the lines of worked cases give them, and the answers to lines, for the programs that run
//! such lines.
#![tactic(auto)]

mod answer;
mod config;
mod sections;
mod unit;
mod vertex;
mod words;

pub use answer::Answer;
pub use config::config_of;
pub use sections::{Sections, answer_all};
pub use unit::{number_in, own_observation, panorama_of, plain_unit, signed, unit_of};
pub use vertex::is_in_format;
pub use words::{
    after, byte, digest_of_byte, digest_with, lines_of, named, no_signature, number, number_of,
    patch, put_at, small, until_key, with_line_feeds,
};
