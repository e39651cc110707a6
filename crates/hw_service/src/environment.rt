//! What a node works with outside of itself.

use hw_io::{Clock, Door, Files, Sink};

/// What a node works with outside of itself: its files, its output, the clock, and the door to its peers.
#[derive(Drop)]
pub struct Environment<'f, 'o, 'c, 'd, F: Files, S: Sink, C: Clock, D: Door> {
    /// The files with its log.
    pub files: &'f mut F,
    /// Its output.
    pub out: &'o mut S,
    /// The clock that gives the moments of its units.
    pub clock: &'c mut C,
    /// The door to its peers.
    pub door: &'d mut D,
}
