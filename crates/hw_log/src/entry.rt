//! An entry of a log.

use hw_types::{Digest, Vertex};

/// One vertex that came, with the verdict on its signatures.
#[derive(Drop)]
pub struct LogEntry {
    /// The place in the file of the entry's first byte.
    pub at: u64,
    pub verdict: bool,
    pub vertex: Vertex,
}

/// An entry of a log, and the name of its unit where that was worked out when the entry was read. Its vertex stands in
/// a box: it is large, and moved from call to call.
#[derive(Drop)]
pub struct NamedEntry {
    /// The place in the file of the entry's first byte.
    pub at: u64,
    pub verdict: bool,
    pub vertex: Box<Vertex>,
    pub name: Option<Digest>,
}
