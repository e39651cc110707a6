//! Why a vertex is refused in an era, and why the next era isn't opened.

use hw_types::{Cause, Vertex};

/// Why a vertex was refused.
#[derive(Clone, Copy, Debug, PartialEq, Eq)]
pub enum EraCause {
    /// There is no such era.
    UnknownEra,
    /// The node of the era refused it.
    Core(Cause),
}

/// A vertex that was refused, and why.
#[derive(Drop)]
pub struct EraRefused {
    pub cause: EraCause,
    pub vertex: Vertex,
}

/// Why the next era wasn't opened.
#[derive(Clone, Copy, Debug, PartialEq, Eq)]
pub enum EraOpen {
    /// There are 64 eras, and a node has no more.
    Full,
    /// There was no memory.
    OutOfMemory,
}
