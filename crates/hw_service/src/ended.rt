//! The outcome of a run that ends with its report.

/// The outcome of a run that ends with its report.
#[derive(Clone, Copy, Debug, PartialEq, Eq)]
pub struct Served {
    /// The number of vertices of peers and own units that met a limit.
    pub limits: u64,
    /// Whether a call of the door failed in a session.
    pub link_failed: bool,
}
