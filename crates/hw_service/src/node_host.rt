//! A node that runs.

use hw_replay::Fanout;
use hw_session::Node;

/// A node, and what is kept of its consumers.
#[derive(Drop)]
pub(crate) struct Host {
    /// The node.
    pub node: Node,
    /// How far its consumers are, and which were dropped.
    pub fanout: Fanout,
}
