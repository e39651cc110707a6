//! Certificates.

use hw_types::{Config, Digest, Items, Vertex};

/// Vertices.
pub type VertexList = Items<Vertex>;

/// A block, and vertices that give it a summit for a node that takes them in turn.
#[derive(Drop)]
pub struct Certificate {
    /// The configuration of the block's instance.
    pub config: Config,
    /// The digest of the block.
    pub block: Digest,
    /// The vertices, each after what it needs.
    pub vertices: VertexList,
}
