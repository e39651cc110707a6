//! A node, and the vertices that lines defined for it.

use hw_core::Core;
use hw_types::{Digest, SignedUnit, Vertex};

/// A node, its instance, and the vertices under their names.
#[derive(Drop)]
pub struct Node {
    pub core: Core,
    pub instance: Digest,
    pub names: Vec<Named>,
}

/// A vertex that a line defined.
#[derive(Drop)]
pub struct Named {
    pub name: String,
    /// The digest of a unit.
    pub digest: Option<Digest>,
    pub vertex: Vertex,
}

/// The vertex of this name.
pub fn find<'a>(names: &'a [Named], name: &str) -> Option<&'a Named> {
    for named in names {
        if named.name.as_str() == name {
            return Some(named);
        }
    }
    None
}

/// The digest of the unit of this name.
pub fn digest_named(names: &[Named], name: &str) -> Option<Digest> {
    find(names, name)?.digest
}

/// The unit of this name.
pub fn unit_named<'a>(names: &'a [Named], name: &str) -> Option<&'a SignedUnit> {
    match &find(names, name)?.vertex {
        Vertex::Unit(unit) => Some(unit),
        Vertex::Evidence(_) => None,
        Vertex::Endorsement(_) => None,
    }
}

/// The unit of this digest.
pub fn with_digest<'a>(names: &'a [Named], digest: &Digest) -> Option<&'a Named> {
    for named in names {
        if named.digest == Some(*digest) {
            return Some(named);
        }
    }
    None
}

/// The name of the unit of this digest.
pub fn word_of<'a>(names: &'a [Named], digest: &Digest) -> &'a str {
    match with_digest(names, digest) {
        Some(named) => named.name.as_str(),
        None => "?",
    }
}
