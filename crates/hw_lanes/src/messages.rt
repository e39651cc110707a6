//! Messages that are hashed together.

ghost use Rattle.std.specs.Prelude.{◌≡◌, [], ◌∷◌, ◌++◌, length, map, All, IfOk, OnOk, OnErr};
ghost use Rattle.sha2.specs.Sha256.{sha256};
ghost use Rattle.hw_lanes.specs.Pieces.{IsWithin, part_of};

use crate::pieces::{Part, digests_of};
use std::alloc::{AllocError, Global};
use std::marker::Model;

/// Messages, one behind the other in a buffer. Contracts see them as a list.
#[derive(Drop)]
pub struct Messages {
    bytes: Vec<u8>,
    parts: Vec<Part>,
}

impl Model for Messages {
    ghost use Rattle.std.specs.Prelude.{ℕ, List, length, map, All};
    ghost use Rattle.hw_lanes.specs.Pieces.{IsWithin, part_of};

    ghost Value = { List (List ℕ) };

    ghost view = { λ m. map (part_of m.bytes.items) m.parts.items };

    ghost invariant = { λ m. All (IsWithin (length m.bytes.items)) m.parts.items };
}

impl Messages {
    /// None yet.
    pub fn new(alloc: Global) -> Messages
        ensures { result ≡ [] }
    {
        Messages {
            bytes: Vec::new(alloc),
            parts: Vec::new(alloc),
        }
    }

    /// Puts a message last. Where there is no memory, the messages stay as they were.
    pub fn push(&mut self, message: &[u8]) -> Result<(), AllocError>
        ensures ok { OnOk result (self.new ≡ self.old ++ message.now ∷ []) }
        ensures err { OnErr result (self.new ≡ self.old) }
    {
        let start = self.bytes.len();
        self.bytes.extend_from_slice(message)?;
        let end = self.bytes.len();
        self.parts.push(Part { start, end })?;
        Ok(())
    }

    /// The SHA-256 digest of each message, in their order.
    pub fn digests(&self) -> Result<Vec<[u8; 32]>, AllocError>
        ensures { IfOk result (λ digests. digests.items ≡ map sha256 self.now) }
    {
        let digests = digests_in(
            *self.bytes.allocator(),
            self.bytes.as_slice(),
            self.parts.as_slice(),
        )?;
        Ok(digests)
    }
}

/// The SHA-256 digest of each of these parts of the bytes, in their order.
pub fn digests_in(alloc: Global, bytes: &[u8], parts: &[Part]) -> Result<Vec<[u8; 32]>, AllocError>
    requires { All (IsWithin (length bytes.now)) parts.now }
    ensures { IfOk result (λ digests. digests.items ≡ map (λ part. sha256 (part_of bytes.now part)) parts.now) }
{
    let mut digests = Vec::new(alloc);
    digests.resize(parts.len(), [0; 32])?;
    digests_of(bytes, parts, digests.as_mut_slice());
    Ok(digests)
}
