//! The keys of all validators.

ghost use Rattle.std.specs.{Prelude.{◌≡◌, ◌⊎◌, ◌<◌, ◌++◌, List, length, slice_index_or, [], Ok, Err, IfOk, IfErr}, Prelude.{ℕ}};
ghost use Rattle.sha2.specs.Sha256.{sha256};
ghost use Rattle.hw_types.specs.Spelling.{Fits, VertexFits, digest_of};
ghost use Rattle.hw_types.specs.declared.unit.Vertex.TheVariants as vertex;
ghost use Rattle.hw_keys.specs.{Keys.{IsTextOf, IsFaultOf, HasNoFault}, Signed.{unit_signature, endorsement_signature, endorsed_digest, is_signed, is_endorsed, verdict_of}};

use crate::fault::KeysFault;
use crate::text::{DIGITS, LINE, first_fault, key_of};
use hw_codec::digest_of;
use hw_types::{Digest, Endorsement, OutOfMemory, Signature, SignedUnit, Vertex};
use sha2::{Digest as _, Sha256};
use std::alloc::Global;
use std::marker::Model;

/// The keys of all validators, in their order. Contracts see them as a list of byte strings.
#[derive(Drop)]
pub struct Keys {
    keys: Vec<[u8; 32]>,
}

impl Model for Keys {
    ghost use Rattle.std.specs.Prelude.{ℕ, List};

    ghost Value = { List (List ℕ) };

    ghost view = { λ k. k.keys.items };
}

impl Keys {
    /// The keys that the text tells, one for each validator.
    ///
    /// The text has a line for each key, 64 hexadecimal digits in lower case and a line feed, and
    /// nothing else. `At` answers the place of the first byte that can't stand where it stands, or
    /// the length of a text that is too short.
    pub fn read(alloc: Global, text: &[u8], validators: u32) -> Result<Keys, KeysFault>
        // What is read is told so, every byte of the text.
        ensures ok { IfOk result (IsTextOf validators text.now) }

        // What is told so is read, unless memory runs out.
        ensures read { (keys : List (List ℕ)) → IsTextOf validators text.now keys → (result ≡ Ok keys) ⊎ (result ≡ Err KeysFault.OutOfMemory) }

        // The place is the first one that is wrong.
        ensures at { IfErr result (IsFaultOf validators text.now) }
    {
        match first_fault(validators, text) {
            Some(place) => Err(KeysFault::At(place as u64)),
            None => Ok(Keys::in_lines(alloc, text, validators)?),
        }
    }

    /// The keys of a text in which nothing is wrong.
    fn in_lines(alloc: Global, text: &[u8], validators: u32) -> Result<Keys, OutOfMemory>
        requires { HasNoFault validators text.now }
        ensures { IfOk result (IsTextOf validators text.now) }
    {
        let mut keys = Vec::new(alloc);
        for index in 0..validators as usize {
            let start = LINE * index;
            keys.push(key_of(&text[start..start + DIGITS]))?;
        }
        Ok(Keys { keys })
    }

    /// What the creator signs for the unit of this digest. The creator is a validator.
    pub fn sign_unit(&self, creator: u32, unit: &Digest) -> Signature
        requires { creator < length self.now }
        ensures { result ≡ unit_signature unit.now (slice_index_or self.now creator []) }
    {
        unit_signature(&self.keys[creator as usize], unit)
    }

    /// What the endorser signs for its endorsement of the unit. The endorser is a validator.
    pub fn sign_endorsement(&self, endorser: u32, unit: &Digest) -> Signature
        requires { endorser < length self.now }
        ensures { result ≡ endorsement_signature unit.now endorser (slice_index_or self.now endorser []) }
    {
        endorsement_signature(&self.keys[endorser as usize], unit, endorser)
    }

    /// Whether each signer of the vertex is a validator and each signature is its own.
    ///
    /// Units in the vertex keep the limits of their format.
    #[tactic(auto, unfolding(crate::specs::Signed::verdict_of))]
    pub fn verdict(&self, vertex: &Vertex) -> Result<bool, OutOfMemory>
        requires { VertexFits vertex.now }
        ensures { IfOk result (λ verdict. verdict ≡ verdict_of self.now vertex.now) }
    {
        match vertex {
            Vertex::Unit(signed) => self.is_signed(signed),
            Vertex::Evidence(evidence) => {
                Ok(self.is_signed(&evidence.left)? && self.is_signed(&evidence.right)?)
            }
            Vertex::Endorsement(endorsement) => Ok(self.is_endorsed(endorsement)),
        }
    }

    /// Whether the unit of this name is signed by its creator. It isn't hashed again.
    #[tactic(auto, unfolding(crate::specs::Signed::verdict_of))]
    pub fn has_signed(&self, signed: &SignedUnit, name: &Digest) -> bool
        requires { name.now ≡ digest_of signed.now.unit }
        ensures signed { result ≡ is_signed self.now signed.now }
        ensures verdict { result ≡ verdict_of self.now (vertex.Unit signed.now) }
    {
        match self.keys.get(signed.unit.creator as usize) {
            None => false,
            Some(key) => signed.signature.0 == unit_signature(key, name).0,
        }
    }

    /// Whether the unit is signed by its creator.
    fn is_signed(&self, signed: &SignedUnit) -> Result<bool, OutOfMemory>
        requires { Fits signed.now.unit }
        ensures { IfOk result (λ answer. answer ≡ is_signed self.now signed.now) }
    {
        let name = digest_of(*self.keys.allocator(), &signed.unit)?;
        Ok(self.has_signed(signed, &name))
    }

    /// Whether the endorsement is signed by its endorser.
    fn is_endorsed(&self, endorsement: &Endorsement) -> bool
        ensures { result ≡ is_endorsed self.now endorsement.now }
    {
        match self.keys.get(endorsement.endorser as usize) {
            None => false,
            Some(key) => {
                let made = endorsement_signature(key, &endorsement.unit, endorsement.endorser);
                endorsement.signature.0 == made.0
            }
        }
    }
}

/// What the owner of the key signs for a unit of this digest.
fn unit_signature(key: &[u8; 32], unit: &Digest) -> Signature
    ensures { result ≡ unit_signature unit.now key.now }
{
    let mut hasher = Sha256::new();
    hasher.update(key.as_slice());
    hasher.update(unit.0.as_slice());
    Signature(hasher.finalize())
}

/// What is signed of an endorsement.
fn endorsed_digest(unit: &Digest, endorser: u32) -> [u8; 32]
    ensures { result ≡ endorsed_digest unit.now endorser }
{
    let mut hasher = Sha256::new();
    hasher.update("endorse".as_bytes());
    hasher.update(unit.0.as_slice());
    hasher.update(endorser.to_be_bytes().as_slice());
    hasher.finalize()
}

/// What the owner of the key signs for an endorsement of the unit.
fn endorsement_signature(key: &[u8; 32], unit: &Digest, endorser: u32) -> Signature
    ensures { result ≡ endorsement_signature unit.now endorser key.now }
{
    let mut hasher = Sha256::new();
    hasher.update(key.as_slice());
    hasher.update(endorsed_digest(unit, endorser).as_slice());
    Signature(hasher.finalize())
}
