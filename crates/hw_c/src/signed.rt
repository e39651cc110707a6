//! Who signed a vertex, and which units. A caller checks these signatures before it delivers the vertex.

ghost use Rattle.std.specs.Prelude.{◌≡◌, IfOk};
ghost use Rattle.hw_types.specs.Spelling.{Fits, VertexFits};
ghost use Rattle.hw_c.specs.{Answers.{signer_of, signed_of, no_signer}, Calls.{IsSigned, IsEndorsement}};

use crate::codes::Fault;
use hw_codec::{decode_vertex, digest_of, encode_vertex};
use hw_types::{Bytes, Digest, Endorsement, OutOfMemory, Signature, SignedUnit, Vertex};
use std::alloc::Global;

/// A validator's signature of the digest of a unit.
#[repr(C)]
#[derive(Clone, Copy)]
pub struct Signer {
    pub validator: u32,
    pub unit: [u8; 32],
    pub signature: [u8; 32],
}

/// The signatures of a vertex: one, or two where it is an evidence.
#[repr(C)]
#[derive(Clone, Copy)]
pub struct Signed {
    pub kind: u32,
    pub first: Signer,
    pub second: Signer,
}

/// Who signed the vertex, and which units.
pub fn signed_of(alloc: Global, vertex: &Vertex) -> Result<Signed, OutOfMemory>
    requires { VertexFits vertex.now }
    ensures { IfOk result (λ signed. signed ≡ signed_of vertex.now) }
{
    match vertex {
        Vertex::Unit(unit) => {
            let first = signer_of(alloc, unit)?;
            Ok(Signed {
                kind: 0,
                first,
                second: no_signer(),
            })
        }
        Vertex::Evidence(evidence) => {
            let first = signer_of(alloc, &evidence.left)?;
            let second = signer_of(alloc, &evidence.right)?;
            Ok(Signed {
                kind: 1,
                first,
                second,
            })
        }
        Vertex::Endorsement(endorsement) => Ok(Signed {
            kind: 2,
            first: endorser_of(endorsement),
            second: no_signer(),
        }),
    }
}

fn signer_of(alloc: Global, signed: &SignedUnit) -> Result<Signer, OutOfMemory>
    requires { Fits signed.now.unit }
    ensures { IfOk result (λ signer. signer ≡ signer_of signed.now) }
{
    let digest = digest_of(alloc, &signed.unit)?;
    let unit = digest.0;
    let signature = signed.signature.0;
    Ok(Signer {
        validator: signed.unit.creator,
        unit,
        signature,
    })
}

fn endorser_of(endorsement: &Endorsement) -> Signer
    ensures { result ≡ record { validator = endorsement.now.endorser; unit = endorsement.now.unit.0; signature = endorsement.now.signature.0 } }
{
    let unit = endorsement.unit.0;
    let signature = endorsement.signature.0;
    Signer {
        validator: endorsement.endorser,
        unit,
        signature,
    }
}

fn no_signer() -> Signer
    ensures { result ≡ no_signer }
{
    Signer {
        validator: 0,
        unit: [0; 32],
        signature: [0; 32],
    }
}

/// Who signed the vertex that the bytes spell, and which units.
pub fn signatures(alloc: Global, bytes: &[u8]) -> Result<Signed, Fault>
    ensures { IsSigned bytes.now result }
{
    let vertex = decode_vertex(alloc, bytes)?;
    Ok(signed_of(alloc, &vertex)?)
}

/// The vertex of an endorsement of the unit of this digest, as bytes. Its endorser has signed that digest.
pub fn endorsement(
    alloc: Global,
    endorser: u32,
    unit: &[u8; 32],
    signature: &[u8; 32],
) -> Result<Bytes, Fault>
    ensures { IsEndorsement endorser unit.now signature.now result }
{
    let vertex = Vertex::Endorsement(Endorsement {
        unit: Digest(*unit),
        endorser,
        signature: Signature(*signature),
    });
    Ok(encode_vertex(alloc, &vertex)?)
}
