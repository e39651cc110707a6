//! Whole values as bytes, and their names.

ghost use Rattle.std.specs.Prelude.{◌≡◌, IfOk};
ghost use Rattle.sha2.specs.Sha256.{sha256};
ghost use Rattle.hw_types.specs.Spelling.{SpellsUnit, SpellsVertex, SpellsConfig, SpellsFrame, Fits, VertexFits, ConfigFits, FrameFits, digest_of, instance_of};

use crate::config::{config_len, put_config};
use crate::frame::{frame_len, put_frame};
use crate::unit::{put_unit, unit_len};
use crate::vertex::{put_vertex, vertex_len};
use hw_types::{Bytes, Config, Digest, Frame, OutOfMemory, Vertex, WireUnit};
use sha2::{Digest as _, Sha256};
use std::alloc::Global;

/// The one spelling of a unit that keeps the limits of its format.
pub fn encode_unit(alloc: Global, unit: &WireUnit) -> Result<Bytes, OutOfMemory>
    requires { Fits unit.now }
    ensures { IfOk result (λ bytes. SpellsUnit bytes unit.now) }
{
    let mut out = Vec::with_capacity(alloc, unit_len(unit))?;
    put_unit(unit, &mut out)?;
    Ok(Bytes::from_vec(out))
}

/// The unit's name: the SHA-256 digest of its spelling. The unit keeps the limits of its format.
#[tactic(auto, unfolding(hw_types::specs::Spelling::digest_of))]
pub fn digest_of(alloc: Global, unit: &WireUnit) -> Result<Digest, OutOfMemory>
    requires { Fits unit.now }
    ensures { IfOk result (λ digest. digest ≡ digest_of unit.now) }
{
    Ok(sha256_of(&encode_unit(alloc, unit)?))
}

/// The one spelling of a vertex whose units keep the limits of their format.
pub fn encode_vertex(alloc: Global, vertex: &Vertex) -> Result<Bytes, OutOfMemory>
    requires { VertexFits vertex.now }
    ensures { IfOk result (λ bytes. SpellsVertex bytes vertex.now) }
{
    let mut out = Vec::with_capacity(alloc, vertex_len(vertex))?;
    put_vertex(vertex, &mut out)?;
    Ok(Bytes::from_vec(out))
}

/// The one spelling of a configuration with at most 1,024 weights and 4,096 entries of its table.
pub fn encode_config(alloc: Global, config: &Config) -> Result<Bytes, OutOfMemory>
    requires { ConfigFits config.now }
    ensures { IfOk result (λ bytes. SpellsConfig bytes config.now) }
{
    let mut out = Vec::with_capacity(alloc, config_len(config))?;
    put_config(config, &mut out)?;
    Ok(Bytes::from_vec(out))
}

/// The instance of a configuration: the SHA-256 digest of its spelling. The configuration has at
/// most 1,024 weights and 4,096 entries of its table.
#[tactic(auto, unfolding(hw_types::specs::Spelling::instance_of))]
pub fn instance_of(alloc: Global, config: &Config) -> Result<Digest, OutOfMemory>
    requires { ConfigFits config.now }
    ensures { IfOk result (λ instance. instance ≡ instance_of config.now) }
{
    Ok(sha256_of(&encode_config(alloc, config)?))
}

/// The one spelling of a frame, without its length. Units in it keep the limits of their format,
/// and a Want has at most 256 needs.
pub fn encode_frame(alloc: Global, frame: &Frame) -> Result<Bytes, OutOfMemory>
    requires { FrameFits frame.now }
    ensures { IfOk result (λ body. SpellsFrame body frame.now) }
{
    let mut out = Vec::with_capacity(alloc, frame_len(frame))?;
    put_frame(frame, &mut out)?;
    Ok(Bytes::from_vec(out))
}

fn sha256_of(bytes: &Bytes) -> Digest
    ensures { result ≡ record { 0 = sha256 bytes.now } }
{
    Digest(Sha256::digest(bytes.as_slice()))
}
