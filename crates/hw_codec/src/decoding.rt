//! Whole values from all of the bytes.

ghost use Rattle.std.specs.Prelude.{◌≡◌, Ok, IfOk, IfErr};
ghost use Rattle.hw_types.specs.declared.unit.WireUnit.{WireUnit};
ghost use Rattle.hw_types.specs.declared.unit.Vertex.{Vertex};
ghost use Rattle.hw_types.specs.declared.config.Config.{Config};
ghost use Rattle.hw_types.specs.declared.answers.Frame.{Frame};
ghost use Rattle.hw_types.specs.Reading.{Gives, unit_of, vertex_of, config_of, frame_of};
ghost use Rattle.hw_types.specs.Spelling.{SpellsUnit, SpellsVertex, SpellsConfig, SpellsFrame};
ghost use Rattle.hw_codec.specs.{Ranges.{UnitInRange, VertexInRange, ConfigInRange, FrameInRange}, Decoded.{IsReadAs, IsErrorOf}};

use crate::config::read_config;
use crate::frame::read_frame;
use crate::reader::Reader;
use crate::unit::read_unit;
use crate::vertex::read_vertex;
use hw_types::{CodecError, Config, Frame, Vertex, WireUnit};
use std::alloc::Global;

/// The unit that the bytes spell, all of them.
///
/// The first field that is refused, in the order of the bytes, is answered with its place. Places
/// count from 0 at the first of the bytes.
pub fn decode_unit(alloc: Global, bytes: &[u8]) -> Result<WireUnit, CodecError>
    // What is read is spelled so, every byte of it.
    ensures ok { IfOk result (λ unit. SpellsUnit bytes.now unit) }

    // What is spelled so is read, unless memory runs out.
    ensures read { (unit : WireUnit) → UnitInRange unit → SpellsUnit bytes.now unit → IsReadAs result unit }

    // It is what reading from left to right gives.
    ensures value { IfOk result (λ unit. unit_of bytes.now ≡ Ok unit) }

    // Another error is the first one.
    ensures error { IfErr result (IsErrorOf (unit_of bytes.now)) }
{
    whole_unit(alloc, bytes)
}

#[tactic(auto, unfolding(hw_types::specs::Reading::whole))]
fn whole_unit(alloc: Global, bytes: &[u8]) -> Result<WireUnit, CodecError>
    ensures { Gives (λ unit. unit) result (unit_of bytes.now) }
{
    let mut reader = Reader::new(bytes);
    let unit = read_unit(alloc, &mut reader)?;
    reader.end()?;
    Ok(unit)
}

/// The vertex that the bytes spell, all of them. Errors are those of [`decode_unit`].
pub fn decode_vertex(alloc: Global, bytes: &[u8]) -> Result<Vertex, CodecError>
    ensures ok { IfOk result (λ vertex. SpellsVertex bytes.now vertex) }
    ensures read { (vertex : Vertex) → VertexInRange vertex → SpellsVertex bytes.now vertex → IsReadAs result vertex }
    ensures value { IfOk result (λ vertex. vertex_of bytes.now ≡ Ok vertex) }
    ensures error { IfErr result (IsErrorOf (vertex_of bytes.now)) }
{
    whole_vertex(alloc, bytes)
}

#[tactic(auto, unfolding(hw_types::specs::Reading::whole))]
fn whole_vertex(alloc: Global, bytes: &[u8]) -> Result<Vertex, CodecError>
    ensures { Gives (λ vertex. vertex) result (vertex_of bytes.now) }
{
    let mut reader = Reader::new(bytes);
    let read = read_vertex(alloc, &mut reader);
    match reader.end() {
        Err(error) if read.is_ok() => Err(let_go(read, error)),
        Err(_) | Ok(()) => read,
    }
}

/// Lets a vertex go that an error follows. Out of line: the back end zeroes a function's whole frame on entry.
fn let_go(read: Result<Vertex, CodecError>, error: CodecError) -> CodecError
    ensures { result ≡ error }
{
    drop(read);
    error
}

/// The configuration that the bytes spell, all of them. Errors are those of [`decode_unit`].
///
/// Whether it keeps the limits of a configuration is another question, which `check` answers.
pub fn decode_config(alloc: Global, bytes: &[u8]) -> Result<Config, CodecError>
    ensures ok { IfOk result (λ config. SpellsConfig bytes.now config) }
    ensures read { (config : Config) → ConfigInRange config → SpellsConfig bytes.now config → IsReadAs result config }
    ensures value { IfOk result (λ config. config_of bytes.now ≡ Ok config) }
    ensures error { IfErr result (IsErrorOf (config_of bytes.now)) }
{
    whole_config(alloc, bytes)
}

#[tactic(auto, unfolding(hw_types::specs::Reading::whole))]
fn whole_config(alloc: Global, bytes: &[u8]) -> Result<Config, CodecError>
    ensures { Gives (λ config. config) result (config_of bytes.now) }
{
    let mut reader = Reader::new(bytes);
    let config = read_config(alloc, &mut reader)?;
    reader.end()?;
    Ok(config)
}

/// The frame whose kind and body these bytes are. Errors are those of [`decode_unit`], and places
/// count from the kind, inside a vertex too.
pub fn decode_frame(alloc: Global, body: &[u8]) -> Result<Frame, CodecError>
    ensures ok { IfOk result (λ frame. SpellsFrame body.now frame) }
    ensures read { (frame : Frame) → FrameInRange frame → SpellsFrame body.now frame → IsReadAs result frame }
    ensures value { IfOk result (λ frame. frame_of body.now ≡ Ok frame) }
    ensures error { IfErr result (IsErrorOf (frame_of body.now)) }
{
    whole_frame(alloc, body)
}

#[tactic(auto, unfolding(hw_types::specs::Reading::whole))]
fn whole_frame(alloc: Global, body: &[u8]) -> Result<Frame, CodecError>
    ensures { Gives (λ frame. frame) result (frame_of body.now) }
{
    let mut reader = Reader::new(body);
    let frame = read_frame(alloc, &mut reader)?;
    reader.end()?;
    Ok(frame)
}
