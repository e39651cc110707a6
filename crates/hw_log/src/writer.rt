//! Writing a log.

ghost use Rattle.std.specs.Prelude.{◌≡◌, ◌≢◌, Some, IsTrue, IfOk};
ghost use Rattle.hw_io.specs.Files.{Appended};
ghost use Rattle.hw_types.specs.Spelling.{ConfigFits, VertexFits};
ghost use Rattle.hw_log.specs.{Lasts.{IsVersion}, Log.{header_bytes, entry_bytes}, Causes.{HasAppendCause, AppendsLog}};

use crate::error::{LogError, error_of_append};
use crate::head::{MAGIC, VERTEX_EVENT};
use crate::lasts::Lasts;
use hw_codec::{config_is_in_range, encode_config, vertex_is_in_range};
use hw_io::Files;
use hw_types::{Bytes, Config, OutOfMemory, Vertex};
use std::alloc::Global;

/// Appends the header of a log of this version, 1 or 2, with this configuration to the file of that
/// name, which is made where it is missing.
///
/// Its errors are `WriteFault`, where the append failed, and want of memory. After an error the file
/// holds what it held and a prefix of the header.
pub fn append_header<F: Files>(
    alloc: Global,
    files: &mut F,
    name: &str,
    version: u8,
    config: &Config,
) -> Result<(), LogError>
    requires version { IsVersion version }
    requires config { ConfigFits config.now }
    ensures bytes { IsTrue F.tells →
        Appended (F.held files.old) (F.held files.new) name.now (header_bytes version config.now) result }
    ensures cause { HasAppendCause (F.append_faults files.old) (F.append_faults files.new) result }

    ensures begun { F.begun files.new ≡ F.begun files.old }
    ensures unread { IsTrue F.tells → F.begun files.old ≢ Some name.now
        → F.unread files.new ≡ F.unread files.old }
    ensures allowance { F.allowance files.new ≡ F.allowance files.old }
    ensures reads { F.read_faults files.new ≡ F.read_faults files.old }
    ensures about { F.faults_about files.new ≡ F.faults_about files.old }
{
    let header = spelled_header(alloc, version, config)?;
    append(files, name, header.as_slice())
}

/// The entry of this vertex with the verdict on its signatures, as it stands in a log behind these
/// last units. The vertex's units keep the limits of their format.
#[tactic(auto, using(crate::proofs::LengthLaws::vertex_short))]
pub fn entry_bytes(
    alloc: Global,
    lasts: &Lasts,
    verdict: bool,
    vertex: &Vertex,
) -> Result<Bytes, OutOfMemory>
    requires { VertexFits vertex.now }
    ensures { IfOk result (λ bytes. bytes ≡ entry_bytes lasts.now verdict vertex.now) }
{
    let spelling = lasts.encode(alloc, vertex)?;
    // For the prover alone: each number of the vertex is in the range of its type, so its spelling is short.
    vertex_is_in_range(vertex);
    let length = spelling.len() as u32;
    let mut entry = Bytes::new(alloc);
    entry.push(VERTEX_EVENT)?;
    entry.push(u8::from(verdict))?;
    entry.extend(&length.to_be_bytes())?;
    entry.extend(spelling.as_slice())?;
    Ok(entry)
}

/// Appends an entry to the file of that name, which is made where it is missing.
///
/// Its errors are `WriteFault`, where the append failed, and want of memory. After an error the file
/// holds what it held and a prefix of the entry.
pub fn append_entry<F: Files>(files: &mut F, name: &str, entry: &Bytes) -> Result<(), LogError>
    ensures appends { AppendsLog F.Files files.old files.new name.now entry.now result }
{
    append(files, name, entry.as_slice())
}

/// Appends bytes to the file of that name.
fn append<F: Files>(files: &mut F, name: &str, bytes: &[u8]) -> Result<(), LogError>
    ensures appends { AppendsLog F.Files files.old files.new name.now bytes.now result }
{
    match files.append(name, bytes) {
        Ok(()) => Ok(()),
        Err(fault) => Err(error_of_append(fault)),
    }
}

/// The header of a log of this version with this configuration.
#[tactic(auto, using(crate::proofs::LengthLaws::config_short))]
fn spelled_header(alloc: Global, version: u8, config: &Config) -> Result<Bytes, OutOfMemory>
    requires { ConfigFits config.now }
    ensures { IfOk result (λ bytes. bytes ≡ header_bytes version config.now) }
{
    let spelling = encode_config(alloc, config)?;
    // For the prover alone: the same of the configuration.
    config_is_in_range(config);
    let length = spelling.len() as u32;
    let mut header = Bytes::new(alloc);
    header.extend(&MAGIC)?;
    header.push(version)?;
    header.extend(&length.to_be_bytes())?;
    header.extend(spelling.as_slice())?;
    Ok(header)
}
