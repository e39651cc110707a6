//! A log's header and its entries, as they are written in version 2.

ghost use Rattle.std.specs.Prelude.{◌≡◌, ◌++◌, IfOk, OnOk};
ghost use Rattle.hw_types.specs.Spelling.{ConfigFits, VertexFits};
ghost use Rattle.hw_codec.specs.Ranges.{ConfigInRange};
ghost use Rattle.hw_log.specs.{Lasts.{lasts_after}, Log.{header_bytes, entry_bytes as bytes_of_entry}, Spelled.{EntryFits}};

use crate::{Lasts, LogEntry, entry_bytes};
use hw_codec::{config_is_in_range, encode_config, vertex_is_in_range};
use hw_types::{Bytes, Config, OutOfMemory};
use std::alloc::Global;

/// The version in which a log is written anew.
pub(crate) const VERSION: u8 = 2;

/// The header of a log of version 2 with this configuration.
#[tactic(auto, using(crate::proofs::LengthLaws::config_short))]
pub(crate) fn spelled_header(alloc: Global, config: &Config) -> Result<Bytes, OutOfMemory>
    requires { ConfigFits config.now }
    ensures header { IfOk result (λ bytes. bytes ≡ header_bytes 2 config.now) }
    ensures range { OnOk result (ConfigInRange config.now) }
{
    let spelling = encode_config(alloc, config)?;
    // For the prover: each number is in the range of its type. It does nothing.
    config_is_in_range(config);
    let length = spelling.len() as u32;
    let mut header = Bytes::new(alloc);
    header.extend(b"HWLG")?;
    header.push(VERSION)?;
    header.extend(&length.to_be_bytes())?;
    header.extend(spelling.as_slice())?;
    Ok(header)
}

/// Puts an entry last, as it stands behind these last units, and goes behind it.
pub(crate) fn spell_entry(
    alloc: Global,
    lasts: &mut Lasts,
    entry: LogEntry,
    text: &mut Bytes,
) -> Result<(), OutOfMemory>
    requires { VertexFits entry.vertex }
    ensures text { OnOk result (text.new ≡ text.old ++ bytes_of_entry lasts.old entry.verdict entry.vertex) }
    ensures lasts { OnOk result (lasts.new ≡ lasts_after lasts.old entry.vertex) }
    ensures fits { OnOk result (EntryFits entry) }
{
    let put = put_entry(alloc, lasts, &entry, text);
    // For the prover: one call, where else the drop of an entry is written out at each exit.
    drop(entry);
    put
}

/// Puts an entry last, which is lent, as it stands behind these last units, and goes behind it.
fn put_entry(
    alloc: Global,
    lasts: &mut Lasts,
    entry: &LogEntry,
    text: &mut Bytes,
) -> Result<(), OutOfMemory>
    requires { VertexFits entry.now.vertex }
    ensures text { OnOk result (text.new ≡ text.old ++ bytes_of_entry lasts.old entry.now.verdict entry.now.vertex) }
    ensures lasts { OnOk result (lasts.new ≡ lasts_after lasts.old entry.now.vertex) }
    ensures fits { OnOk result (EntryFits entry.now) }
{
    let bytes = entry_bytes(alloc, lasts, entry.verdict, &entry.vertex)?;
    let noted = lasts.prepare(&entry.vertex)?;
    text.extend(bytes.as_slice())?;
    lasts.note(noted);
    // For the prover: each number is in the range of its type. It does nothing.
    vertex_is_in_range(&entry.vertex);
    Ok(())
}
