//! The entry of a vertex in the log.

ghost use Rattle.std.specs.Prelude.{◌≡◌, ◌≢◌, Some, IsTrue, IfOk, OnOk, OnErr};
ghost use Rattle.hw_types.specs.Spelling.{VertexFits};
ghost use Rattle.hw_io.specs.Files.{Appended};
ghost use Rattle.hw_log.specs.{Causes.{HasAppendCause}, Lasts.{with_noted}, Named.{IsNameOf}};
ghost use Rattle.hw_session.specs.{Entry.{IsEntryOf}, Outside.{reading}};

use hw_io::Files;
use hw_log::{Lasts, LogError, Noted, append_entry, entry_bytes};
use hw_types::{Bytes, Digest, OutOfMemory, Vertex};
use std::alloc::Global;

/// What is to be appended of a vertex, and what it changes of the last units.
#[derive(Drop)]
pub struct NewEntry {
    pub bytes: Bytes,
    pub noted: Noted,
}

/// The entry of a vertex with a true verdict, after these last units. The vertex's units keep the limits of
/// their format.
pub fn new_entry(alloc: Global, lasts: &Lasts, vertex: &Vertex) -> Result<NewEntry, OutOfMemory>
    requires { VertexFits vertex.now }
    ensures { IfOk result (IsEntryOf lasts.now vertex.now) }
{
    let bytes = entry_bytes(alloc, lasts, true, vertex)?;
    let noted = lasts.prepare(vertex)?;
    Ok(NewEntry { bytes, noted })
}

/// The same entry of a unit of this name, which isn't hashed again.
pub fn named_entry(
    alloc: Global,
    lasts: &Lasts,
    vertex: &Vertex,
    name: Digest,
) -> Result<NewEntry, OutOfMemory>
    requires fits { VertexFits vertex.now }
    requires name { IsNameOf vertex.now name }
    ensures { IfOk result (IsEntryOf lasts.now vertex.now) }
{
    let bytes = entry_bytes(alloc, lasts, true, vertex)?;
    let noted = lasts.prepare_named(vertex, name)?;
    Ok(NewEntry { bytes, noted })
}

/// Appends an entry to the log of this name, and then notes it.
pub fn put_entry<F: Files>(
    lasts: &mut Lasts,
    files: &mut F,
    log: &str,
    entry: NewEntry,
) -> Result<(), LogError>
    ensures noted { OnOk result (lasts.new ≡ with_noted lasts.old entry.noted) }
    ensures same { OnErr result (lasts.new ≡ lasts.old) }
    ensures bytes { IsTrue F.tells → Appended (F.held files.old) (F.held files.new) log.now entry.bytes result }
    ensures cause { HasAppendCause (F.append_faults files.old) (F.append_faults files.new) result }

    ensures reading { reading (F.begun files.new) (F.allowance files.new) (F.read_faults files.new) ≡ reading (F.begun files.old) (F.allowance files.old) (F.read_faults files.old) }
    ensures unread { IsTrue F.tells → F.begun files.old ≢ Some log.now → F.unread files.new ≡ F.unread files.old }
{
    append_entry(files, log, &entry.bytes)?;
    lasts.note(entry.noted);
    Ok(())
}
