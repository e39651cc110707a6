//! Values of blocks in a file.

ghost use Rattle.std.specs.Prelude.{◌≡◌, ◌∷◌, ◌++◌, [], None, IsTrue, IfOk};
ghost use Rattle.hw_io.specs.{Faults.{HasCause}, Files.{Appended}};

use crate::complaints::Voice;
use crate::wants::count_want;
use hw_io::{Consumer, Files, IoFault};
use hw_types::{Bytes, OutOfMemory};
use std::alloc::Global;
use std::os::unix::fs::MetadataExt;
use std::path::Path;
use std::{fs, rt};

/// The file that takes the values.
pub const BLOCKS_FILE: &str = "highway.blocks";

/// Whether the file of this name is, or would be, the one that takes the values.
pub(crate) fn is_values_file<R: rt::Files + Voice>(runtime: &R, name: &str) -> bool {
    match (
        fs::metadata(runtime, name),
        fs::metadata(runtime, BLOCKS_FILE),
    ) {
        (Ok(file), Ok(blocks)) => file.dev() == blocks.dev() && file.ino() == blocks.ino(),
        (Err(_), Err(_)) => is_values_name(runtime, name),
        _ => false,
    }
}

/// Whether a name is another one of the file that takes the values, which isn't there.
fn is_values_name<R: rt::Files + Voice>(runtime: &R, name: &str) -> bool {
    let path = Path::new(name);
    if !path.file_name().is_some_and(|last| last == BLOCKS_FILE) {
        return false;
    }
    let folder = match path.parent() {
        Some(folder) if !folder.as_str().is_empty() => folder,
        _ => return true,
    };
    match (
        fs::canonicalize(runtime, folder),
        fs::canonicalize(runtime, "."),
    ) {
        (Ok(folder), Ok(here)) => folder.as_str() == here.as_str(),
        _ => false,
    }
}

/// A consumer that appends the value of each block, and a line feed, to the file `highway.blocks`, which it
/// makes where it is missing. Its faults are those of appends.
#[derive(Drop)]
pub struct ValueFile<F: Files> {
    alloc: Global,
    files: F,
    /// How many calls found no memory.
    wants: u64,
}

impl<F: Files> ValueFile<F> {
    /// A consumer over these files.
    pub fn new(alloc: Global, files: F) -> ValueFile<F>
        ensures { result.files ≡ files }
    {
        ValueFile {
            alloc,
            files,
            wants: 0,
        }
    }

    /// The files, with what was appended to them.
    pub fn into_files(self) -> F
        ensures { result ≡ self.files }
    {
        self.files
    }
}

impl<F: Files + Drop> Consumer for ValueFile<F> {
    ghost consumed = { λ _. None };

    ghost faults = { λ consumer. F.append_faults consumer.files };

    ghost wants = { λ consumer. consumer.wants };

    fn take(&mut self, _height: u64, value: &[u8]) -> Result<(), IoFault> {
        let answer = append_line(self.alloc, &mut self.files, BLOCKS_FILE, value);
        count_want(&mut self.wants, answer);
        answer
    }

    fn finish(&mut self) -> Result<(), IoFault> {
        Ok(())
    }
}

/// Appends these bytes and a line feed to the file of that name, by one call. After an error the file has what
/// it had and a prefix of them.
fn append_line<F: Files>(
    alloc: Global,
    files: &mut F,
    name: &str,
    value: &[u8],
) -> Result<(), IoFault>
    ensures bytes { IsTrue F.tells → Appended (F.held files.old) (F.held files.new) name.now (value.now ++ 10 ∷ []) result }
    ensures cause { HasCause (F.append_faults files.old) (F.append_faults files.new) result }
{
    let line = line_of(alloc, value).map_err(|_| IoFault::OutOfMemory)?;
    files.append(name, line.as_slice())
}

/// These bytes and a line feed.
fn line_of(alloc: Global, value: &[u8]) -> Result<Bytes, OutOfMemory>
    ensures { IfOk result (λ line. line ≡ value.now ++ 10 ∷ []) }
{
    let mut line = Bytes::new(alloc);
    line.extend(value)?;
    line.push(b'\n')?;
    Ok(line)
}
