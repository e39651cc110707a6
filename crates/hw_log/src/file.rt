//! A whole file at once.
//!
//! A log is read entry by entry; a script, and other short inputs, are read to their end before anything is
//! made of them.

ghost use Rattle.std.specs.Prelude.{◌≡◌, ◌+◌, ◌++◌, [], Some, IsTrue, IfOk, OnOk};
ghost use Rattle.hw_io.specs.{Faults.{HasCause, subject_of, IsCountedAbout}, Files.{SameFiles}};

use hw_io::{Files, IoFault};
use hw_types::Bytes;
use std::alloc::Global;

/// A read asks for this many bytes.
const PIECE: usize = 4_096;

/// The bytes of the file of that name.
///
/// A name that isn't there is a failed read, which is counted for no file. The bytes take memory as they come.
pub fn read_file<F: Files>(alloc: Global, files: &mut F, name: &str) -> Result<Bytes, IoFault>
    // The answer is all that the file holds, however the reads were cut.
    ensures whole { IsTrue F.tells → IfOk result (λ bytes. F.held files.old name.now ≡ Some bytes) }
    ensures cause { HasCause (F.read_faults files.old) (F.read_faults files.new) result }
    ensures about { IsTrue F.tells → IsCountedAbout (subject_of (F.held files.old name.now) name.now) (F.faults_about files.old) (F.faults_about files.new) result }

    ensures files { SameFiles (F.held files.old) (F.held files.new) }
    ensures appends { F.append_faults files.new ≡ F.append_faults files.old }
{
    files.begin(name)?;
    let mut bytes = Vec::new(alloc);
    read_rest(files, &mut bytes)?;
    Ok(Bytes::from_vec(bytes))
}

/// Puts all that is left of the file that is begun last.
fn read_rest<F: Files>(files: &mut F, bytes: &mut Vec<u8>) -> Result<(), IoFault>
    ensures whole { IsTrue F.tells → OnOk result (bytes.new.items ≡ bytes.old.items ++ F.unread files.old) }
    ensures cause { HasCause (F.read_faults files.old) (F.read_faults files.new) result }
    ensures about { IsCountedAbout (F.begun files.old) (F.faults_about files.old) (F.faults_about files.new) result }

    ensures files { SameFiles (F.held files.old) (F.held files.new) }
    ensures appends { F.append_faults files.new ≡ F.append_faults files.old }
{
    'pieces: while read_piece(files, bytes)? > 0 {}
    Ok(())
}

/// Puts the next bytes of the file that is begun last, and answers how many. That is 0 only at the end of
/// the file.
fn read_piece<F: Files>(files: &mut F, bytes: &mut Vec<u8>) -> Result<usize, IoFault>
    ensures moved { IsTrue F.tells → OnOk result (bytes.new.items ++ F.unread files.new ≡ bytes.old.items ++ F.unread files.old) }
    ensures end { IsTrue F.tells → IfOk result (λ count. count ≡ 0 → F.unread files.new ≡ []) }
    ensures allowance { IfOk result (λ count. F.allowance files.new + count ≡ F.allowance files.old) }
    ensures cause { HasCause (F.read_faults files.old) (F.read_faults files.new) result }
    ensures about { IsCountedAbout (F.begun files.old) (F.faults_about files.old) (F.faults_about files.new) result }

    ensures files { SameFiles (F.held files.old) (F.held files.new) }
    ensures begun { F.begun files.new ≡ F.begun files.old }
    ensures appends { F.append_faults files.new ≡ F.append_faults files.old }
{
    let mut piece = [0; PIECE];
    let count = files.read(&mut piece)?;
    bytes.extend_from_slice(&piece[..count])?;
    Ok(count)
}
