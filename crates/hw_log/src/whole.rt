//! A whole log at once.

ghost use Rattle.std.specs.Prelude.{◌≡◌, ℕ, List, None, IsTrue, IfErr, IfOk, OnOk};
ghost use Rattle.hw_io.specs.{Faults.{subject_of}, Files.{SameFiles}};
ghost use Rattle.hw_log.specs.{Log.{log_of}, Causes.{HasReadCause, IsReadAbout}, Reader.{PlacesFit, StandsBehind}, Whole.{SaysWhole, SaysFault, IsFaultOf}};

use crate::entry::LogEntry;
use crate::error::LogError;
use crate::reader::LogReader;
use hw_io::Files;
use hw_types::{Config, Items};
use std::alloc::Global;

/// What a log without an error says.
#[derive(Drop)]
pub struct Log {
    pub config: Config,
    pub entries: Items<LogEntry>,
}

/// Reads the log in the file of that name to its end.
///
/// A log with an error is answered as its first one, also where entries come before it. The entries
/// take memory as they come; a [`LogReader`] gives them one at a time.
pub fn read_log<F: Files>(alloc: Global, files: &mut F, name: &str) -> Result<Log, LogError>
    // The answer is what the file's bytes say, however the reads were cut.
    ensures whole { IsTrue F.tells → IfOk result (SaysWhole (F.held files.old name.now)) }
    ensures fault { IsTrue F.tells → IfErr result (SaysFault (F.held files.old name.now)) }
    ensures cause { HasReadCause (F.read_faults files.old) (F.read_faults files.new) result }
    ensures about { IsTrue F.tells → IsReadAbout (subject_of (F.held files.old name.now) name.now) (F.faults_about files.old) (F.faults_about files.new) result }

    ensures files { SameFiles (F.held files.old) (F.held files.new) }
    ensures appends { F.append_faults files.new ≡ F.append_faults files.old }
{
    let mut reader = LogReader::begin(alloc, files, name)?;
    let mut entries = Items::new(alloc);
    read_entries(&mut reader, files, &mut entries)?;
    Ok(Log {
        config: reader.into_config(),
        entries,
    })
}

/// Reads all entries that are left, and puts them last.
fn read_entries<F: Files>(
    reader: &mut LogReader,
    files: &mut F,
    entries: &mut Items<LogEntry>,
) -> Result<(), LogError>
    requires { PlacesFit reader.old (F.allowance files.old) }
    ensures whole { IsTrue F.tells → OnOk result ((bytes : List ℕ) → StandsBehind bytes entries.old reader.old (F.unread files.old) → log_of bytes ≡ Ok (reader.new.config, record { given = entries.new; fault = None })) }
    ensures fault { IsTrue F.tells → IfErr result (λ e. (bytes : List ℕ) → StandsBehind bytes entries.old reader.old (F.unread files.old) → IsFaultOf (log_of bytes) e) }
    ensures cause { HasReadCause (F.read_faults files.old) (F.read_faults files.new) result }
    ensures about { IsReadAbout (F.begun files.old) (F.faults_about files.old) (F.faults_about files.new) result }

    ensures files { SameFiles (F.held files.old) (F.held files.new) }
    ensures appends { F.append_faults files.new ≡ F.append_faults files.old }
{
    while let Some(entry) = reader.next(files)? {
        entries.push(entry)?;
    }
    Ok(())
}
