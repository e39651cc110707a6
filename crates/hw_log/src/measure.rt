//! The whole entries of a log, counted.

ghost use Rattle.std.specs.Prelude.{◌≡◌, ℕ, ◌+◌, ◌<◌, List, IsTrue, IfOk};
ghost use Rattle.hw_io.specs.{Faults.{subject_of}, Files.{SameFiles}};
ghost use Rattle.hw_log.specs.Log.{log_of};
ghost use Rattle.hw_log.specs.Causes.{Gives, HasReadCause, IsReadAbout};
ghost use Rattle.hw_log.specs.Reader.{PlacesFit, left_of, ahead_of};
ghost use Rattle.hw_log.specs.Rewritten.{whole_entries, without_tear};
ghost use Rattle.hw_log.specs.Measured.{Measures, Skips, StandsBehindSome};

use crate::rewritten::WholeEntries;
use crate::{LogError, LogReader};
use hw_io::Files;
use std::alloc::Global;

/// Counts the whole entries of the log in the file of that name.
///
/// Its error is the log's first one, where that is none of a torn entry.
pub(crate) fn measure<F: Files>(
    alloc: Global,
    files: &mut F,
    name: &str,
) -> Result<WholeEntries, LogError>
    ensures said { IsTrue F.tells → Measures (F.held files.old name.now) result }
    ensures cause { HasReadCause (F.read_faults files.old) (F.read_faults files.new) result }
    ensures about { IsTrue F.tells → IsReadAbout (subject_of (F.held files.old name.now) name.now) (F.faults_about files.old) (F.faults_about files.new) result }

    ensures files { SameFiles (F.held files.old) (F.held files.new) }
    ensures appends { F.append_faults files.new ≡ F.append_faults files.old }
{
    let mut reader = LogReader::begin(alloc, files, name)?;
    count_entries(&mut reader, files)
}

/// Counts the whole entries that are left.
fn count_entries<F: Files>(reader: &mut LogReader, files: &mut F) -> Result<WholeEntries, LogError>
    requires { PlacesFit reader.old (F.allowance files.old) }
    ensures said { IsTrue F.tells → (bytes : List ℕ) → StandsBehindSome bytes 0 reader.old (F.unread files.old) → Gives (λ whole. whole) result (whole_entries (log_of bytes)) }
    ensures cause { HasReadCause (F.read_faults files.old) (F.read_faults files.new) result }
    ensures about { IsReadAbout (F.begun files.old) (F.faults_about files.old) (F.faults_about files.new) result }

    ensures files { SameFiles (F.held files.old) (F.held files.new) }
    ensures appends { F.append_faults files.new ≡ F.append_faults files.old }
{
    let mut count = 0;
    'entries: loop {
        match skip(reader, files) {
            Ok(more) => {
                if !more {
                    return ended(count, None);
                }
                count += 1;
            }
            Err(error) => return ended(count, Some(error)),
        }
    }
}

/// Goes behind the next entry, and answers whether there is one.
fn skip<F: Files>(reader: &mut LogReader, files: &mut F) -> Result<bool, LogError>
    requires { PlacesFit reader.old (F.allowance files.old) }
    ensures said { IsTrue F.tells → Skips (left_of reader.old (F.unread files.old)) (left_of reader.new (F.unread files.new)) result }
    ensures config { reader.new.config ≡ reader.old.config }
    ensures places { PlacesFit reader.new (F.allowance files.new) }
    ensures nearer { IfOk result (λ more. IsTrue more → ahead_of reader.new (F.allowance files.new) < ahead_of reader.old (F.allowance files.old)) }
    ensures cause { HasReadCause (F.read_faults files.old) (F.read_faults files.new) result }
    ensures about { IsReadAbout (F.begun files.old) (F.faults_about files.old) (F.faults_about files.new) result }

    ensures files { SameFiles (F.held files.old) (F.held files.new) }
    ensures begun { F.begun files.new ≡ F.begun files.old }
    ensures appends { F.append_faults files.new ≡ F.append_faults files.old }
{
    Ok(reader.next(files)?.is_some())
}

/// What so many entries are, behind which the log ends or has this error.
fn ended(count: u64, error: Option<LogError>) -> Result<WholeEntries, LogError>
    ensures { result ≡ without_tear count error }
{
    match error {
        None => Ok(WholeEntries {
            count,
            torn_at: None,
        }),
        Some(LogError::Torn(at)) => Ok(WholeEntries {
            count,
            torn_at: Some(at),
        }),
        Some(error) => Err(error),
    }
}
