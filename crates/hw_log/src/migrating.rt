//! A log in version 2.

ghost use Rattle.std.specs.Prelude.{◌≡◌, ◌≢◌, ◌⊎◌, ℕ, List, [], Some, None, IsTrue, IsSome, IfOk, IfErr, OnOk, OnErr, MatchResult};
ghost use Rattle.hw_io.specs.{Faults.{subject_of}, Files.{SameFiles}};
ghost use Rattle.hw_types.specs.{Limits.{config_fault}, Spelling.{ConfigFits}};
ghost use Rattle.hw_log.specs.Causes.{Gives, HasReadCause, IsReadAbout};
ghost use Rattle.hw_log.specs.Reader.{PlacesFit, StandsBehind};
ghost use Rattle.hw_log.specs.Rewritten.{migrated_of, Says, HasRewritten, IsCutShort};
ghost use Rattle.hw_log.specs.Migrated.{StandsBehindSpelled, Spells, SaysAnew, HoldsAnew};
ghost use Rattle.hw_log.specs.RewriteCauses.{IsAbsentFault, IsPutFault, IsOutside, IsWhy, HasRewriteCause, IsReadAbout as IsRewriteAbout};

use crate::fault::RewriteFault;
use crate::rewritten::Rewritten;
use crate::spelling::{VERSION, spell_entry, spelled_header};
use crate::target::{absent, put};
use crate::{Lasts, LogError, LogReader};
use hw_io::Files;
use hw_types::Bytes;
use std::alloc::Global;

/// Writes a log of either version into a new file in version 2, with the same configuration and entries, and answers
/// how many entries these are.
///
/// The log's first error is the answer, a torn entry included. That the new file is there already is tested first.
/// After a failed append the new file is missing, or holds a part of what was to be written, from its first byte on.
pub fn migrate<F: Files>(
    alloc: Global,
    files: &mut F,
    log: &str,
    new: &str,
) -> Result<u64, RewriteFault>
    ensures done { IsTrue F.tells → IfOk result (HasRewritten migrated_of (F.held files.old log.now) (F.held files.old new.now) (F.held files.new new.now)) }
    ensures same { IsTrue F.tells → OnOk result (HoldsAnew (F.held files.old log.now) (F.held files.new new.now)) }
    ensures why { IsTrue F.tells → IfErr result (λ fault. IsOutside fault ⊎ IsWhy migrated_of (F.held files.old log.now) (F.held files.old new.now) fault) }
    ensures first { IsTrue F.tells → IsSome (F.held files.old new.now) → MatchResult result (λ _. ⊥) IsAbsentFault }
    ensures unwritten { IfErr result (λ fault. IsPutFault fault ⊎ SameFiles (F.held files.old) (F.held files.new)) }
    ensures cut { IsTrue F.tells → OnErr result (IsCutShort migrated_of (F.held files.old log.now) (F.held files.old new.now) (F.held files.new new.now)) }
    ensures others { IsTrue F.tells → (name : List ℕ) → name ≢ new.now → F.held files.new name ≡ F.held files.old name }
    ensures cause { HasRewriteCause (F.read_faults files.old) (F.read_faults files.new) (F.append_faults files.old) (F.append_faults files.new) result }
    ensures about { IsTrue F.tells → IsRewriteAbout (F.held files.old log.now) (F.held files.old new.now) log.now new.now (F.faults_about files.old) (F.faults_about files.new) result }
{
    absent(files, new)?;
    let migrated = migrated(alloc, files, log)?;
    put(files, new, migrated.bytes.as_slice())?;
    Ok(migrated.count)
}

/// The log in the file of that name, in version 2.
fn migrated<F: Files>(alloc: Global, files: &mut F, log: &str) -> Result<Rewritten, LogError>
    ensures said { IsTrue F.tells → Says migrated_of (F.held files.old log.now) result }
    ensures same { IsTrue F.tells → IfOk result (λ r. HoldsAnew (F.held files.old log.now) (Some r.bytes)) }
    ensures cause { HasReadCause (F.read_faults files.old) (F.read_faults files.new) result }
    ensures about { IsTrue F.tells → IsReadAbout (subject_of (F.held files.old log.now) log.now) (F.faults_about files.old) (F.faults_about files.new) result }

    ensures files { SameFiles (F.held files.old) (F.held files.new) }
    ensures appends { F.append_faults files.new ≡ F.append_faults files.old }
{
    let mut reader = LogReader::begin(alloc, files, log)?;
    spelled(alloc, files, &mut reader)
}

/// The log of which this reader has read the header, in version 2.
fn spelled<F: Files>(
    alloc: Global,
    files: &mut F,
    reader: &mut LogReader,
) -> Result<Rewritten, LogError>
    requires places { PlacesFit reader.old (F.allowance files.old) }
    requires limits { config_fault reader.old.config ≡ None }
    requires fits { ConfigFits reader.old.config }
    ensures said { IsTrue F.tells → (bytes : List ℕ) → StandsBehind bytes [] reader.old (F.unread files.old) → Gives (λ r. r) result (migrated_of bytes) }
    ensures same { IsTrue F.tells → (bytes : List ℕ) → StandsBehind bytes [] reader.old (F.unread files.old) → IfOk result (λ r. SaysAnew bytes r.bytes) }
    ensures cause { HasReadCause (F.read_faults files.old) (F.read_faults files.new) result }
    ensures about { IsReadAbout (F.begun files.old) (F.faults_about files.old) (F.faults_about files.new) result }

    ensures files { SameFiles (F.held files.old) (F.held files.new) }
    ensures appends { F.append_faults files.new ≡ F.append_faults files.old }
{
    let mut bytes = spelled_header(alloc, reader.config())?;
    let validators = reader.config().weights.len() as u32;
    let mut lasts = Lasts::new(alloc, VERSION, validators)?;
    let count = spell_entries(alloc, files, reader, &mut lasts, &mut bytes)?;
    Ok(Rewritten { count, bytes })
}

/// Puts all entries that are left last, as they stand behind these last units, and answers how many they are.
fn spell_entries<F: Files>(
    alloc: Global,
    files: &mut F,
    reader: &mut LogReader,
    lasts: &mut Lasts,
    text: &mut Bytes,
) -> Result<u64, LogError>
    requires { PlacesFit reader.old (F.allowance files.old) }
    ensures said { IsTrue F.tells → (bytes : List ℕ) → StandsBehindSpelled bytes reader.old (F.unread files.old) lasts.old lasts.old text.old text.old 0 → Spells bytes reader.old.config lasts.old text.old text.new result }
    ensures cause { HasReadCause (F.read_faults files.old) (F.read_faults files.new) result }
    ensures about { IsReadAbout (F.begun files.old) (F.faults_about files.old) (F.faults_about files.new) result }

    ensures files { SameFiles (F.held files.old) (F.held files.new) }
    ensures appends { F.append_faults files.new ≡ F.append_faults files.old }
{
    let mut count = 0;
    while let Some(entry) = reader.next(files)? {
        spell_entry(alloc, lasts, entry, text)?;
        count += 1;
    }
    Ok(count)
}
