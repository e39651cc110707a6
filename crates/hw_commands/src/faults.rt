//! How a run ends early.

ghost use Rattle.std.specs.Prelude.{◌≡◌, ◌≢◌, ℕ, ◌++◌, codes, Some, IsTrue, IfOk, IfErr, OnOk};
ghost use Rattle.hw_io.specs.Files.{SameFiles};
ghost use Rattle.hex.specs.Hex.{encode_lower};
ghost use Rattle.hw_text.specs.{Text.{number_text}, Lines.{line_feed}};
ghost use Rattle.hw_log.specs.declared.error.LogError.TheVariants as LogErrors;
ghost use Rattle.hw_replay.specs.{Replay.{IsOutside}, Causes.{IsReadCounted as IsReplayCounted}};
ghost use Rattle.hw_replay.specs.declared.fault.StartFault.TheVariants as StartFaults;
ghost use Rattle.hw_commands.specs.Faults.{HasReadFault, IsReadOf, IsReadCounted, IsReadEnd};
ghost use Rattle.hw_commands.specs.Texts.{usage_line, log_text, wrong_text, input_ended, limit_ended, clash_ended, stopped_ended};
ghost use Rattle.hw_commands.specs.declared.ended.RunFault.TheVariants as RunFaults;

use crate::ended::{CLASH, Ended, Ending, INPUT, LIMIT, RunFault, USAGE};
use crate::texts::{Wrong, put_wrong};
use hw_io::{Files, IoFault};
use hw_log::{LogError, read_file};
use hw_replay::StartFault;
use hw_text::{end_line, put_numbered, put_word};
use hw_types::{Bytes, OutOfMemory};
use std::alloc::Global;

/// The end of a run whose words aren't in the grammar: the line of the usage.
pub fn usage(alloc: Global) -> Result<Ended, OutOfMemory>
    ensures { IfOk result (λ ended. ended ≡ record { status = 1; text = usage_line }) }
{
    let mut text = Bytes::new(alloc);
    put_word(&mut text, "usage: highway COMMAND WORDS\n")?;
    Ok(Ended {
        status: USAGE,
        text,
    })
}

/// The bytes of the file under this name. Where a read fails, or there is no such file, it is `RunFault::Read`.
pub fn bytes_of<F: Files>(alloc: Global, files: &mut F, name: &str) -> Result<Bytes, RunFault>
    ensures whole { IsTrue F.tells → IfOk result (λ bytes. F.held files.old name.now ≡ Some bytes) }
    ensures fault { HasReadFault (F.read_faults files.old) (F.read_faults files.new) result }
    ensures about { IsTrue F.tells → IsReadOf (F.held files.old name.now) name.now (F.faults_about files.old) (F.faults_about files.new) result }

    ensures files { SameFiles (F.held files.old) (F.held files.new) }
    ensures appends { F.append_faults files.new ≡ F.append_faults files.old }
{
    match read_file(alloc, files, name) {
        Ok(bytes) => Ok(bytes),
        Err(IoFault::Failed) => Err(RunFault::Read),
        Err(IoFault::OutOfMemory) => Err(RunFault::OutOfMemory),
    }
}

/// How a run ends where the replay of the log under this name stopped. A failed read and out of memory are faults.
pub fn stopped(alloc: Global, name: &str, fault: StartFault) -> Ending
    ensures said { IfOk result (λ ended. (ended ≡ stopped_ended name.now fault) × IsReadEnd ended.status × (IsOutside fault → ⊥)) }
    ensures cause { (before now : ℕ) → IsReplayCounted {T = Unit {0}} before now (Err fault) → IsReadCounted before now result }
    ensures read { IfErr result (λ f. f ≡ RunFaults.Read → fault ≡ StartFaults.Log LogErrors.ReadFault) }
    ensures append { IfErr result (λ f. f ≢ RunFaults.Append) }
{
    match fault {
        StartFault::Log(error) => unread(alloc, name, error),
        StartFault::OtherConfig => Ok(other_config(alloc, name)?),
        StartFault::Clash { known, other } => Ok(clash(alloc, &known, &other)?),
        StartFault::RecordsFull(at) => Ok(limit(alloc, "limit records at ", at)?),
        StartFault::ParkFull(at) => Ok(limit(alloc, "limit parked at ", at)?),
        StartFault::OutOfMemory => Err(RunFault::OutOfMemory),
    }
}

/// How a run ends where the log under this name can't be read on.
fn unread(alloc: Global, name: &str, error: LogError) -> Ending
    ensures said { IfOk result (λ ended. (ended ≡ stopped_ended name.now (StartFaults.Log error)) × IsReadEnd ended.status × (IsOutside (StartFaults.Log error) → ⊥)) }
    ensures cause { (before now : ℕ) → IsReplayCounted {T = Unit {0}} before now (Err (StartFaults.Log error)) → IsReadCounted before now result }
    ensures read { IfErr result (λ f. f ≡ RunFaults.Read → error ≡ LogErrors.ReadFault) }
    ensures append { IfErr result (λ f. f ≢ RunFaults.Append) }
{
    match error {
        LogError::ReadFault => Err(RunFault::Read),
        LogError::OutOfMemory => Err(RunFault::OutOfMemory),
        error => Ok(bad_log(alloc, name, error)?),
    }
}

/// The end of a run whose log can't be read on, because of what is in it.
pub fn bad_log(alloc: Global, name: &str, error: LogError) -> Result<Ended, OutOfMemory>
    ensures { IfOk result (λ ended. ended ≡ input_ended name.now (log_text error)) }
{
    bad_input(alloc, name, Wrong::Log(error))
}

/// The end of a run whose log is of another configuration than the one that is wanted.
pub fn other_config(alloc: Global, name: &str) -> Result<Ended, OutOfMemory>
    ensures { IfOk result (λ ended. ended ≡ input_ended name.now (codes "other config")) }
{
    bad_input(alloc, name, Wrong::Words("other config"))
}

/// The end of a run where the byte at this place of the keys is wrong.
pub fn bad_keys(alloc: Global, name: &str, place: u64) -> Result<Ended, OutOfMemory>
    ensures { IfOk result (λ e. e ≡ input_ended name.now (codes "keys at " ++ number_text place)) }
{
    bad_input(alloc, name, Wrong::Numbered("keys at ", place))
}

/// The end of a run where this is wrong with the file under this name.
#[tactic(auto, using(std::proofs::Common::append_assoc), unfolding(crate::specs::Texts::input_ended))]
pub fn bad_input(alloc: Global, name: &str, wrong: Wrong<'_>) -> Result<Ended, OutOfMemory>
    ensures { IfOk result (λ ended. ended ≡ input_ended name.now (wrong_text wrong.entry)) }
{
    let mut text = input(alloc, name)?;
    put_wrong(&mut text, wrong)?;
    input_end(text)
}

/// The beginning of a line that names a file's fault.
pub fn input(alloc: Global, name: &str) -> Result<Bytes, OutOfMemory>
    ensures { IfOk result (λ text. text ≡ codes "input " ++ name.now ++ codes ": ") }
{
    let mut text = Bytes::new(alloc);
    put_word(&mut text, "input ")?;
    put_word(&mut text, name)?;
    put_word(&mut text, ": ")?;
    Ok(text)
}

/// The end of a run with this line, which names a file's fault and lacks its line feed.
pub fn input_end(mut text: Bytes) -> Result<Ended, OutOfMemory>
    ensures { IfOk result (λ ended. ended ≡ record { status = 2; text = text ++ line_feed }) }
{
    end_line(&mut text)?;
    Ok(Ended {
        status: INPUT,
        text,
    })
}

/// The end of a run where the entry at this byte met a limit, which the words name.
fn limit(alloc: Global, words: &str, at: u64) -> Result<Ended, OutOfMemory>
    ensures { IfOk result (λ ended. ended ≡ record { status = 8; text = words.now ++ number_text at ++ line_feed }) }
{
    let mut text = Bytes::new(alloc);
    put_numbered(&mut text, words, at)?;
    end_line(&mut text)?;
    Ok(Ended {
        status: LIMIT,
        text,
    })
}

/// The end of a run where two different units have one digest. The known one is written first.
#[tactic(auto, using(std::proofs::Common::append_assoc), unfolding(crate::specs::Texts::clash_ended, hw_text::specs::Lines::line_of))]
pub fn clash(alloc: Global, known: &Bytes, other: &Bytes) -> Result<Ended, OutOfMemory>
    ensures { IfOk result (λ ended. ended ≡ clash_ended known.now other.now) }
{
    let mut text = Bytes::new(alloc);
    put_word(&mut text, "clash\n")?;
    put_hex(alloc, &mut text, known.as_slice())?;
    put_hex(alloc, &mut text, other.as_slice())?;
    Ok(Ended {
        status: CLASH,
        text,
    })
}

/// Puts a line of the bytes in lower-case hexadecimal digits last.
#[tactic(auto, using(std::proofs::Common::append_assoc))]
fn put_hex(alloc: Global, text: &mut Bytes, bytes: &[u8]) -> Result<(), OutOfMemory>
    ensures { OnOk result (text.new ≡ text.old ++ (encode_lower bytes.now ++ line_feed)) }
{
    let digits = hex::encode(alloc, bytes)?;
    put_word(text, digits.as_str())?;
    end_line(text)
}
