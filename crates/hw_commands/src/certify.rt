//! `certify`: the certificate of a block that a log decided, in a new file.

ghost use Rattle.std.specs.Prelude.{◌≡◌, ◌≢◌, ◌⊎◌, ◌↔◌, None, Ok, IsTrue, IsSome, IfOk, IfErr};
ghost use Rattle.hw_io.specs.{Faults.{Rose}, Files.{SameFiles}};
ghost use Rattle.hw_light.specs.{Spelling.{CertificateFits}, Asked.{IfAnswered, told_in, told_of}};
ghost use Rattle.hw_commands.specs.Faults.{HasReadFault, HasRunFault, IsCertifyEnd};
ghost use Rattle.hw_commands.specs.Due.{FailsDue};
ghost use Rattle.hw_commands.specs.Files.{status_of};
ghost use Rattle.hw_commands.specs.CertificateEnds.{certify_ended};
ghost use Rattle.hw_commands.specs.Certified.{IsCertified, IsWritten, IsAnswered, IsCertificateOf, IsAppended, IsPut};
ghost use Rattle.hw_commands.specs.Program.{ended, certify_said};
ghost use Rattle.hw_commands.specs.declared.ended.RunFault.TheVariants as RunFaults;

use crate::audit::or_no_memory;
use crate::ended::{DONE, Ended, Ending, NO, RunFault};
use crate::faults::stopped;
use crate::rewrite::there;
use hw_core::Core;
use hw_io::{Files, IoFault};
use hw_light::{Asked, Certificate, Certified, certify_block, encode_certificate, put_asked};
use hw_replay::replay_log;
use hw_types::{Bytes, Digest, OutOfMemory};
use std::alloc::Global;

/// Writes the certificate of a block that the log under the one word decided into a new file under the other, and
/// says how the run ends.
///
/// Whether the new file is there already is tested first. The log is replayed to its end before the first byte
/// is written.
pub fn certified<F: Files>(
    alloc: Global,
    files: &mut F,
    log: &str,
    block: &Digest,
    new: &str,
) -> Ending
    ensures said { IsTrue F.tells → IfOk result (λ e. e ≡ ended (certify_said (F.held files.old) log.now block.now new.now)) }
    ensures status { IfOk result (λ e. IsCertifyEnd e.status) }
    ensures fault { HasRunFault (F.read_faults files.old) (F.read_faults files.new) (F.append_faults files.old) (F.append_faults files.new) result }
    ensures about { IsTrue F.tells → IfErr result (λ fault. fault ≡ RunFaults.Read → Rose (F.faults_about files.old new.now) (F.faults_about files.new new.now) ⊎ FailsDue (λ h. certify_said h log.now block.now new.now) (F.held files.old) (F.faults_about files.old) (F.faults_about files.new)) }
    ensures files { IsTrue F.tells → IsCertified log.now block.now new.now (status_of result) (F.held files.old) (F.held files.new) }
{
    if is_there(files, new)? {
        return Ok(there(alloc, new)?);
    }
    certify_absent(alloc, files, log, block, new)
}

/// Whether there is a file under this word.
fn is_there<F: Files>(files: &mut F, name: &str) -> Result<bool, RunFault>
    ensures said { IsTrue F.tells → IfOk result (λ answer. IsTrue answer ↔ IsSome (F.held files.old name.now)) }
    ensures fault { HasReadFault (F.read_faults files.old) (F.read_faults files.new) result }
    ensures about { IsTrue F.tells → IfErr result (λ fault. fault ≡ RunFaults.Read → Rose (F.faults_about files.old name.now) (F.faults_about files.new name.now)) }
    ensures counts { IfOk result (λ _. F.faults_about files.new ≡ F.faults_about files.old) }

    ensures files { SameFiles (F.held files.old) (F.held files.new) }
    ensures appends { F.append_faults files.new ≡ F.append_faults files.old }
{
    match files.exists(name) {
        Ok(answer) => Ok(answer),
        Err(IoFault::Failed) => Err(RunFault::Read),
        Err(IoFault::OutOfMemory) => Err(RunFault::OutOfMemory),
    }
}

/// The same where there is no file under the other word.
fn certify_absent<F: Files>(
    alloc: Global,
    files: &mut F,
    log: &str,
    block: &Digest,
    new: &str,
) -> Ending
    requires { IsTrue F.tells → F.held files.old new.now ≡ None }
    ensures said { IsTrue F.tells → IfOk result (λ e. e ≡ ended (certify_said (F.held files.old) log.now block.now new.now)) }
    ensures status { IfOk result (λ e. IsCertifyEnd e.status) }
    ensures fault { HasRunFault (F.read_faults files.old) (F.read_faults files.new) (F.append_faults files.old) (F.append_faults files.new) result }
    ensures about { IsTrue F.tells → IfErr result (λ fault. fault ≡ RunFaults.Read → FailsDue (λ h. certify_said h log.now block.now new.now) (F.held files.old) (F.faults_about files.old) (F.faults_about files.new)) }
    ensures files { IsTrue F.tells → IsCertified log.now block.now new.now (status_of result) (F.held files.old) (F.held files.new) }
{
    match replay_log(alloc, files, log, None) {
        Ok(mut replay) => certify_node(alloc, files, &mut replay.core, block, new),
        Err(fault) => stopped(alloc, log, fault),
    }
}

/// Writes the certificate of a block that the node decided into the file under the word.
fn certify_node<F: Files>(
    alloc: Global,
    files: &mut F,
    core: &mut Core,
    block: &Digest,
    new: &str,
) -> Ending
    ensures said { IfOk result (λ e. e ≡ certify_ended (told_of core.old block.now)) }
    ensures fault { HasRunFault (F.read_faults files.old) (F.read_faults files.new) (F.append_faults files.old) (F.append_faults files.new) result }
    ensures unread { IfErr result (λ fault. fault ≢ RunFaults.Read) }
    ensures files { IsTrue F.tells → IsWritten (IsCertificateOf core.old block.now) new.now (status_of result) (F.held files.old) (F.held files.new) }
{
    let asked = certify_block(alloc, core, block)?;
    write_asked(alloc, files, &asked, new)
}

/// Writes the certificate that was made, if one was, into the file under the word.
fn write_asked<F: Files>(alloc: Global, files: &mut F, asked: &Asked, new: &str) -> Ending
    requires { IfAnswered CertificateFits asked.now }
    ensures said { IfOk result (λ e. e ≡ certify_ended (told_in asked.now)) }
    ensures fault { HasRunFault (F.read_faults files.old) (F.read_faults files.new) (F.append_faults files.old) (F.append_faults files.new) result }
    ensures unread { IfErr result (λ fault. fault ≢ RunFaults.Read) }
    ensures files { IsTrue F.tells → IsWritten (IsAnswered asked.now) new.now (status_of result) (F.held files.old) (F.held files.new) }
{
    put_made(alloc, files, asked, new)?;
    or_no_memory(asked_ended(alloc, asked))
}

/// Appends the certificate that was made, if one was, to the file under the word.
fn put_made<F: Files>(
    alloc: Global,
    files: &mut F,
    asked: &Asked,
    new: &str,
) -> Result<(), RunFault>
    requires { IfAnswered CertificateFits asked.now }
    ensures put { IsTrue F.tells → IsPut asked.now new.now result (F.held files.old) (F.held files.new) }
    ensures fault { HasRunFault (F.read_faults files.old) (F.read_faults files.new) (F.append_faults files.old) (F.append_faults files.new) result }
    ensures unread { IfErr result (λ fault. fault ≢ RunFaults.Read) }
{
    match asked {
        Asked::Answered(Certified::Made(certificate)) => put(alloc, files, certificate, new),
        _ => Ok(()),
    }
}

/// Appends the spelling of the certificate to the file under the word.
fn put<F: Files>(
    alloc: Global,
    files: &mut F,
    certificate: &Certificate,
    new: &str,
) -> Result<(), RunFault>
    requires { CertificateFits certificate.now }
    ensures put { IsTrue F.tells → IsAppended certificate.now new.now result (F.held files.old) (F.held files.new) }
    ensures fault { HasRunFault (F.read_faults files.old) (F.read_faults files.new) (F.append_faults files.old) (F.append_faults files.new) result }
    ensures unread { IfErr result (λ fault. fault ≢ RunFaults.Read) }
{
    let bytes = encode_certificate(alloc, certificate)?;
    match files.append(new, bytes.as_slice()) {
        Ok(()) => Ok(()),
        Err(IoFault::Failed) => Err(RunFault::Append),
        Err(IoFault::OutOfMemory) => Err(RunFault::OutOfMemory),
    }
}

/// How a run ends with this answer.
fn asked_ended(alloc: Global, asked: &Asked) -> Result<Ended, OutOfMemory>
    ensures { IfOk result (λ e. e ≡ certify_ended (told_in asked.now)) }
{
    let mut text = Bytes::new(alloc);
    put_asked(&mut text, asked)?;
    Ok(Ended {
        status: status_of(asked),
        text,
    })
}

/// The status of an answer.
fn status_of(asked: &Asked) -> u8
    ensures { result ≡ (certify_ended (told_in asked.now)).status }
{
    match asked {
        Asked::Answered(Certified::Made(_)) => DONE,
        Asked::Answered(_) | Asked::NoDecision => NO,
    }
}
