//! `check`: what a certificate shows, by keys, and what a log says against it.

ghost use Rattle.std.specs.{Prelude.{◌≡◌, ◌≢◌, length, None, Some, Ok, IsTrue, IfOk, IfErr}, List.{All}, Option.{option_copied}};
ghost use Rattle.hw_types.specs.{Limits.{config_fault}, Spelling.{VertexFits}};
ghost use Rattle.hw_io.specs.Files.{SameFiles};
ghost use Rattle.hw_light.specs.{Checked.{IsCertified, IfYes}, Reading.{certificate_of}, Texts.{error_text}, CheckedTexts.{verdicts_by, checked_of, checked_line}, Keys.{keys_of}};
ghost use Rattle.hw_light.specs.declared.error.CertError.TheVariants as CertErrors;
ghost use Rattle.hw_commands.specs.Faults.{HasReadFault, IsReadOf, IsCheckEnd};
ghost use Rattle.hw_commands.specs.Due.{FailsDue};
ghost use Rattle.hw_commands.specs.Texts.{input_ended};
ghost use Rattle.hw_commands.specs.CertificateEnds.{refused_ended};
ghost use Rattle.hw_commands.specs.Shown.{IsAlike, IsAlikeIn};
ghost use Rattle.hw_commands.specs.Program.{ended, or_misread, certificate_said, or_no_keys, keys_said, answer_said, checked_said, check_said};
ghost use Rattle.hw_commands.specs.declared.ended.RunFault.TheVariants as RunFaults;

use crate::audit::audit_certified;
use crate::ended::{DONE, Ended, Ending, NO, RunFault};
use crate::faults::{bad_input, bad_keys, bytes_of};
use crate::texts::Wrong;
use hw_core::Core;
use hw_io::Files;
use hw_keys::{Keys, KeysFault};
use hw_light::{
    CertError, Certificate, CheckFault, Checked, check_by_keys, checked_text, decode_certificate,
    put_fault, read_keys,
};
use hw_types::{Bytes, OutOfMemory};
use std::alloc::Global;

/// Checks the certificate in the one file by the keys in the other, audits the log of the third word if there is
/// one, and says how the run ends.
///
/// Keys aren't read where the certificate's configuration breaks a limit, and the log is read only after a yes.
pub fn checked<F: Files>(
    alloc: Global,
    files: &mut F,
    file: &str,
    keys: &str,
    log: Option<&str>,
) -> Ending
    ensures said { IsTrue F.tells → IfOk result (λ e. e ≡ ended (check_said (F.held files.old) file.now keys.now (option_copied log.entry))) }
    ensures alike { IsTrue F.tells → IfOk result (λ e. e.status ≡ 3 → IsAlikeIn (F.held files.old) file.now (option_copied log.entry)) }
    ensures status { IfOk result (λ e. IsCheckEnd e.status) }
    ensures fault { HasReadFault (F.read_faults files.old) (F.read_faults files.new) result }
    ensures about { IsTrue F.tells → IfErr result (λ fault. fault ≡ RunFaults.Read → FailsDue (λ h. check_said h file.now keys.now (option_copied log.entry)) (F.held files.old) (F.faults_about files.old) (F.faults_about files.new)) }

    ensures files { SameFiles (F.held files.old) (F.held files.new) }
    ensures appends { F.append_faults files.new ≡ F.append_faults files.old }
{
    match certificate_in(alloc, files, file)? {
        Ok(certificate) => check(alloc, files, file, &certificate, keys, log),
        Err(ended) => Ok(ended),
    }
}

/// The certificate in the file under this word, or how the run ends where its bytes are none.
fn certificate_in<F: Files>(
    alloc: Global,
    files: &mut F,
    file: &str,
) -> Result<Result<Certificate, Ended>, RunFault>
    ensures said { IsTrue F.tells → IfOk result (λ part. part ≡ certificate_said (F.held files.old) file.now) }
    ensures fits { IfOk result (λ part. IfOk part (λ certificate. All VertexFits certificate.vertices)) }
    ensures status { IfOk result (λ part. IfErr part (λ e. e.status ≡ 2)) }
    ensures fault { HasReadFault (F.read_faults files.old) (F.read_faults files.new) result }
    ensures about { IsTrue F.tells → IsReadOf (F.held files.old file.now) file.now (F.faults_about files.old) (F.faults_about files.new) result }

    ensures files { SameFiles (F.held files.old) (F.held files.new) }
    ensures appends { F.append_faults files.new ≡ F.append_faults files.old }
{
    let bytes = bytes_of(alloc, files, file)?;
    decoded(alloc, file, bytes.as_slice())
}

/// The certificate that the bytes spell, or how the run ends where they spell none.
fn decoded(alloc: Global, file: &str, bytes: &[u8]) -> Result<Result<Certificate, Ended>, RunFault>
    ensures said { IfOk result (λ part. part ≡ or_misread file.now (certificate_of bytes.now)) }
    ensures fits { IfOk result (λ part. IfOk part (λ certificate. All VertexFits certificate.vertices)) }
    ensures status { IfOk result (λ part. IfErr part (λ e. e.status ≡ 2)) }
    ensures fault { IfErr result (λ fault. fault ≡ RunFaults.OutOfMemory) }
{
    match decode_certificate(alloc, bytes) {
        Ok(certificate) => Ok(Ok(certificate)),
        Err(error) => Ok(Err(undecoded(alloc, file, error)?)),
    }
}

/// How the run ends where the bytes can't be read as a certificate.
fn undecoded(alloc: Global, file: &str, error: CertError) -> Ending
    ensures said { IfOk result (λ e. (e ≡ input_ended file.now (error_text error)) × (error ≢ CertErrors.OutOfMemory)) }
    ensures fault { IfErr result (λ fault. fault ≡ RunFaults.OutOfMemory) }
{
    match error {
        CertError::OutOfMemory => Err(RunFault::OutOfMemory),
        error => Ok(bad_input(alloc, file, Wrong::Certificate(error))?),
    }
}

/// Checks a certificate whose vertices keep the limits of their format.
fn check<F: Files>(
    alloc: Global,
    files: &mut F,
    file: &str,
    certificate: &Certificate,
    keys: &str,
    log: Option<&str>,
) -> Ending
    requires { All VertexFits certificate.now.vertices }
    ensures said { IsTrue F.tells → IfOk result (λ e. e ≡ ended (checked_said (F.held files.old) file.now keys.now (option_copied log.entry) certificate.now (config_fault certificate.now.config))) }
    ensures alike { IsTrue F.tells → IfOk result (λ e. e.status ≡ 3 → IsAlike (F.held files.old) certificate.now (option_copied log.entry)) }
    ensures status { IfOk result (λ e. IsCheckEnd e.status) }
    ensures fault { HasReadFault (F.read_faults files.old) (F.read_faults files.new) result }
    ensures about { IsTrue F.tells → IfErr result (λ fault. fault ≡ RunFaults.Read → FailsDue (λ h. checked_said h file.now keys.now (option_copied log.entry) certificate.now (config_fault certificate.now.config)) (F.held files.old) (F.faults_about files.old) (F.faults_about files.new)) }

    ensures files { SameFiles (F.held files.old) (F.held files.new) }
    ensures appends { F.append_faults files.new ≡ F.append_faults files.old }
{
    match certificate.config.check() {
        Ok(()) => check_lawful(alloc, files, file, certificate, keys, log),
        Err(fault) => Ok(refused(alloc, CheckFault::Config(fault))?),
    }
}

/// The same where its configuration keeps its limits.
#[tactic(auto, using(hw_types::proofs::LimitLaws::within_limits))]
fn check_lawful<F: Files>(
    alloc: Global,
    files: &mut F,
    file: &str,
    certificate: &Certificate,
    keys: &str,
    log: Option<&str>,
) -> Ending
    requires fits { All VertexFits certificate.now.vertices }
    requires lawful { config_fault certificate.now.config ≡ None }
    ensures said { IsTrue F.tells → IfOk result (λ e. e ≡ ended (checked_said (F.held files.old) file.now keys.now (option_copied log.entry) certificate.now None)) }
    ensures alike { IsTrue F.tells → IfOk result (λ e. e.status ≡ 3 → IsAlike (F.held files.old) certificate.now (option_copied log.entry)) }
    ensures status { IfOk result (λ e. IsCheckEnd e.status) }
    ensures fault { HasReadFault (F.read_faults files.old) (F.read_faults files.new) result }
    ensures about { IsTrue F.tells → IfErr result (λ fault. fault ≡ RunFaults.Read → FailsDue (λ h. checked_said h file.now keys.now (option_copied log.entry) certificate.now None) (F.held files.old) (F.faults_about files.old) (F.faults_about files.new)) }

    ensures files { SameFiles (F.held files.old) (F.held files.new) }
    ensures appends { F.append_faults files.new ≡ F.append_faults files.old }
{
    match keys_in(alloc, files, keys, certificate.config.weights.len() as u32)? {
        Ok(keys) => check_with(alloc, files, file, certificate, &keys, log),
        Err(ended) => Ok(ended),
    }
}

/// The keys in the file under this word, one for each validator, or how the run ends where a byte of it is
/// wrong.
fn keys_in<F: Files>(
    alloc: Global,
    files: &mut F,
    name: &str,
    validators: u32,
) -> Result<Result<Keys, Ended>, RunFault>
    ensures said { IsTrue F.tells → IfOk result (λ part. part ≡ keys_said (F.held files.old) name.now validators) }
    ensures status { IfOk result (λ part. IfErr part (λ e. e.status ≡ 2)) }
    ensures fault { HasReadFault (F.read_faults files.old) (F.read_faults files.new) result }
    ensures about { IsTrue F.tells → IsReadOf (F.held files.old name.now) name.now (F.faults_about files.old) (F.faults_about files.new) result }

    ensures files { SameFiles (F.held files.old) (F.held files.new) }
    ensures appends { F.append_faults files.new ≡ F.append_faults files.old }
{
    let text = bytes_of(alloc, files, name)?;
    keys_in_text(alloc, name, text.as_slice(), validators)
}

/// The keys that the text spells, one for each validator, or how the run ends where a byte of it is wrong.
fn keys_in_text(
    alloc: Global,
    name: &str,
    text: &[u8],
    validators: u32,
) -> Result<Result<Keys, Ended>, RunFault>
    ensures said { IfOk result (λ part. part ≡ or_no_keys name.now (keys_of validators text.now)) }
    ensures status { IfOk result (λ part. IfErr part (λ e. e.status ≡ 2)) }
    ensures fault { IfErr result (λ fault. fault ≡ RunFaults.OutOfMemory) }
{
    match read_keys(alloc, text, validators) {
        Ok(keys) => Ok(Ok(keys)),
        Err(KeysFault::At(place)) => Ok(Err(bad_keys(alloc, name, place)?)),
        Err(KeysFault::OutOfMemory) => Err(RunFault::OutOfMemory),
    }
}

/// Checks a certificate by these keys.
fn check_with<F: Files>(
    alloc: Global,
    files: &mut F,
    file: &str,
    certificate: &Certificate,
    keys: &Keys,
    log: Option<&str>,
) -> Ending
    requires { All VertexFits certificate.now.vertices }
    ensures said { IsTrue F.tells → IfOk result (λ e. e ≡ ended (answer_said (F.held files.old) file.now certificate.now (option_copied log.entry) (checked_of certificate.now (verdicts_by keys.now certificate.now.vertices)))) }
    ensures alike { IsTrue F.tells → IfOk result (λ e. e.status ≡ 3 → IsAlike (F.held files.old) certificate.now (option_copied log.entry)) }
    ensures status { IfOk result (λ e. IsCheckEnd e.status) }
    ensures fault { HasReadFault (F.read_faults files.old) (F.read_faults files.new) result }
    ensures about { IsTrue F.tells → IfErr result (λ fault. fault ≡ RunFaults.Read → FailsDue (λ h. answer_said h file.now certificate.now (option_copied log.entry) (checked_of certificate.now (verdicts_by keys.now certificate.now.vertices))) (F.held files.old) (F.faults_about files.old) (F.faults_about files.new)) }

    ensures files { SameFiles (F.held files.old) (F.held files.new) }
    ensures appends { F.append_faults files.new ≡ F.append_faults files.old }
{
    let checked = check_by_keys(alloc, certificate, keys)?;
    answer(alloc, files, file, certificate, &checked, log)
}

/// How the run ends with the answer to a certificate. After a yes the log of this word, if there is one, is
/// audited against the certificate's node.
fn answer<F: Files>(
    alloc: Global,
    files: &mut F,
    file: &str,
    certificate: &Certificate,
    checked: &Checked,
    log: Option<&str>,
) -> Ending
    requires { IfYes (IsCertified certificate.now) checked.now }
    ensures said { IsTrue F.tells → IfOk result (λ e. e ≡ ended (answer_said (F.held files.old) file.now certificate.now (option_copied log.entry) checked.now)) }
    ensures alike { IsTrue F.tells → IfOk result (λ e. e.status ≡ 3 → IsAlike (F.held files.old) certificate.now (option_copied log.entry)) }
    ensures status { IfOk result (λ e. IsCheckEnd e.status) }
    ensures fault { HasReadFault (F.read_faults files.old) (F.read_faults files.new) result }
    ensures about { IsTrue F.tells → IfErr result (λ fault. fault ≡ RunFaults.Read → FailsDue (λ h. answer_said h file.now certificate.now (option_copied log.entry) checked.now) (F.held files.old) (F.faults_about files.old) (F.faults_about files.new)) }

    ensures files { SameFiles (F.held files.old) (F.held files.new) }
    ensures appends { F.append_faults files.new ≡ F.append_faults files.old }
{
    match (checked, log) {
        (Checked::No(fault), _) => Ok(refused(alloc, *fault)?),
        (Checked::Yes(_), None) => Ok(shown_ended(alloc, certificate, checked)?),
        (Checked::Yes(core), Some(log)) => audit_certified(
            alloc,
            files,
            file,
            certificate,
            core,
            log,
        ),
    }
}

/// How the run ends where the certificate shows its block.
fn shown_ended(
    alloc: Global,
    certificate: &Certificate,
    checked: &Checked,
) -> Result<Ended, OutOfMemory>
    requires { IfYes (IsCertified certificate.now) checked.now }
    ensures { IfOk result (λ e. e ≡ record { status = 0; text = checked_line certificate.now.block checked.now }) }
{
    let text = checked_text(alloc, certificate, checked)?;
    Ok(Ended { status: DONE, text })
}

/// How the run ends where the certificate shows nothing, for this fault.
fn refused(alloc: Global, fault: CheckFault) -> Result<Ended, OutOfMemory>
    ensures { IfOk result (λ e. e ≡ refused_ended fault) }
{
    let mut text = Bytes::new(alloc);
    put_fault(&mut text, fault)?;
    Ok(Ended { status: NO, text })
}
