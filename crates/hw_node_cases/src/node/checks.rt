//! Certificates that are checked.

ghost use Rattle.std.specs.List.{All};
ghost use Rattle.hw_types.specs.Spelling.{VertexFits};
ghost use Rattle.hw_light.specs.Spelling.{CertificateFits};

use crate::node::printed::put_signed_line;
use hw_case_words::{Answer, with_line_feeds};
use hw_core::Core;
use hw_keys::{Keys, KeysFault};
use hw_light::{Certificate, CheckFault, Checked, check};
use hw_types::{Digest, Vertex};

/// The answer to the certificate with the verdicts by the keys of this text, one for each validator, or what is
/// printed of it.
pub fn put_by_keys(answer: &mut Answer, kind: &str, certificate: &Certificate, text: &str)
    requires fits { CertificateFits certificate.now }
    requires vertices { All VertexFits certificate.now.vertices }
{
    let validators = certificate.config.weights.len() as u32;
    match with_line_feeds(answer.alloc(), text) {
        Some(text) => read_keys(answer, kind, certificate, validators, text.as_slice()),
        None => answer.refuse(),
    }
}

/// The same with the keys of this text.
fn read_keys(
    answer: &mut Answer,
    kind: &str,
    certificate: &Certificate,
    validators: u32,
    text: &[u8],
)
    requires { All VertexFits certificate.now.vertices }
{
    match Keys::read(answer.alloc(), text, validators) {
        Ok(keys) if kind == "print" => put_signed_line(answer, certificate, &keys),
        Ok(keys) => put_signed(answer, certificate, &keys),
        Err(KeysFault::At(place)) => {
            answer.put("keys at ");
            answer.number(place);
        }
        Err(KeysFault::OutOfMemory) => answer.refuse(),
    }
}

/// The answer with the verdicts by these keys.
fn put_signed(answer: &mut Answer, certificate: &Certificate, keys: &Keys)
    requires { All VertexFits certificate.now.vertices }
{
    let verdicts = verdicts_by(answer, keys, certificate.vertices.as_slice());
    put_checked(answer, certificate, verdicts.as_slice());
}

/// The verdict on each vertex by these keys.
fn verdicts_by(answer: &mut Answer, keys: &Keys, vertices: &[Vertex]) -> Vec<bool>
    requires { All VertexFits vertices.now }
{
    let mut verdicts = Vec::new(answer.alloc());
    for vertex in vertices {
        match keys.verdict(vertex) {
            Ok(verdict) => put_verdict(answer, &mut verdicts, verdict),
            Err(_) => answer.refuse(),
        }
    }
    verdicts
}

fn put_verdict(answer: &mut Answer, verdicts: &mut Vec<bool>, verdict: bool) {
    if verdicts.push(verdict).is_err() {
        answer.refuse();
    }
}

/// The answer to the certificate with a verdict for each of these digits, true for a 1.
pub fn put_by_digits(answer: &mut Answer, certificate: &Certificate, digits: &str)
    requires { All VertexFits certificate.now.vertices }
{
    let mut verdicts = Vec::new(answer.alloc());
    for digit in digits.as_bytes() {
        put_verdict(answer, &mut verdicts, *digit == b'1');
    }
    put_checked(answer, certificate, verdicts.as_slice());
}

/// The answer to the certificate with these verdicts.
fn put_checked(answer: &mut Answer, certificate: &Certificate, verdicts: &[bool])
    requires { All VertexFits certificate.now.vertices }
{
    if verdicts.len() != certificate.vertices.len() {
        return answer.put("other count");
    }
    match check(answer.alloc(), certificate, verdicts) {
        Ok(Checked::Yes(core)) => put_yes(answer, &core, &certificate.block),
        Ok(Checked::No(fault)) => put_fault(answer, fault),
        Err(_) => answer.refuse(),
    }
}

/// That the block stands, its height, and the length of the node's journal.
fn put_yes(answer: &mut Answer, core: &Core, block: &Digest) {
    for index in 0..core.decision_count() {
        let decision = core.decision(index);
        if decision.block == *block {
            let (height, count) = (decision.height, core.journal_count());
            let put = write!(answer.text, "yes height {height} journal {count}");
            return answer.keep(put);
        }
    }
    answer.put("yes without a decision");
}

/// Why the certificate shows nothing.
fn put_fault(answer: &mut Answer, fault: CheckFault) {
    match fault {
        CheckFault::Config(fault) => {
            answer.put("no config ");
            answer.debug(&fault);
        }
        CheckFault::Refused(number, _) => {
            answer.put("no refused ");
            answer.show(&number);
        }
        CheckFault::Exceeded(weight) => {
            answer.put("no exceeded ");
            answer.show(&weight);
        }
        CheckFault::Unstood => answer.put("no standing"),
    }
}
