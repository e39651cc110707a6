//! Certificates: a node makes them, and anyone reads and checks them.

ghost use Rattle.std.specs.{Prelude.{◌≡◌, nat_le, map, IfOk}, List.{All, list_all}};
ghost use Rattle.hw_types.specs.Spelling.{ConfigFits, VertexFits};
ghost use Rattle.hw_light.specs.Checked.{IsAnswer, IfYes, IsCertified};
ghost use Rattle.hw_c.specs.Answers.{signed_of};
ghost use Rattle.hw_c.specs.Light.{unjudged, refused, accepted, value_in, IsJudgedAs, HasKeptLimits, verdicts_of, IsCertificate, AreCertifiedSigned, IsJudged};
ghost use Rattle.hw_light.specs.{CheckedTexts.{height_or_zero}, Asked.{decided_block}};

use crate::codes::{Fault, cause_status, config_status};
use crate::facts::value_of;
use crate::put::{WithBytes, copy_all};
use crate::signed::{Signed, signed_of};
use hw_codec::instance_of;
use hw_core::Core;
use hw_light::{
    Certificate, Certified, CheckFault, Checked, certify, check, decision_of, decode_certificate,
    encode_certificate,
};
use hw_types::{Bytes, Digest, OutOfMemory, Vertex};
use std::alloc::Global;

/// The answer to a certificate with verdicts, its block, and the instance of its configuration.
#[repr(C)]
#[derive(Clone, Copy)]
pub struct Judged {
    pub kind: u32,
    /// The status of the refusal, or of the limit that the configuration breaks; else 0.
    pub status: u32,
    /// The vertex that is refused, counted from 0; else 0.
    pub number: u32,
    /// The weight of the faulty validators where it exceeds the threshold; else 0.
    pub weight: u64,
    /// After a yes: the height of the block; else 0.
    pub height: u64,
    /// After a yes: how many bytes the block's value has; else 0.
    pub length: u64,
    /// The sum of the weights of the certificate's own configuration.
    pub total: u64,
    pub block: [u8; 32],
    pub instance: [u8; 32],
}

/// The certificate of the decided block of that place, as bytes. `OutOfRange` where fewer blocks are decided, `Nothing`
/// where the node can't certify the block now, and `TooLong` where the vertices are too many.
pub fn certificate(alloc: Global, core: &mut Core, index: u64) -> Result<Bytes, Fault>
    ensures made { IsCertificate core.old index result }
    ensures unchanged { core.new ≡ core.old }
{
    if index >= core.decision_count() {
        return Err(Fault::OutOfRange);
    }
    match certify(alloc, core, index)? {
        Certified::Made(certificate) => Ok(encode_certificate(alloc, &certificate)?),
        Certified::NotNow => Err(Fault::Nothing),
        Certified::TooLong(_) => Err(Fault::TooLong),
    }
}

/// Who signed each of the vertices, and which units.
fn signed_list(alloc: Global, vertices: &[Vertex]) -> Result<Vec<Signed>, OutOfMemory>
    requires { All VertexFits vertices.now }
    ensures { IfOk result (λ list. list.items ≡ map signed_of vertices.now) }
{
    let mut list = Vec::with_capacity(alloc, vertices.len())?;
    'vertices: for vertex in vertices {
        list.push(signed_of(alloc, vertex)?)?;
    }
    Ok(list)
}

/// Who signed each vertex of the certificate that the bytes spell, and which units: as many as the list has places for.
/// Answers how many vertices the certificate has.
pub fn certified_signatures(
    alloc: Global,
    bytes: &[u8],
    list: &mut [Signed],
) -> Result<usize, Fault>
    ensures { AreCertifiedSigned bytes.now list.old list.new result }
{
    let certificate = decode_certificate(alloc, bytes)?;
    let signed = signed_list(alloc, certificate.vertices.as_slice())?;
    Ok(copy_all(signed.as_slice(), list))
}

/// An answer of no kind to the certificate: its block, its instance, and the weight of all its validators.
fn unjudged(certificate: &Certificate, instance: Digest, total: u64) -> Judged
    ensures { result ≡ unjudged certificate.now.block instance total }
{
    let block = certificate.block.0;
    let instance = instance.0;
    Judged {
        kind: 0,
        status: 0,
        number: 0,
        weight: 0,
        height: 0,
        length: 0,
        total,
        block,
        instance,
    }
}

/// A no, with what belongs to it.
fn refused(judged: Judged, fault: CheckFault) -> Judged
    ensures { result ≡ refused judged fault }
{
    let mut judged = judged;
    match fault {
        CheckFault::Config(limit) => {
            judged.kind = 1;
            judged.status = config_status(limit);
        }
        CheckFault::Refused(number, cause) => {
            judged.kind = 2;
            judged.status = cause_status(cause);
            judged.number = number;
        }
        CheckFault::Exceeded(weight) => {
            judged.kind = 3;
            judged.weight = weight;
        }
        CheckFault::Unstood => judged.kind = 4,
    }
    judged
}

/// The bytes of the value of the journal's unit of this digest: none where there is no such unit, or it has no value.
fn value_in(alloc: Global, core: &Core, block: &Digest) -> Result<Bytes, OutOfMemory>
    ensures { IfOk result (λ bytes. bytes ≡ value_in core.now block.now) }
{
    match core.unit_of(block) {
        Some(signed) => value_of(alloc, &signed.unit),
        None => Ok(Bytes::new(alloc)),
    }
}

/// The height of the decided block of this digest; 0 where there is none.
fn height_in(core: &Core, block: &Digest) -> u64
    ensures { result ≡ height_or_zero (decided_block core.now block.now) }
{
    match decision_of(core, block) {
        Some(index) => core.decision(index).height,
        None => 0,
    }
}

/// A yes, with the height of the block and its value.
fn accepted(
    alloc: Global,
    judged: Judged,
    core: &Core,
    block: &Digest,
) -> Result<WithBytes<Judged>, OutOfMemory>
    ensures { IfOk result (λ both. (both.value ≡ accepted judged core.now block.now) × (both.bytes ≡ value_in core.now block.now)) }
{
    let bytes = value_in(alloc, core, block)?;
    let mut value = judged;
    value.height = height_in(core, block);
    value.length = bytes.len() as u64;
    Ok(WithBytes { value, bytes })
}

/// The answer as a struct, with the block's value where it is yes.
fn judged_of(
    alloc: Global,
    certificate: &Certificate,
    checked: &Checked,
) -> Result<WithBytes<Judged>, OutOfMemory>
    requires fits { ConfigFits certificate.now.config }
    requires lawful { HasKeptLimits checked.now certificate.now.config }
    ensures { IfOk result (IsJudgedAs certificate.now checked.now) }
{
    let instance = instance_of(alloc, &certificate.config)?;
    match checked {
        Checked::No(CheckFault::Config(limit)) => Ok(WithBytes {
            value: refused(
                unjudged(certificate, instance, 0),
                CheckFault::Config(*limit),
            ),
            bytes: Bytes::new(alloc),
        }),
        Checked::No(fault) => Ok(WithBytes {
            value: refused(
                unjudged(certificate, instance, certificate.config.total()),
                *fault,
            ),
            bytes: Bytes::new(alloc),
        }),
        Checked::Yes(core) => {
            let judged = unjudged(certificate, instance, certificate.config.total());
            accepted(alloc, judged, core, &certificate.block)
        }
    }
}

/// Whether each of the numbers is a verdict: 0 no, or 1 yes.
fn are_verdicts(numbers: &[u32]) -> bool
    ensures { result ≡ list_all (λ n. nat_le n 1) numbers.now }
{
    numbers.iter().all(|number| *number <= 1)
}

/// The verdicts of these numbers.
fn verdicts_of(alloc: Global, numbers: &[u32]) -> Result<Vec<bool>, OutOfMemory>
    ensures { IfOk result (λ verdicts. verdicts.items ≡ verdicts_of numbers.now) }
{
    Ok(numbers.iter().map(|number| *number == 1).collect(alloc)?)
}

/// The answer to the certificate that the bytes spell, with these verdicts on the signatures of its vertices: 0 no, 1
/// yes. With a yes comes the value of the block. `OutOfRange` where there are not as many verdicts as vertices, or one
/// is another number.
pub fn judgement(alloc: Global, bytes: &[u8], numbers: &[u32]) -> Result<WithBytes<Judged>, Fault>
    ensures { IsJudged bytes.now numbers.now result }
{
    let certificate = decode_certificate(alloc, bytes)?;
    if numbers.len() != certificate.vertices.len() || !are_verdicts(numbers) {
        return Err(Fault::OutOfRange);
    }
    let verdicts = verdicts_of(alloc, numbers)?;
    let checked = check(alloc, &certificate, verdicts.as_slice())?;
    Ok(judged_of(alloc, &certificate, &checked)?)
}
