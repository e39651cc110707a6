//! The core for C and Rust: the functions that `highway.h` declares.
//!
//! A caller owns a handle: one word, which is null until `hw_core_new` fills it. A call takes the node out of its
//! handle, works, and puts it back. So calls of one handle never overlap. A handle without a node gets a status of its
//! own. The library hands out none of its memory: bytes go into the caller's buffer as far as they fit. The length in
//! the answer counts all of them.
//!
//! Each contract names the outcome of the call and relates it to the node. It then says what the status and the
//! caller's structs hold of that outcome.
#![tactic(auto)]

ghost use Rattle.std.specs.Prelude.{◌≡◌, ℕ, List, Result, None};
ghost use Rattle.sha2.specs.Sha256.{sha256};
ghost use Rattle.hw_c.specs.declared.audits.Audited.{Audited};
ghost use Rattle.hw_c.specs.declared.calls.Decided.{Decided};
ghost use Rattle.hw_c.specs.declared.calls.Observed.{Observed};
ghost use Rattle.hw_c.specs.declared.calls.Placed.{Placed};
ghost use Rattle.hw_c.specs.declared.calls.Summary.{Summary};
ghost use Rattle.hw_c.specs.declared.codes.Fault.{Fault};
ghost use Rattle.hw_c.specs.declared.due.Due.{Due};
ghost use Rattle.hw_c.specs.declared.facts.UnitFacts.{UnitFacts};
ghost use Rattle.hw_c.specs.declared.light.Judged.{Judged};
ghost use Rattle.hw_c.specs.declared.put.WithBytes.{WithBytes};
ghost use Rattle.hw_c.specs.declared.signed.Signed.{Signed};
ghost use Rattle.hw_c.specs.declared.steps.Planned.{Planned};
ghost use Rattle.hw_c.specs.Audits.{IsAudit};
ghost use Rattle.hw_c.specs.Buffers.{IsWritten, IsPutWithBytes};
ghost use Rattle.hw_c.specs.Calls.{IsSigned, IsEntry, IsSummary, IsObserved, IsPlaced, IsDecided, AreFaulty, IsUnmet, IsWithSignature, IsEndorsement};
ghost use Rattle.hw_c.specs.Due.{IsDue};
ghost use Rattle.hw_c.specs.Facts.{IsUnitFacts, IsSpelledFacts};
ghost use Rattle.hw_c.specs.Handles.{Begins, Ends, Delivers, Reads, ReadsBoth};
ghost use Rattle.hw_c.specs.Light.{IsCertificate, AreCertifiedSigned, IsJudged};
ghost use Rattle.hw_c.specs.Needed.{IsForNeed};
ghost use Rattle.hw_c.specs.Settings.{IsConfig};
ghost use Rattle.hw_c.specs.Steps.{IsStep};
ghost use Rattle.hw_c.specs.Told.{status, behind, Puts, PutsWith};

mod audits;
mod calls;
mod codes;
mod content;
mod deliveries;
mod due;
mod facts;
mod handle;
mod held;
mod light;
mod names;
mod needs;
mod put;
mod sent;
mod settings;
mod signed;
mod steps;

pub use audits::Audited;
pub use calls::{Decided, Observed, Placed, Summary};
pub use codes::Answer;
pub use due::Due;
pub use facts::UnitFacts;
pub use handle::Handle;
pub use light::Judged;
pub use needs::Missing;
use put::{put, put_both, put_both_with, put_bytes, put_bytes_with, put_done, put_with};
pub use sent::{Delivered, Sent};
pub use settings::Settings;
use sha2::{Digest as _, Sha256};
pub use signed::{Signed, Signer};
use std::alloc::Global;
pub use steps::Planned;

/// The version of these declarations: of 1.2.3 the number 0x010203.
pub const VERSION: u32 = 0x000200;

/// The version that the library was built with.
#[unsafe(no_mangle)]
pub extern "C" fn hw_version(_alloc: Global) -> u32
    ensures { result ≡ 512 }
{
    VERSION
}

/// The SHA-256 digest of the bytes.
#[unsafe(no_mangle)]
pub extern "C" fn hw_sha256(_alloc: Global, bytes: &[u8], digest: &mut [u8; 32]) -> u32
    ensures digest { digest.new ≡ sha256 bytes.now }
    ensures status { result ≡ 0 }
{
    *digest = Sha256::digest(bytes);
    codes::OK
}

/// Spells the configuration with these fields as bytes.
#[unsafe(no_mangle)]
pub extern "C" fn hw_config(
    alloc: Global,
    settings: &Settings,
    weights: &[u64],
    table: &[u32],
    buf: &mut [u8],
    len: &mut usize,
    answer: &mut Answer,
) -> u32
    ensures { (r : Result (List ℕ) Fault) × IsConfig settings.now weights.now table.now r × IsWritten r buf.old buf.new len.old len.new × (result ≡ status r) × (answer.new ≡ behind r) }
{
    let outcome = settings::spelled(alloc, settings, weights, table);
    put_bytes_with(outcome, buf, len, answer)
}

/// Puts a new node into an empty handle. The bytes spell its configuration.
#[unsafe(no_mangle)]
pub extern "C" fn hw_core_new(
    alloc: Global,
    config: &[u8],
    answer: &mut Answer,
    core: &mut Handle,
) -> u32
    ensures { (r : Result Unit Fault) × Begins core.old.held config.now r core.new.held × (result ≡ status r) × (answer.new ≡ behind r) }
{
    let outcome = core.begin(alloc, config);
    put_done(outcome, answer)
}

/// Frees the node of a handle. The handle is empty then.
#[unsafe(no_mangle)]
pub extern "C" fn hw_core_free(alloc: Global, core: &mut Handle) -> u32
    ensures { (r : Result Unit Fault) × Ends core.old.held r core.new.held × (result ≡ status r) }
{
    let outcome = core.end(alloc);
    put::said(outcome)
}

/// Who signed the vertex that the bytes spell, and which units.
#[unsafe(no_mangle)]
pub extern "C" fn hw_signed(
    alloc: Global,
    vertex: &[u8],
    signed: &mut Signed,
    answer: &mut Answer,
) -> u32
    ensures { (r : Result Signed Fault) × IsSigned vertex.now r × PutsWith r signed.old signed.new answer.new result }
{
    let outcome = signed::signatures(alloc, vertex);
    put_with(outcome, signed, answer)
}

/// Delivers the vertices in order, each with the verdict on its signatures, and writes the answer to each. The bytes
/// hold all of the vertices. The two lists are equally long. The units among the vertices are hashed four side by side.
#[unsafe(no_mangle)]
pub extern "C" fn hw_deliver(
    alloc: Global,
    core: &mut Handle,
    bytes: &[u8],
    vertices: &[Sent],
    delivered: &mut [Delivered],
) -> u32
    ensures { (r : Result Unit Fault) × Delivers core.old.held bytes.now vertices.now delivered.old r delivered.new core.new.held × (result ≡ status r) }
{
    let outcome = core.deliver(alloc, bytes, vertices, delivered);
    put::said(outcome)
}

/// The journal's entry of that place, as bytes.
#[unsafe(no_mangle)]
pub extern "C" fn hw_journal(
    alloc: Global,
    core: &mut Handle,
    place: u64,
    buf: &mut [u8],
    len: &mut usize,
) -> u32
    ensures { (r : Result (List ℕ) Fault) × Reads (λ c. IsEntry c place) core.old.held r core.new.held × IsWritten r buf.old buf.new len.old len.new × (result ≡ status r) }
{
    let outcome = core.read_entry(alloc, place);
    put_bytes(outcome, buf, len)
}

/// The counts of the node, the weight of its faulty validators, and its fork choice.
#[unsafe(no_mangle)]
pub extern "C" fn hw_summary(alloc: Global, core: &mut Handle, summary: &mut Summary) -> u32
    ensures { (r : Result Summary Fault) × Reads IsSummary core.old.held r core.new.held × Puts r summary.old summary.new result }
{
    let outcome = core.read_summary(alloc);
    put(outcome, summary)
}

/// What the node observes of the validator.
#[unsafe(no_mangle)]
pub extern "C" fn hw_observation(
    alloc: Global,
    core: &mut Handle,
    validator: u32,
    observed: &mut Observed,
) -> u32
    ensures { (r : Result Observed Fault) × Reads (λ c. IsObserved c validator) core.old.held r core.new.held × Puts r observed.old observed.new result }
{
    let outcome = core.read_observed(alloc, validator);
    put(outcome, observed)
}

/// What became of the unit of this digest.
#[unsafe(no_mangle)]
pub extern "C" fn hw_place(
    alloc: Global,
    core: &mut Handle,
    digest: &[u8; 32],
    placed: &mut Placed,
) -> u32
    ensures { (r : Result Placed Fault) × Reads (λ c. IsPlaced c digest.now) core.old.held r core.new.held × Puts r placed.old placed.new result }
{
    let outcome = core.read_placed(alloc, digest);
    put(outcome, placed)
}

/// What the journal's unit of this digest is: what it says, what became of it, and where it is settled its vote, parent
/// and height. As many bytes of its value as fit go into the buffer, and as many of its observations into the list.
#[unsafe(no_mangle)]
pub extern "C" fn hw_unit(
    alloc: Global,
    core: &mut Handle,
    digest: &[u8; 32],
    facts: &mut UnitFacts,
    list: &mut [Observed],
    buf: &mut [u8],
) -> u32
    ensures read { (r : Result (WithBytes UnitFacts) Fault) × Reads (λ c. IsUnitFacts c digest.now list.old list.new) core.old.held r core.new.held × IsPutWithBytes r facts.old facts.new buf.old buf.new × (result ≡ status r) }
    ensures empty { core.old.held ≡ None → list.new ≡ list.old }
{
    let outcome = core.read_unit(alloc, digest, list);
    put_both(outcome, facts, buf)
}

/// What the unit of the vertex that the bytes spell says, whether or not the node has it, with its round and the leader
/// of that. As many bytes of its value as fit go into the buffer, and as many of its observations into the list.
#[unsafe(no_mangle)]
pub extern "C" fn hw_spelled_unit(
    alloc: Global,
    core: &mut Handle,
    vertex: &[u8],
    facts: &mut UnitFacts,
    list: &mut [Observed],
    buf: &mut [u8],
) -> u32
    ensures read { (r : Result (WithBytes UnitFacts) Fault) × Reads (λ c. IsSpelledFacts c.config vertex.now list.old list.new) core.old.held r core.new.held × IsPutWithBytes r facts.old facts.new buf.old buf.new × (result ≡ status r) }
    ensures empty { core.old.held ≡ None → list.new ≡ list.old }
{
    let outcome = core.read_spelled(alloc, vertex, list);
    put_both(outcome, facts, buf)
}

/// The decided block of that place.
#[unsafe(no_mangle)]
pub extern "C" fn hw_decision(
    alloc: Global,
    core: &mut Handle,
    index: u64,
    decided: &mut Decided,
) -> u32
    ensures { (r : Result Decided Fault) × Reads (λ c. IsDecided c index) core.old.held r core.new.held × Puts r decided.old decided.new result }
{
    let outcome = core.read_decided(alloc, index);
    put(outcome, decided)
}

/// The faulty validators in rising order, as many as fit. The count is that of all of them.
#[unsafe(no_mangle)]
pub extern "C" fn hw_faulty(
    alloc: Global,
    core: &mut Handle,
    list: &mut [u32],
    count: &mut usize,
) -> u32
    ensures read { (r : Result ℕ Fault) × Reads (λ c. AreFaulty c list.old list.new) core.old.held r core.new.held × Puts r count.old count.new result }
    ensures empty { core.old.held ≡ None → list.new ≡ list.old }
{
    let outcome = core.read_faulty(alloc, list);
    put(outcome, count)
}

/// The first needs that parked units miss, as many as fit. The count says how many that are.
#[unsafe(no_mangle)]
pub extern "C" fn hw_unmet(
    alloc: Global,
    core: &mut Handle,
    list: &mut [Missing],
    count: &mut usize,
) -> u32
    ensures read { (r : Result ℕ Fault) × Reads (λ c. IsUnmet c list.old list.new) core.old.held r core.new.held × Puts r count.old count.new result }
    ensures empty { core.old.held ≡ None → list.new ≡ list.old }
{
    let outcome = core.read_unmet(alloc, list);
    put(outcome, count)
}

/// The vertex of that place among those that the node has for the need, as bytes.
#[unsafe(no_mangle)]
pub extern "C" fn hw_for_need(
    alloc: Global,
    core: &mut Handle,
    missing: &Missing,
    place: usize,
    buf: &mut [u8],
    len: &mut usize,
) -> u32
    ensures { (r : Result (List ℕ) Fault) × Reads (λ c. IsForNeed c missing.now place) core.old.held r core.new.held × IsWritten r buf.old buf.new len.old len.new × (result ≡ status r) }
{
    let outcome = core.read_for_need(alloc, missing, place);
    put_bytes(outcome, buf, len)
}

/// What the validator has to make at this moment, why it has nothing to make, and until when that stays so while the
/// journal does.
#[unsafe(no_mangle)]
pub extern "C" fn hw_due(alloc: Global, core: &mut Handle, me: u32, now: u64, due: &mut Due) -> u32
    ensures { (r : Result Due Fault) × Reads (λ c. IsDue c me now) core.old.held r core.new.held × Puts r due.old due.new result }
{
    let outcome = core.read_due(alloc, me, now);
    put(outcome, due)
}

/// The unit that the validator may make at this moment, as bytes without a signature.
#[unsafe(no_mangle)]
pub extern "C" fn hw_next_unit(
    alloc: Global,
    core: &mut Handle,
    me: u32,
    now: u64,
    value: &[u8],
    planned: &mut Planned,
    buf: &mut [u8],
) -> u32
    ensures { (r : Result (WithBytes Planned) Fault) × Reads (λ c. IsStep c me now value.now) core.old.held r core.new.held × IsPutWithBytes r planned.old planned.new buf.old buf.new × (result ≡ status r) }
{
    let outcome = core.read_next(alloc, me, now, value);
    put_both(outcome, planned, buf)
}

/// The vertex of a unit with its creator's signature, as bytes.
#[unsafe(no_mangle)]
pub extern "C" fn hw_with_signature(
    alloc: Global,
    unit: &[u8],
    signature: &[u8; 32],
    buf: &mut [u8],
    len: &mut usize,
    answer: &mut Answer,
) -> u32
    ensures { (r : Result (List ℕ) Fault) × IsWithSignature unit.now signature.now r × IsWritten r buf.old buf.new len.old len.new × (result ≡ status r) × (answer.new ≡ behind r) }
{
    let outcome = steps::with_signature(alloc, unit, signature);
    put_bytes_with(outcome, buf, len, answer)
}

/// The vertex of the validator's endorsement of the unit of this digest, with its signature, as bytes.
#[unsafe(no_mangle)]
pub extern "C" fn hw_endorsement(
    alloc: Global,
    endorser: u32,
    unit: &[u8; 32],
    signature: &[u8; 32],
    buf: &mut [u8],
    len: &mut usize,
) -> u32
    ensures { (r : Result (List ℕ) Fault) × IsEndorsement endorser unit.now signature.now r × IsWritten r buf.old buf.new len.old len.new × (result ≡ status r) }
{
    let outcome = signed::endorsement(alloc, endorser, unit, signature);
    put_bytes(outcome, buf, len)
}

/// Audits the journals of two nodes against each other, and writes the result as text too. The two handles must
/// be different ones.
#[unsafe(no_mangle)]
pub extern "C" fn hw_audit(
    alloc: Global,
    left: &mut Handle,
    right: &mut Handle,
    audited: &mut Audited,
    buf: &mut [u8],
) -> u32
    ensures { (r : Result (WithBytes Audited) Fault) × ReadsBoth IsAudit left.old.held right.old.held r left.new.held right.new.held × IsPutWithBytes r audited.old audited.new buf.old buf.new × (result ≡ status r) }
{
    let outcome = left.read_audit(alloc, right);
    put_both(outcome, audited, buf)
}

/// The certificate of the decided block of that place, as bytes.
#[unsafe(no_mangle)]
pub extern "C" fn hw_certificate(
    alloc: Global,
    core: &mut Handle,
    index: u64,
    buf: &mut [u8],
    len: &mut usize,
) -> u32
    ensures { (r : Result (List ℕ) Fault) × Reads (λ c. IsCertificate c index) core.old.held r core.new.held × IsWritten r buf.old buf.new len.old len.new × (result ≡ status r) }
{
    let outcome = core.read_certificate(alloc, index);
    put_bytes(outcome, buf, len)
}

/// Who signed each vertex of the certificate that the bytes spell, and which units: as many as fit. The count is that of
/// all its vertices.
#[unsafe(no_mangle)]
pub extern "C" fn hw_certified(
    alloc: Global,
    certificate: &[u8],
    list: &mut [Signed],
    count: &mut usize,
    answer: &mut Answer,
) -> u32
    ensures { (r : Result ℕ Fault) × AreCertifiedSigned certificate.now list.old list.new r × PutsWith r count.old count.new answer.new result }
{
    let outcome = light::certified_signatures(alloc, certificate, list);
    put_with(outcome, count, answer)
}

/// The answer to the certificate that the bytes spell, with these verdicts on the signatures of its vertices: 0 no, 1
/// yes. After a yes as many bytes of the block's value as fit go into the buffer.
#[unsafe(no_mangle)]
pub extern "C" fn hw_check(
    alloc: Global,
    certificate: &[u8],
    verdicts: &[u32],
    judged: &mut Judged,
    buf: &mut [u8],
    answer: &mut Answer,
) -> u32
    ensures { (r : Result (WithBytes Judged) Fault) × IsJudged certificate.now verdicts.now r × IsPutWithBytes r judged.old judged.new buf.old buf.new × (result ≡ status r) × (answer.new ≡ behind r) }
{
    let outcome = light::judgement(alloc, certificate, verdicts);
    put_both_with(outcome, judged, buf, answer)
}
