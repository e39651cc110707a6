//! The unit that a validator may make now.

ghost use Rattle.std.specs.Prelude.{◌≡◌, ◌<◌, ◌≤◌, ◌^◌, ℕ, length, IfOk, OnOk, Option};
ghost use Rattle.hw_types.specs.{Real.{setting_of, received_in}, Spelling.{Fits}, Step.{step}};
ghost use Rattle.hw_c.specs.{Answers.{plan_number}, Calls.{IsWithSignature}, Steps.{IsStep, IsSpelledStep}};

use crate::codes::Fault;
use crate::put::WithBytes;
use hw_codec::{decode_unit, digest_of, encode_unit, encode_vertex, fits};
use hw_core::Core;
use hw_types::{
    Bytes, END_OF_TIME, MAX_VALUE, OutOfMemory, Plan, PlanKind, Signature, SignedUnit, Vertex,
};
use hw_validator::next_unit_of;
use std::alloc::Global;

/// What a planned unit is for, its length in bytes without a signature, and the digest that its creator signs.
#[repr(C)]
#[derive(Clone, Copy)]
pub struct Planned {
    pub kind: u32,
    pub length: u64,
    pub digest: [u8; 32],
}

/// The unit that the validator may make at this moment, if any. For the prover: this is a function of its own, so that
/// the lemma about the journal applies to its call alone.
#[tactic(auto, using(crate::proofs::StepLaws::step_is))]
pub(crate) fn planned_unit(
    alloc: Global,
    core: &Core,
    me: u32,
    now: u64,
    value: &[u8],
) -> Result<Option<Plan>, OutOfMemory>
    requires me { me < length core.now.config.weights }
    requires now { now < 2 ^ 63 }
    requires value { length value.now ≤ 4096 }
    ensures { IfOk result (λ plan. plan ≡ step (setting_of core.now.config) (received_in core.now) me now value.now) }
{
    next_unit_of(alloc, core.state(), core.instance(), me, now, value)
}

pub(crate) fn plan_number(kind: PlanKind) -> u32
    ensures { result ≡ plan_number kind }
{
    match kind {
        PlanKind::Propose => 0,
        PlanKind::Confirm => 1,
        PlanKind::Witness => 2,
    }
}

fn spelled(alloc: Global, plan: &Plan) -> Result<WithBytes<Planned>, OutOfMemory>
    requires { Fits plan.now.unit }
    ensures { IfOk result (IsSpelledStep plan.now) }
{
    let digest = digest_of(alloc, &plan.unit)?;
    let bytes = encode_unit(alloc, &plan.unit)?;
    let digest = digest.0;
    let planned = Planned {
        kind: plan_number(plan.kind),
        length: bytes.len() as u64,
        digest,
    };
    Ok(WithBytes {
        value: planned,
        bytes,
    })
}

/// The unit that the validator may make at this moment, as bytes without a signature. `Nothing` where there is none,
/// and `TooLong` where it is longer than the format allows. `OutOfRange` where there is no such validator, the moment
/// is after the end of time, or the value is too long.
pub fn next(
    alloc: Global,
    core: &Core,
    me: u32,
    now: u64,
    value: &[u8],
) -> Result<WithBytes<Planned>, Fault>
    ensures { IsStep core.now me now value.now result }
{
    if me as usize >= core.state().config().weights.len() {
        return Err(Fault::OutOfRange);
    }
    if now >= END_OF_TIME || value.len() > MAX_VALUE {
        return Err(Fault::OutOfRange);
    }
    let Some(plan) = planned_unit(alloc, core, me, now, value)? else {
        return Err(Fault::Nothing);
    };
    if !fits(&plan.unit) {
        return Err(Fault::TooLong);
    }
    Ok(spelled(alloc, &plan)?)
}

/// The vertex of a unit with its creator's signature, as bytes.
pub fn with_signature(alloc: Global, unit: &[u8], signature: &[u8; 32]) -> Result<Bytes, Fault>
    ensures { IsWithSignature unit.now signature.now result }
{
    let unit = decode_unit(alloc, unit)?;
    let vertex = Vertex::Unit(SignedUnit {
        unit,
        signature: Signature(*signature),
    });
    Ok(encode_vertex(alloc, &vertex)?)
}
