//! The steps of a script, done on a node.

ghost use Rattle.std.specs.Prelude.{◌≡◌, ◌++◌, [], true, codes, Some, Err, IfOk, IfSome, OnOk};
ghost use Rattle.hw_text.specs.Text.{number_text};
ghost use Rattle.hw_types.specs.{Spelling.{VertexFits, digest_of}, Real.{setting_of, answer_in, after_in}};
ghost use Rattle.hw_types.specs.declared.answers.Cause.TheVariants as Causes;
ghost use Rattle.hw_types.specs.declared.unit.Vertex.TheVariants as vertex;
ghost use Rattle.hw_script_grammar.specs.{Fits.{ActFits}, Names.{unit_in}};
ghost use Rattle.hw_script.specs.{Output.{endorsement_of, answer_line, act_text, acts_text, journal_behind}, Told.{HasTold}};

use crate::answers::put_answer;
use crate::finals::Finals;
use crate::shows::{put_faulty_of, put_fork, put_panorama};
use hw_core::{Core, Refused, UnitRefused};
use hw_script_grammar::{Act, Acts, Names};
use hw_text::{end_line, put_numbered, put_word};
use hw_types::{
    Bytes, Cause, Digest, Endorsement, OutOfMemory, Receipt, Signature, SignedUnit, Vertex,
};
use std::alloc::Global;

/// Does all steps on a node that has received nothing, and puts what they print last.
#[tactic(auto, using(crate::proofs::RunLaws::all_steps))]
pub(crate) fn act_all(
    alloc: Global,
    names: &Names,
    acts: &Acts,
    core: &mut Core,
    out: &mut Bytes,
) -> Result<(), OutOfMemory>
    requires { core.old.journal ≡ [] }
    ensures { OnOk result (out.new ≡ out.old ++ acts_text names.now (setting_of core.old.config) [] acts.now) }
{
    let mut finals = Finals::new(alloc);
    for place in 0..acts.len() {
        act(alloc, names, acts.get(place), core, &mut finals, out)?;
    }
    Ok(())
}

/// Does a step, and puts what it prints last.
#[tactic(auto, using(std::proofs::Common::append_assoc), unfolding(crate::specs::Output::act_text))]
fn act(
    alloc: Global,
    names: &Names,
    act: &Act,
    core: &mut Core,
    finals: &mut Finals,
    out: &mut Bytes,
) -> Result<(), OutOfMemory>
    requires told { HasTold names.now finals.old core.old }
    requires fits { ActFits act.now }
    ensures told { OnOk result (HasTold names.now finals.new core.new) }
    ensures out { OnOk result (out.new ≡ out.old ++ act_text names.now (setting_of core.old.config) core.old.journal act.now) }
    ensures core { OnOk result (core.new ≡ record core.old { journal = journal_behind (setting_of core.old.config) core.old.journal act.now }) }
{
    match act {
        Act::Deliver(named) => {
            put_delivered(out, named.name.as_slice())?;
            let vertex = named.vertex.copy()?;
            take(alloc, names, vertex, named.digest, core, finals, out)
        }
        Act::Endorse(name, unit, endorser) => {
            put_endorsed(out, name.as_slice(), *endorser)?;
            take(
                alloc,
                names,
                endorsement_of(*unit, *endorser),
                None,
                core,
                finals,
                out,
            )
        }
        Act::ShowFork => put_fork(out, names, core.fork()),
        Act::ShowPanorama => put_panorama(out, names, core),
        Act::ShowFaulty => put_faulty_of(alloc, out, core),
        Act::ShowFinal => finals.show(names, out, core),
    }
}

/// Puts the words before the answer to the vertex of this name last.
#[tactic(auto, using(std::proofs::Common::append_assoc))]
fn put_delivered(out: &mut Bytes, name: &[u8]) -> Result<(), OutOfMemory>
    ensures { OnOk result (out.new ≡ out.old ++ (name.now ++ codes " ")) }
{
    out.extend(name)?;
    put_word(out, " ")
}

/// Puts the words before the answer to an endorsement of the unit of this name last.
#[tactic(auto, using(std::proofs::Common::append_assoc))]
fn put_endorsed(out: &mut Bytes, name: &[u8], endorser: u32) -> Result<(), OutOfMemory>
    ensures { OnOk result (out.new ≡ out.old ++ (codes "endorse " ++ (name.now ++ (codes " " ++ (number_text endorser ++ codes " "))))) }
{
    put_word(out, "endorse ")?;
    out.extend(name)?;
    put_numbered(out, " ", u64::from(endorser))?;
    put_word(out, " ")
}

/// Delivers the vertex, and puts the answer and the end of the line last. `digest` is that of a unit.
#[tactic(auto, using(std::proofs::Common::append_assoc, crate::proofs::ToldLaws::behind_after))]
fn take(
    alloc: Global,
    names: &Names,
    vertex: Vertex,
    digest: Option<Digest>,
    core: &mut Core,
    finals: &mut Finals,
    out: &mut Bytes,
) -> Result<(), OutOfMemory>
    requires told { HasTold names.now finals.old core.old }
    requires fits { VertexFits vertex }
    requires digest { IfSome (unit_in vertex) (λ unit. digest ≡ Some (digest_of unit)) }
    ensures told { OnOk result (HasTold names.now finals.new core.new) }
    ensures out { OnOk result (out.new ≡ out.old ++ answer_line (setting_of core.old.config) core.old.journal vertex) }
    ensures core { OnOk result (core.new ≡ after_in core.old vertex true) }
{
    let answer = answer_of(core, vertex, digest)?;
    put_answer(out, answer)?;
    end_line(out)?;
    finals.tell(alloc, names, core)
}

/// Delivers the vertex, and gives the node's answer. `digest` is that of a unit, which isn't hashed again.
fn answer_of(
    core: &mut Core,
    vertex: Vertex,
    digest: Option<Digest>,
) -> Result<Result<Receipt, Cause>, OutOfMemory>
    requires fits { VertexFits vertex }
    requires digest { IfSome (unit_in vertex) (λ unit. digest ≡ Some (digest_of unit)) }
    ensures answer { IfOk result (λ answer. answer ≡ answer_in core.old vertex true) }
    ensures core { OnOk result (core.new ≡ after_in core.old vertex true) }
{
    match (vertex, digest) {
        (Vertex::Unit(unit), Some(name)) => unit_answer(core, unit, name),
        (vertex, _) => vertex_answer(core, vertex),
    }
}

/// Delivers the unit under its name, and gives the node's answer.
#[tactic(auto, using(crate::proofs::AnswerLaws::refusal_is, crate::proofs::AnswerLaws::refused_stays))]
fn unit_answer(
    core: &mut Core,
    unit: SignedUnit,
    name: Digest,
) -> Result<Result<Receipt, Cause>, OutOfMemory>
    requires fits { VertexFits (vertex.Unit unit) }
    requires name { name ≡ digest_of unit.unit }
    ensures answer { IfOk result (λ answer. answer ≡ answer_in core.old (vertex.Unit unit) true) }
    ensures core { OnOk result (core.new ≡ after_in core.old (vertex.Unit unit) true) }
{
    match core.deliver_named(unit, name) {
        Ok(receipt) => Ok(Ok(receipt)),
        Err(UnitRefused { cause, .. }) => cause_of(cause),
    }
}

/// Delivers the vertex, and gives the node's answer. The node works out the name of a unit.
#[tactic(auto, using(crate::proofs::AnswerLaws::refusal_is, crate::proofs::AnswerLaws::refused_stays))]
fn vertex_answer(core: &mut Core, vertex: Vertex) -> Result<Result<Receipt, Cause>, OutOfMemory>
    requires { VertexFits vertex }
    ensures answer { IfOk result (λ answer. answer ≡ answer_in core.old vertex true) }
    ensures core { OnOk result (core.new ≡ after_in core.old vertex true) }
{
    match core.deliver(vertex, true) {
        Ok(receipt) => Ok(Ok(receipt)),
        Err(Refused { cause, .. }) => cause_of(cause),
    }
}

/// The cause as an answer. Out of memory is an error instead.
fn cause_of(cause: Cause) -> Result<Result<Receipt, Cause>, OutOfMemory>
    ensures cause { IfOk result (λ answer. answer ≡ Err cause) }
    ensures known { IfOk result (λ _. cause ≡ Causes.OutOfMemory → ⊥) }
{
    match cause {
        Cause::OutOfMemory => Err(OutOfMemory),
        cause => Ok(Err(cause)),
    }
}

/// The endorsement of a unit, signed with zeros.
fn endorsement_of(unit: Digest, endorser: u32) -> Vertex
    ensures { result ≡ endorsement_of unit endorser }
{
    Vertex::Endorsement(Endorsement {
        unit,
        endorser,
        signature: Signature([0; 32]),
    })
}
