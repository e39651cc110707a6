//! The check of a certificate.

ghost use Rattle.std.specs.{Prelude.{◌≡◌, ℕ, [], ◌∷◌, length, None, Some, IsTrue, IfOk, OnOk}, List.{All, zip}};
ghost use Rattle.hw_types.specs.{Limits.{config_fault}, Real.{CoreState, setting_of}, Spelling.{VertexFits}};
ghost use Rattle.hw_light.specs.Checked.{IsAnswer, IsBegun, IsCertified, IfYes, IsTakenAs, IsNodeFault, IsRefusalOf, taken_from, with_node};

use crate::answers::{CheckFault, Checked};
use crate::certificate::Certificate;
use crate::standing::stands;
use hw_admit::StateFault;
use hw_core::Core;
use hw_types::{Cause, Config, ConfigFault, Digest, OutOfMemory, Vertex};
use std::alloc::Global;

/// Whether the vertices of a certificate give its block a summit, with these verdicts on their
/// signatures, one for each vertex.
///
/// The vertices are delivered in order to a new node. A yes answers that node, in which the block is
/// decided.
pub fn check(
    alloc: Global,
    certificate: &Certificate,
    verdicts: &[bool],
) -> Result<Checked, OutOfMemory>
    requires fits { All VertexFits certificate.now.vertices }
    requires verdicts { length verdicts.now ≡ length certificate.now.vertices }
    // Each answer is given exactly when it is due.
    ensures answer { IfOk result (IsAnswer certificate.now verdicts.now) }

    // A yes shows that the vertices certify the block, the node has their journal, and each verdict is true.
    ensures yes { IfOk result (IfYes (IsCertified certificate.now)) }
    ensures signed { IfOk result (IfYes (λ core. All (λ verdict. IsTrue verdict) verdicts.now)) }
{
    // The node is in a list, so that it is dropped in one place, whatever is answered.
    let mut nodes = Vec::new(alloc);
    match begin(alloc, &mut nodes, &certificate.config)? {
        Some(fault) => Ok(Checked::No(CheckFault::Config(fault))),
        None => check_with(alloc, nodes, certificate, verdicts),
    }
}

/// Puts a new node of this configuration into the list, or answers the first limit that the
/// configuration breaks.
fn begin(
    alloc: Global,
    nodes: &mut Vec<Core>,
    config: &Config,
) -> Result<Option<ConfigFault>, OutOfMemory>
    requires { nodes.old.items ≡ [] }
    ensures { IfOk result (IsBegun config.now nodes.new.items) }
{
    match Core::new(alloc, config.copy()?) {
        Ok(core) => {
            nodes.push(core)?;
            Ok(None)
        }
        Err(StateFault::Fault(fault)) => Ok(Some(fault)),
        Err(StateFault::OutOfMemory) => Err(OutOfMemory),
    }
}

/// The check with a new node of the certificate's configuration, which is in the list.
fn check_with(
    alloc: Global,
    mut nodes: Vec<Core>,
    certificate: &Certificate,
    verdicts: &[bool],
) -> Result<Checked, OutOfMemory>
    requires fits { All VertexFits certificate.now.vertices }
    requires verdicts { length verdicts.now ≡ length certificate.now.vertices }
    requires begun { IsBegun certificate.now.config nodes.items None }
    ensures { IfOk result (IsAnswer certificate.now verdicts.now) }
{
    let fault = find_fault(alloc, &mut nodes[0], certificate, verdicts)?;
    checked(nodes, fault)
}

/// The answer of the one node of the list, of which this was found wrong.
fn checked(mut nodes: Vec<Core>, fault: Option<CheckFault>) -> Result<Checked, OutOfMemory>
    ensures { IfOk result (λ answer. (core : CoreState) → nodes.items ≡ core ∷ [] → answer ≡ with_node core fault) }
{
    match fault {
        Some(fault) => Ok(Checked::No(fault)),
        None => match nodes.pop() {
            Some(core) => Ok(Checked::Yes(core)),
            None => Err(OutOfMemory),
        },
    }
}

/// What is wrong with the certificate, which a new node takes.
#[tactic(none)]
fn find_fault(
    alloc: Global,
    core: &mut Core,
    certificate: &Certificate,
    verdicts: &[bool],
) -> Result<Option<CheckFault>, OutOfMemory>
    requires fits { All VertexFits certificate.now.vertices }
    requires verdicts { length verdicts.now ≡ length certificate.now.vertices }
    requires lawful { config_fault certificate.now.config ≡ None }
    requires config { core.old.config ≡ certificate.now.config }
    requires empty { core.old.journal ≡ [] }
    requires unasked { core.old.asked ≡ None }
    ensures { IfOk result (λ fault. IsAnswer certificate.now verdicts.now (with_node core.new fault)) }
{
    match take_all(core, certificate.vertices.as_slice(), verdicts)? {
        Some(fault) => Ok(Some(fault)),
        None => node_fault(alloc, core, &certificate.block),
    }
}

/// What is wrong with a node that took all vertices.
fn node_fault(alloc: Global, core: &Core, block: &Digest) -> Result<Option<CheckFault>, OutOfMemory>
    ensures { IfOk result (IsNodeFault core.now block.now) }
{
    match core.exceeded() {
        Some(weight) => Ok(Some(CheckFault::Exceeded(weight))),
        None => {
            if stands(alloc, core, block)? {
                Ok(None)
            } else {
                Ok(Some(CheckFault::Unstood))
            }
        }
    }
}

/// Delivers the vertices in order, up to the first that is refused.
fn take_all(
    core: &mut Core,
    vertices: &[Vertex],
    verdicts: &[bool],
) -> Result<Option<CheckFault>, OutOfMemory>
    requires fits { All VertexFits vertices.now }
    requires verdicts { length verdicts.now ≡ length vertices.now }
    ensures taken { IfOk result (IsTakenAs (taken_from (setting_of core.old.config) 0 core.old.journal (zip vertices.now verdicts.now)) core.new) }
    ensures config { core.new.config ≡ core.old.config }
    ensures asked { core.new.asked ≡ core.old.asked }
{
    for (index, vertex) in vertices.iter().enumerate() {
        if let Err(refused) = core.deliver(vertex.copy()?, verdicts[index]) {
            return Ok(Some(refused_at(index, refused.cause)?));
        }
    }
    Ok(None)
}

/// That the vertex of this number is refused. If the cause is that the node is out of memory, that is the
/// error.
fn refused_at(index: usize, cause: Cause) -> Result<CheckFault, OutOfMemory>
    ensures { IfOk result (IsRefusalOf index cause) }
{
    match cause {
        Cause::OutOfMemory => Err(OutOfMemory),
        _ => match u32::try_from(index) {
            Ok(number) => Ok(CheckFault::Refused(number, cause)),
            Err(_) => Err(OutOfMemory),
        },
    }
}
