//! The check of a certificate by keys, and what is printed of it.

ghost use Rattle.std.specs.{Prelude.{◌≡◌, ℕ, IsTrue, map, IfOk}, List.{All}};
ghost use Rattle.hw_types.specs.Spelling.{VertexFits};
ghost use Rattle.hw_keys.specs.Signed.{verdict_of};
ghost use Rattle.hw_light.specs.Checked.{IsAnswer, IsCertified, IfYes};
ghost use Rattle.hw_light.specs.Texts.{yes_line, fault_line};
ghost use Rattle.hw_light.specs.Asked.{IsDecisionOf, HasNoDecision, decided_block};
ghost use Rattle.hw_light.specs.CheckedTexts.{verdicts_by, checked_of, height_or_zero, IsCheckedLine, checked_line};

use crate::asked::decision_of;
use crate::lines::put_fault;
use crate::{Certificate, Checked, check};
use hw_core::Core;
use hw_keys::Keys;
use hw_text::{end_line, put_digest, put_number, put_word};
use hw_types::{Bytes, Digest, OutOfMemory, Vertex};
use std::alloc::Global;

/// The check of a certificate with the verdicts on its vertices by these keys.
pub fn check_by_keys(
    alloc: Global,
    certificate: &Certificate,
    keys: &Keys,
) -> Result<Checked, OutOfMemory>
    requires fits { All VertexFits certificate.now.vertices }
    ensures answer { IfOk result (IsAnswer certificate.now (verdicts_by keys.now certificate.now.vertices)) }
    ensures said { IfOk result (λ answer. answer ≡ checked_of certificate.now (verdicts_by keys.now certificate.now.vertices)) }

    // A yes shows that the vertices certify the block, and each has a true verdict.
    ensures yes { IfOk result (IfYes (IsCertified certificate.now)) }
    ensures signed { IfOk result (IfYes (λ core. All (λ v. IsTrue (verdict_of keys.now v)) certificate.now.vertices)) }
{
    let verdicts = verdicts_on(alloc, keys, certificate.vertices.as_slice())?;
    check(alloc, certificate, verdicts.as_slice())
}

/// The verdict on each vertex by these keys.
fn verdicts_on(alloc: Global, keys: &Keys, vertices: &[Vertex]) -> Result<Vec<bool>, OutOfMemory>
    requires { All VertexFits vertices.now }
    ensures { IfOk result (λ verdicts. verdicts.items ≡ verdicts_by keys.now vertices.now) }
{
    let mut verdicts = Vec::new(alloc);
    for vertex in vertices {
        verdicts.push(keys.verdict(vertex)?)?;
    }
    Ok(verdicts)
}

/// The line of what a certificate is answered.
pub fn checked_text(
    alloc: Global,
    certificate: &Certificate,
    checked: &Checked,
) -> Result<Bytes, OutOfMemory>
    requires { IfYes (IsCertified certificate.now) checked.now }
    ensures told { IfOk result (IsCheckedLine certificate.now.block checked.now) }
    ensures line { IfOk result (λ text. text ≡ checked_line certificate.now.block checked.now) }
{
    match checked {
        Checked::Yes(core) => yes_text(alloc, core, &certificate.block),
        Checked::No(fault) => {
            let mut text = Bytes::new(alloc);
            put_fault(&mut text, *fault)?;
            Ok(text)
        }
    }
}

/// The line of a yes: the block that was decided, and its height.
fn yes_text(alloc: Global, core: &Core, block: &Digest) -> Result<Bytes, OutOfMemory>
    requires { HasNoDecision core.now block.now → ⊥ }
    ensures told { IfOk result (λ text. (index : ℕ) × (told : IsDecisionOf core.now block.now index) × (text ≡ yes_line block.now told.decision.height)) }
    ensures line { IfOk result (λ text. text ≡ yes_line block.now (height_or_zero (decided_block core.now block.now))) }
{
    match decision_of(core, block) {
        Some(index) => height_text(alloc, block, core.decision(index).height),
        None => unreachable!(),
    }
}

/// The line of a yes for a block of this height.
#[tactic(auto, using(std::proofs::Common::append_assoc))]
fn height_text(alloc: Global, block: &Digest, height: u64) -> Result<Bytes, OutOfMemory>
    ensures { IfOk result (λ text. text ≡ yes_line block.now height) }
{
    let mut text = Bytes::new(alloc);
    put_word(&mut text, "yes ")?;
    put_digest(&mut text, block)?;
    put_word(&mut text, " height ")?;
    put_number(&mut text, height)?;
    end_line(&mut text)?;
    Ok(text)
}
