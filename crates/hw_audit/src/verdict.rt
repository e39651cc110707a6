//! The verdict over the units and the decided blocks of two journals.

ghost use Rattle.std.specs.Prelude.{◌≡◌, ◌<◌, ◌≤◌, ◌^◌, List, length, sum, IfOk};
ghost use Rattle.hw_types.specs.{declared.unit.Vertex.{Vertex}, declared.config.Config.{Config as Configured}, declared.answers.Decision.{Decision}, Graph.{Node}};
ghost use Rattle.hw_audit.specs.{Twins.{AreShown}, Read.{IsRead, IsConflict, IsAnswer}};

use crate::chains::{Parting, first_parting};
use crate::clash::first_clash;
use crate::culprits::culprits;
use crate::held::Held;
use crate::twins::Equivocations;
use hw_safety::Verdict;
use hw_types::{Digest, OutOfMemory};
use std::alloc::Global;

/// The verdict over the units of both journals and over both chains of decided blocks. The left journal's units
/// come first; there are `middle` of them.
pub fn verdict<'a>(
    alloc: Global,
    weights: &[u64],
    units: &'a [Held<'a>],
    middle: usize,
    left_chain: &[Digest],
    right_chain: &[Digest],
) -> Result<Verdict, OutOfMemory>
    requires middle { middle ≤ length units.now }
    requires many { length weights.now < 2 ^ 32 }
    requires fits { sum weights.now < 2 ^ 64 }
    ensures { IfOk result (λ verdict. (config : Configured) (left right : List Vertex) (dl dr : List Decision)
        → IsRead config left right dl dr (record { weights = weights.now; units = units.now; middle = middle; left_chain = left_chain.now; right_chain = right_chain.now })
        → IsAnswer config left right dl dr verdict) }
{
    let (left, right) = units.split_at(middle);
    if let Some(clash) = first_clash(alloc, left, right)? {
        return clash.verdict(alloc);
    }
    match first_parting(left_chain, right_chain) {
        Some(parting) => conflict(alloc, weights, units, &parting),
        None => Ok(Verdict::Agree {
            common: left_chain.len().min(right_chain.len()) as u64,
        }),
    }
}

/// The two blocks at which the chains part, with all who equivocated.
fn conflict<'a>(
    alloc: Global,
    weights: &[u64],
    units: &'a [Held<'a>],
    parting: &Parting,
) -> Result<Verdict, OutOfMemory>
    requires many { length weights.now < 2 ^ 32 }
    requires fits { sum weights.now < 2 ^ 64 }
    ensures { IfOk result (λ verdict. (nodes : List Node) → AreShown units.now nodes → IsConflict units.now nodes weights.now parting.now.height parting.now.left parting.now.right verdict) }
{
    let equivocations = Equivocations::of(alloc, weights.len(), units)?;
    let blamed = culprits(alloc, &equivocations, weights)?;
    Ok(Verdict::Conflict {
        height: parting.height as u64,
        left: parting.left,
        right: parting.right,
        culprits: blamed.culprits,
        weight: blamed.weight,
    })
}
