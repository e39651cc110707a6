//! What a node's parked units miss, and what the node has for a peer that misses something.

ghost use Rattle.std.specs.Prelude.{◌≡◌, ◌++◌, ◌≤◌, length, map, take, drop, IfOk, Option};
ghost use Rattle.hw_types.specs.declared.unit.Need.{Need};
ghost use Rattle.hw_c.specs.{Answers.{missing_of}, Calls.{IsUnmet}, Needed.{need_of, IsForNeed}};

use crate::codes::Fault;
use hw_codec::encode_vertex;
use hw_core::Core;
use hw_needs::vertices_of;
use hw_types::{Bytes, Digest, Need, OutOfMemory};
use std::alloc::Global;

/// A need: what a parked unit waits for.
#[repr(C)]
#[derive(Clone, Copy)]
pub struct Missing {
    pub kind: u32,
    pub validator: u32,
    pub digest: [u8; 32],
}

fn missing_of(need: &Need) -> Missing
    ensures { result ≡ missing_of need.now }
{
    match need {
        Need::Unit(unit) => missing_unit(0, unit),
        Need::Evidence(validator) => Missing {
            kind: 1,
            validator: *validator,
            digest: [0; 32],
        },
        Need::Endorsed(unit) => missing_unit(2, unit),
    }
}

fn missing_unit(kind: u32, unit: &Digest) -> Missing
    ensures { result ≡ record { kind = kind; validator = 0; digest = unit.now.0 } }
{
    let digest = unit.0;
    Missing {
        kind,
        validator: 0,
        digest,
    }
}

fn need_of(missing: &Missing) -> Option<Need>
    ensures { result ≡ need_of missing.now }
{
    let digest = missing.digest;
    match missing.kind {
        0 => Some(Need::Unit(Digest(digest))),
        1 => Some(Need::Evidence(missing.validator)),
        2 => Some(Need::Endorsed(Digest(digest))),
        _ => None,
    }
}

fn missing_list(alloc: Global, needs: &[Need]) -> Result<Vec<Missing>, OutOfMemory>
    ensures { IfOk result (λ list. list.items ≡ map missing_of needs.now) }
{
    Ok(needs.iter().map(|need| missing_of(need)).collect(alloc)?)
}

/// The first needs that parked units miss, as many as fit. Answers how many that are.
pub fn unmet(alloc: Global, core: &Core, list: &mut [Missing]) -> Result<usize, Fault>
    ensures { IsUnmet core.now list.old list.new result }
{
    let Ok(mut needs) = Vec::from_elem(alloc, Need::Evidence(0), list.len()) else {
        return Err(Fault::OutOfMemory);
    };
    let count = core.first_unmet(needs.as_mut_slice());
    let missing = missing_list(alloc, &needs.as_slice()[..count])?;
    list[..count].copy_from_slice(missing.as_slice());
    Ok(count)
}

/// The vertex of that place among those that the node has for the need, as bytes. `Nothing` where it has fewer, and
/// `OutOfRange` where the need's kind is none.
pub fn for_need(alloc: Global, core: &Core, missing: &Missing, place: usize) -> Result<Bytes, Fault>
    ensures { IsForNeed core.now missing.now place result }
{
    let Some(need) = need_of(missing) else {
        return Err(Fault::OutOfRange);
    };
    let vertices = vertices_of(alloc, core, &need)?;
    if place >= vertices.len() {
        return Err(Fault::Nothing);
    }
    Ok(encode_vertex(alloc, &vertices.as_slice()[place])?)
}
