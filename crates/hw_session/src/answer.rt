//! What a node sends in answer to a peer's frame.

ghost use Rattle.std.specs.{Prelude.{◌≡◌, ◌+◌, ◌<◌, ◌≤◌, ℕ, List, [], ◌∷◌, ◌++◌, true, length, map, take, drop, IfOk}, List.{All, flat_map}};
ghost use Rattle.hw_types.specs.{Spelling.{VertexFits}, declared.unit.Vertex.{Vertex}};
ghost use Rattle.hw_types.specs.declared.answers.Frame.TheVariants as frame;
ghost use Rattle.hw_link.specs.{Frames.{framed, sent_bytes}, Links.{IsLinkCounted}, Sent.{Sends}};
ghost use Rattle.hw_needs.specs.{Needs.{vertices_of}, Pairs.{ArePairs}};
ghost use Rattle.hw_session.specs.{Outside.{door_calls}, Serving.{part_from, answer_to_have, answer_to_want, sent_for, first_missing, wanted_by}, Handling.{StandsLast}};

use crate::say::say;
use hw_core::Core;
use hw_io::Door;
use hw_link::SessionEnd;
use hw_needs::{KnownPairs, vertices_with};
use hw_types::{Frame, MAX_LIST, Need, NeedList, OutOfMemory, Receipt, Vertex};
use std::alloc::Global;

/// Answers a Have: sends the journal's vertices from this place on, 256 at most. Then it sends a Have of the
/// place after the last one.
pub fn answer_have<D: Door>(
    alloc: Global,
    core: &Core,
    door: &mut D,
    place: u64,
) -> Result<(), SessionEnd>
    requires open { D.is_open door.old ≡ true }
    ensures sent { Sends (sent_bytes (answer_to_have core.now.journal place)) (D.sessions door.old) (D.sessions door.new) result }
    ensures cause { IsLinkCounted (D.faults door.old) (D.faults door.new) result }

    ensures door { door_calls (D.is_open door.new) (D.ends door.new) (D.accepts door.new) (D.dials door.new) (D.asks door.new) ≡ door_calls (D.is_open door.old) (D.ends door.old) (D.accepts door.old) (D.dials door.old) (D.asks door.old) }
{
    let next = place + part_length(core.journal_count(), place);
    send_part(alloc, core, door, place, next)?;
    say(alloc, door, Frame::Have(next))
}

/// How many vertices of a journal of this length are sent from this place on.
#[tactic(auto, using(crate::proofs::SendLaws::part_count))]
fn part_length(journal: u64, place: u64) -> u64
    ensures part { (vs : List Vertex) → length vs ≡ journal → result ≡ length (part_from vs place) }
    ensures within { 0 < result → place + result ≤ journal }
{
    journal.saturating_sub(place).min(MAX_LIST as u64)
}

/// Sends the journal's vertices from this place on, up to the next one that isn't sent.
fn send_part<D: Door>(
    alloc: Global,
    core: &Core,
    door: &mut D,
    place: u64,
    next: u64,
) -> Result<(), SessionEnd>
    requires part { next ≡ place + length (part_from core.now.journal place) }
    requires open { D.is_open door.old ≡ true }
    ensures sent { Sends (sent_bytes (map frame.Vertex (part_from core.now.journal place))) (D.sessions door.old) (D.sessions door.new) result }
    ensures cause { IsLinkCounted (D.faults door.old) (D.faults door.new) result }

    ensures door { door_calls (D.is_open door.new) (D.ends door.new) (D.accepts door.new) (D.dials door.new) (D.asks door.new) ≡ door_calls (D.is_open door.old) (D.ends door.old) (D.accepts door.old) (D.dials door.old) (D.asks door.old) }
{
    for at in place..next {
        send_vertex(alloc, door, core.journal_at(at))?;
    }
    Ok(())
}

/// Answers a Want: sends for each need in order what there is, and then a Have of the journal's length.
pub fn answer_want<D: Door>(
    alloc: Global,
    core: &Core,
    door: &mut D,
    needs: &[Need],
) -> Result<(), SessionEnd>
    requires open { D.is_open door.old ≡ true }
    ensures sent { Sends (sent_bytes (answer_to_want core.now needs.now)) (D.sessions door.old) (D.sessions door.new) result }
    ensures cause { IsLinkCounted (D.faults door.old) (D.faults door.new) result }

    ensures door { door_calls (D.is_open door.new) (D.ends door.new) (D.accepts door.new) (D.dials door.new) (D.asks door.new) ≡ door_calls (D.is_open door.old) (D.ends door.old) (D.accepts door.old) (D.dials door.old) (D.asks door.old) }
{
    // A peer may ask for evidence against one validator in each of its needs. So what was looked for is kept for
    // the later needs.
    let mut pairs = KnownPairs::new(alloc);
    send_each(alloc, core, &mut pairs, door, needs)?;
    say(alloc, door, Frame::Have(core.journal_count()))
}

/// Sends for each need in order what there is, with the pairs that were looked for.
fn send_each<D: Door>(
    alloc: Global,
    core: &Core,
    pairs: &mut KnownPairs,
    door: &mut D,
    needs: &[Need],
) -> Result<(), SessionEnd>
    requires pairs { ArePairs core.now pairs.old }
    requires open { D.is_open door.old ≡ true }
    ensures pairs { ArePairs core.now pairs.new }
    ensures sent { Sends (sent_bytes (flat_map (λ need. sent_for need (vertices_of core.now need)) needs.now)) (D.sessions door.old) (D.sessions door.new) result }
    ensures cause { IsLinkCounted (D.faults door.old) (D.faults door.new) result }

    ensures door { door_calls (D.is_open door.new) (D.ends door.new) (D.accepts door.new) (D.dials door.new) (D.asks door.new) ≡ door_calls (D.is_open door.old) (D.ends door.old) (D.accepts door.old) (D.dials door.old) (D.asks door.old) }
{
    for need in needs {
        send_for(alloc, core, pairs, door, need)?;
    }
    Ok(())
}

/// Sends the vertices of a need, or the need as missing where there is none, with the pairs that were looked for.
fn send_for<D: Door>(
    alloc: Global,
    core: &Core,
    pairs: &mut KnownPairs,
    door: &mut D,
    need: &Need,
) -> Result<(), SessionEnd>
    requires pairs { ArePairs core.now pairs.old }
    requires open { D.is_open door.old ≡ true }
    ensures pairs { ArePairs core.now pairs.new }
    ensures sent { Sends (sent_bytes (sent_for need.now (vertices_of core.now need.now))) (D.sessions door.old) (D.sessions door.new) result }
    ensures cause { IsLinkCounted (D.faults door.old) (D.faults door.new) result }

    ensures door { door_calls (D.is_open door.new) (D.ends door.new) (D.accepts door.new) (D.dials door.new) (D.asks door.new) ≡ door_calls (D.is_open door.old) (D.ends door.old) (D.accepts door.old) (D.dials door.old) (D.asks door.old) }
{
    let vertices = vertices_with(alloc, core, pairs, need)?;
    match vertices.as_slice() {
        [] => say(alloc, door, Frame::Missing(*need)),
        some => send_vertices(alloc, door, some),
    }
}

/// Sends vertices, one after the other.
fn send_vertices<D: Door>(
    alloc: Global,
    door: &mut D,
    vertices: &[Vertex],
) -> Result<(), SessionEnd>
    requires fit { All VertexFits vertices.now }
    requires open { D.is_open door.old ≡ true }
    ensures sent { Sends (sent_bytes (map frame.Vertex vertices.now)) (D.sessions door.old) (D.sessions door.new) result }
    ensures cause { IsLinkCounted (D.faults door.old) (D.faults door.new) result }

    ensures door { door_calls (D.is_open door.new) (D.ends door.new) (D.accepts door.new) (D.dials door.new) (D.asks door.new) ≡ door_calls (D.is_open door.old) (D.ends door.old) (D.accepts door.old) (D.dials door.old) (D.asks door.old) }
{
    for vertex in vertices {
        send_vertex(alloc, door, vertex)?;
    }
    Ok(())
}

/// Sends a vertex.
pub fn send_vertex<D: Door>(alloc: Global, door: &mut D, vertex: &Vertex) -> Result<(), SessionEnd>
    requires fits { VertexFits vertex.now }
    requires open { D.is_open door.old ≡ true }
    ensures sent { Sends (framed (frame.Vertex vertex.now)) (D.sessions door.old) (D.sessions door.new) result }
    ensures cause { IsLinkCounted (D.faults door.old) (D.faults door.new) result }

    ensures door { door_calls (D.is_open door.new) (D.ends door.new) (D.accepts door.new) (D.dials door.new) (D.asks door.new) ≡ door_calls (D.is_open door.old) (D.ends door.old) (D.accepts door.old) (D.dials door.old) (D.asks door.old) }
{
    say(alloc, door, Frame::Vertex(vertex.copy()?))
}

/// What is wanted of a peer whose vertex had this receipt. A parked vertex is the journal's last one, and the
/// first 256 needs that it misses are wanted. Of another vertex nothing is wanted.
pub fn wanted(alloc: Global, core: &Core, receipt: Receipt) -> Result<NeedList, OutOfMemory>
    ensures wanted { IfOk result (λ needs. (v : Vertex) → StandsLast receipt v core.now.journal → needs ≡ wanted_by core.now receipt v) }
    ensures few { IfOk result (λ needs. length needs ≤ 256) }
{
    match receipt {
        Receipt::Parked { .. } => wanted_for_last(alloc, core),
        Receipt::Admitted { .. } | Receipt::Dropped(_) | Receipt::Repeat => {
            Ok(NeedList::new(alloc))
        }
    }
}

/// The first 256 needs that the last vertex of the journal misses, if it is a unit. Its name is the last one that the
/// node keeps.
fn wanted_for_last(alloc: Global, core: &Core) -> Result<NeedList, OutOfMemory>
    ensures wanted { IfOk result (λ needs. (v : Vertex) (before : List Vertex) → core.now.journal ≡ before ++ v ∷ [] → needs ≡ first_missing core.now v) }
    ensures few { IfOk result (λ needs. length needs ≤ 256) }
{
    let count = core.journal_count();
    if count == 0 {
        return Ok(NeedList::new(alloc));
    }
    match core.journal_at(count - 1) {
        Vertex::Unit(_) => match core.unit_names().last() {
            Some(name) => core.first_missing(alloc, name, MAX_LIST),
            // The unit has a name.
            None => Ok(NeedList::new(alloc)),
        },
        Vertex::Evidence(_) => Ok(NeedList::new(alloc)),
        Vertex::Endorsement(_) => Ok(NeedList::new(alloc)),
    }
}
