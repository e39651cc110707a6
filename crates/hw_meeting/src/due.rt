//! What a node owes another.

ghost use Rattle.std.specs.{Prelude.{◌≡◌, ◌<◌, ◌≤◌, ◌==◌, ◌||◌, length, take, map, filter_map, slice_get, All, IfOk}, List.{list_any, range_with_len}};
ghost use Rattle.hw_agree.specs.Converge.{is_due, due_of};
ghost use Rattle.hw_meeting.specs.Due.{owed_by, is_owed, owed_at, AreOwed};

use crate::torn::{part, put_if};
use hw_agree::LaneSummary;
use hw_core::Core;
use hw_types::{Items, OutOfMemory, Vertex};
use std::alloc::Global;

/// Which units of a validator are owed.
#[derive(Clone, Copy, Debug, PartialEq, Eq)]
pub(crate) enum Owed {
    Nothing,
    All,
    /// Those with this number or a greater one.
    From(u64),
}

/// Places in a journal.
pub type PlaceList = Items<u64>;

/// The places of the vertices that a node owes, among the first `count` of its journal, in order.
///
/// All evidence and endorsements are owed, and all units of torn validators. Of each other validator the units
/// are owed that the other node hasn't reached, where it has none or a shorter line. `torn` has the torn
/// validators of both sides. `mine` and `theirs` are the two summaries.
pub fn due_places(
    alloc: Global,
    core: &Core,
    count: u64,
    torn: &[u32],
    mine: &[LaneSummary],
    theirs: &[LaneSummary],
) -> Result<PlaceList, OutOfMemory>
    requires { count ≤ length core.now.journal }
    ensures due { IfOk result (λ places. filter_map (slice_get core.now.journal) places ≡ due_of (take count core.now.journal) mine.now theirs.now torn.now) }
    ensures within { IfOk result (λ places. All (λ place. place < count) places) }
{
    let table = owed_table(alloc, torn, mine, theirs)?;
    let mut places = PlaceList::new(alloc);
    for place in 0..count {
        let is_due = is_due(table.as_slice(), torn, mine, theirs, core.journal_at(place));
        put_if(is_due, place, &mut places)?;
    }
    Ok(places)
}

/// What is owed of each validator that the node's summary is about.
fn owed_table(
    alloc: Global,
    torn: &[u32],
    mine: &[LaneSummary],
    theirs: &[LaneSummary],
) -> Result<Vec<Owed>, OutOfMemory>
    ensures { IfOk result (λ table. table.items ≡ map (owed_at torn.now mine.now theirs.now) (range_with_len 0 (length mine.now))) }
{
    let mut table = Vec::new(alloc);
    for validator in 0..mine.len() {
        table.push(owed_at(torn, mine, theirs, validator))?;
    }
    Ok(table)
}

/// Whether the vertex is owed. For a creator past the table's end the answer is worked out anew.
#[tactic(auto, using(crate::proofs::DueLaws::owed_says))]
fn is_due(
    table: &[Owed],
    torn: &[u32],
    mine: &[LaneSummary],
    theirs: &[LaneSummary],
    vertex: &Vertex,
) -> bool
    requires { AreOwed torn.now mine.now theirs.now table.now }
    ensures { result ≡ is_due torn.now mine.now theirs.now vertex.now }
{
    match vertex {
        Vertex::Evidence(_) | Vertex::Endorsement(_) => true,
        Vertex::Unit(signed) => {
            let creator = signed.unit.creator as usize;
            match table.get(creator) {
                Some(owed) => is_owed(*owed, signed.unit.seq),
                None => is_owed(owed_at(torn, mine, theirs, creator), signed.unit.seq),
            }
        }
    }
}

/// What is owed of a validator.
fn owed_at(torn: &[u32], mine: &[LaneSummary], theirs: &[LaneSummary], validator: usize) -> Owed
    ensures { result ≡ owed_at torn.now mine.now theirs.now validator }
{
    let is_torn = has_number(torn, validator);
    owed_by(is_torn, part(mine, validator), part(theirs, validator))
}

fn has_number(numbers: &[u32], number: usize) -> bool
    ensures { result ≡ list_any (λ n. n == number) numbers.now }
{
    numbers.iter().any(|n| *n as usize == number)
}

/// What is owed of a validator, by what the two summaries say of it.
fn owed_by(is_torn: bool, mine: LaneSummary, theirs: LaneSummary) -> Owed
    ensures { result ≡ owed_by is_torn mine theirs }
{
    if is_torn {
        return Owed::All;
    }
    match (mine, theirs) {
        (_, LaneSummary::Nothing) => Owed::All,
        (LaneSummary::Line(count, _), LaneSummary::Line(their_count, _)) => {
            if their_count < count {
                Owed::From(their_count)
            } else {
                Owed::Nothing
            }
        }
        _ => Owed::Nothing,
    }
}

/// Whether a unit of this number is owed.
fn is_owed(owed: Owed, seq: u64) -> bool
    ensures { result ≡ is_owed owed seq }
{
    match owed {
        Owed::Nothing => false,
        Owed::All => true,
        Owed::From(least) => least <= seq,
    }
}
