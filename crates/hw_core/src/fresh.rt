//! New units: each is made ready, and settles, is dropped or is parked.

ghost use Rattle.std.specs.Prelude.{◌≡◌, ◌+◌, ◌^◌, ◌<◌, ◌≤◌, ◌≢◌, List, length, [], IfOk, IfErr, OnOk, OnErr};
ghost use Rattle.hw_types.specs.declared.answers.Rule.{Rule as Why};
ghost use Rattle.hw_types.specs.declared.unit.Digest.{Digest as Name};
ghost use Rattle.hw_types.specs.declared.unit.Vertex.TheVariants as vertex;
ghost use Rattle.hw_types.specs.Settled.{missing_of};
ghost use Rattle.hw_types.specs.Spelling.{Fits};
ghost use Rattle.hw_types.specs.Real.{setting_of};
ghost use Rattle.hw_dag.specs.{Dag.{graph, count_of}, Admission.{IsFor, IsGraph, IsResolved, node_prepared}};
ghost use Rattle.hw_core.specs.Decided.{HasRoomFor, HasOnlyRoom};
ghost use Rattle.hw_core.specs.Keeps.{IsNode, AreRules};
ghost use Rattle.hw_core.specs.Settle.{HasMoreRoom, known_in};
ghost use Rattle.hw_core.specs.Deliver.{answer_to, IsRefusal};
ghost use Rattle.hw_core.specs.Units.{IsNewUnit, IsPlaced};

use crate::decided::Decided;
use crate::digest_map::DigestMap;
use crate::entry::Entry;
use crate::journal::Journal;
use crate::missing::missing;
use crate::settle::settle_new;
use crate::units::{NamedUnit, units_at_most};
use crate::unmet::is_whole;
use hw_admit::State;
use hw_dag::{NoRoom, Prepared};
use hw_park::Park;
use hw_types::{Cause, Digest, OutOfMemory, Receipt, Rule, SignedUnit};
use std::alloc::Global;

/// Takes the memory that a new unit can want, but for a list of its needs. The unit comes back copied,
/// with its name and the room that it will need in the graph.
pub fn ready_unit(
    names: &mut DigestMap<u32>,
    journal: &mut Journal,
    park: &Park<Prepared>,
    dropped: &mut DigestMap<Rule>,
    state: &mut State,
    decided: &mut Decided,
    named: NamedUnit<'_>,
) -> Result<Prepared, OutOfMemory>
    requires node { IsNode journal.old.items park.now state.old }
    requires listed { length decided.old.decisions ≡ length decided.old.detector.found }
    requires fits { IsFor (length state.old.config.weights) named.unit.now }
    ensures signed { IfOk result (λ prepared. prepared.signed ≡ named.entry.unit.now) }
    ensures digest { IfOk result (λ prepared. prepared.digest ≡ named.entry.name) }
    ensures names { names.new.entries ≡ names.old.entries }
    ensures items { journal.new.items ≡ journal.old.items }
    ensures dropped { dropped.new.entries ≡ dropped.old.entries }
    ensures more { dropped.old.room ≤ dropped.new.room }
    ensures places { OnOk result (length park.now.waiting + 1 ≤ dropped.new.room) }
    ensures table { OnOk result (1 ≤ names.new.room) }
    ensures place { OnOk result (length journal.new.items + 1 ≤ journal.new.capacity) }
    ensures few { OnOk result (length journal.old.items < 2 ^ 32) }
    ensures room { OnOk result (length park.now.waiting + 1 ≤ state.new.spare) }
    ensures unchanged { HasMoreRoom state.old state.new }
    ensures decided { HasOnlyRoom decided.old decided.new }
    ensures blocks { OnOk result (HasRoomFor decided.new (length (graph state.old.dag) + (length park.now.waiting + 1))) }
    ensures graph { IsGraph state.old.dag }
{
    // For the prover: recalls that the configuration is lawful.
    let _config = state.config();
    let units = units_at_most(park, state);
    let waiting = park.count() + 1;
    decided.reserve(units)?;
    make_room(names, journal, dropped, state, waiting)?;
    prepare_copy(state, named.unit, named.name)
}

/// Takes the room for one unit more in the table and the journal, and for so many more in the state and
/// among the dropped.
fn make_room(
    names: &mut DigestMap<u32>,
    journal: &mut Journal,
    dropped: &mut DigestMap<Rule>,
    state: &mut State,
    count: u32,
) -> Result<(), OutOfMemory>
    requires { count_of state.old.dag + count + 1 < 2 ^ 32 }
    ensures names { names.new.entries ≡ names.old.entries }
    ensures items { journal.new.items ≡ journal.old.items }
    ensures dropped { dropped.new.entries ≡ dropped.old.entries }
    ensures more { dropped.old.room ≤ dropped.new.room }
    ensures places { OnOk result (count ≤ dropped.new.room) }
    ensures table { OnOk result (1 ≤ names.new.room) }
    ensures place { OnOk result (length journal.new.items + 1 ≤ journal.new.capacity) }
    ensures room { OnOk result (count ≤ state.new.spare) }
    ensures unchanged { HasMoreRoom state.old state.new }
{
    names.reserve(1)?;
    journal.reserve()?;
    dropped.reserve(count as usize)?;
    state.reserve(count)
}

/// A copy of the unit with its name, and with the room that it will need in the graph.
fn prepare_copy(state: &State, unit: &SignedUnit, name: Digest) -> Result<Prepared, OutOfMemory>
    requires { IsFor (length state.now.config.weights) unit.now }
    ensures signed { IfOk result (λ prepared. prepared.signed ≡ unit.now) }
    ensures digest { IfOk result (λ prepared. prepared.digest ≡ name) }
{
    let copy = unit.copy()?;
    match state.dag().prepare(copy, name) {
        Ok(prepared) => Ok(prepared),
        Err(no_room) => Err(let_go(no_room)),
    }
}

/// Lets a copy go for which there was no room. Out of line: the back end zeroes a function's whole frame on entry.
fn let_go(no_room: NoRoom) -> OutOfMemory {
    drop(no_room);
    OutOfMemory
}

/// Finds a new unit its place. One that misses nothing is judged, and settles with those that it frees, or
/// is dropped; another one is parked. Where it is refused, nothing has changed.
pub fn place_unit(
    alloc: Global,
    journal: &[Entry],
    park: &mut Park<Prepared>,
    dropped: &mut DigestMap<Rule>,
    state: &mut State,
    mut prepared: Prepared,
) -> Result<Receipt, Cause>
    requires node { IsNode journal.now park.old state.old }
    requires rules { AreRules (setting_of state.old.config) journal.now dropped.old.entries }
    requires new { IsNewUnit state.old.config journal.now prepared.signed prepared.digest }
    requires fits { Fits prepared.signed.unit }
    requires room { length park.old.waiting + 1 ≤ state.old.spare }
    requires places { length park.old.waiting + 1 ≤ dropped.old.room }
    ensures placed { IfOk result (λ receipt. IsPlaced state.old (length park.old.waiting) journal.now prepared.signed state.new park.new dropped.new.entries receipt) }
    ensures places { length park.new.waiting ≤ dropped.new.room }
    ensures refused { IfErr result (λ cause. IsRefusal cause (answer_to state.old.config journal.now (vertex.Unit prepared.signed))) }
    ensures still { OnErr result (state.new ≡ state.old) }
    ensures unparked { OnErr result (park.new ≡ park.old) }
    ensures undropped { OnErr result (dropped.new.entries ≡ dropped.old.entries) }
{
    if is_whole(state, &mut prepared) {
        Ok(settle_unit(journal, park, dropped, state, prepared))
    } else {
        park_unit(alloc, journal, park, state, prepared)
    }
}

/// Judges a new unit that misses nothing. It settles with the units that it frees, or is dropped.
fn settle_unit(
    journal: &[Entry],
    park: &mut Park<Prepared>,
    dropped: &mut DigestMap<Rule>,
    state: &mut State,
    prepared: Prepared,
) -> Receipt
    requires node { IsNode journal.now park.old state.old }
    requires rules { AreRules (setting_of state.old.config) journal.now dropped.old.entries }
    requires new { IsNewUnit state.old.config journal.now prepared.signed prepared.digest }
    requires room { length park.old.waiting + 1 ≤ state.old.spare }
    requires places { length park.old.waiting + 1 ≤ dropped.old.room }
    requires met { missing_of state.old.config (known_in state.old) (graph state.old.dag) (node_prepared prepared) ≡ [] }
    requires resolved { IsResolved state.old.dag prepared }
    ensures placed { IsPlaced state.old (length park.old.waiting) journal.now prepared.signed state.new park.new dropped.new.entries result }
    ensures places { length park.new.waiting ≤ dropped.new.room }
{
    // The journal stands in the contract alone.
    let _ = journal;
    match settle_new(state, park, dropped, prepared) {
        Ok(settled) => Receipt::Admitted { settled },
        Err(rule) => Receipt::Dropped(rule),
    }
}

/// Parks a new unit that misses something, while there is room. Only now its needs are worked out.
fn park_unit(
    alloc: Global,
    journal: &[Entry],
    park: &mut Park<Prepared>,
    state: &State,
    prepared: Prepared,
) -> Result<Receipt, Cause>
    requires node { IsNode journal.now park.old state.now }
    requires new { IsNewUnit state.now.config journal.now prepared.signed prepared.digest }
    requires fits { Fits prepared.signed.unit }
    requires room { length park.old.waiting + 1 ≤ state.now.spare }
    requires misses { missing_of state.now.config (known_in state.now) (graph state.now.dag) (node_prepared prepared) ≢ [] }
    ensures placed { IfOk result (λ receipt. (rules : List (Name × Why)) → AreRules (setting_of state.now.config) journal.now rules → IsPlaced state.now (length park.old.waiting) journal.now prepared.signed state.now park.new rules receipt) }
    ensures longer { OnOk result (length park.new.waiting ≡ length park.old.waiting + 1) }
    ensures refused { IfErr result (λ cause. IsRefusal cause (answer_to state.now.config journal.now (vertex.Unit prepared.signed))) }
    ensures unparked { OnErr result (park.new ≡ park.old) }
{
    // The journal stands in the contract alone.
    let _ = journal;
    if park.count() == state.config().max_parked {
        return Err(Cause::ParkFull);
    }
    let Ok(needs) = missing(alloc, state, &prepared.signed().unit) else {
        return Err(Cause::OutOfMemory);
    };
    match park.park(&needs, prepared) {
        Ok(()) => Ok(Receipt::Parked {
            missing: needs.len() as u32,
        }),
        Err(_) => Err(Cause::OutOfMemory),
    }
}
