//! Whether a panorama is above those of the units that it cites.
//!
//! The walk begins with what the newest unit of the graph observes, which is consistent: a unit that it observes too is
//! looked at only where the panorama is behind it, and only if it came after the first unit that the panorama is behind
//! by. Of the others one that the last one looked at observes needs no look either. So a unit that observes what the one
//! before it did costs one pass over the slots.

ghost use Rattle.std.specs.Prelude.{◌≡◌, ◌<◌, false, IsTrue};
ghost use Rattle.hw_types.specs.Graph.{is_consistent};
ghost use Rattle.hw_dag.specs.Dag.{graph, observations, IsPanorama};
ghost use Rattle.hw_dag.specs.Admission.{IsGraph};
ghost use Rattle.hw_dag.specs.Views.{IsKnownView, IsViewOf, HasSeen, HaveSeenNoMore, IsColumnMet, AreSharedMet, AreOthersMet};

use crate::order::{at_most, meets};
use crate::{Dag, Panorama, Slot, UnitNo, View};

/// Whether the panorama of each unit in it is at most the panorama.
pub fn consistent(dag: &Dag, panorama: &Panorama) -> bool
    requires { IsPanorama dag.now panorama.now }
    ensures { result ≡ is_consistent (graph dag.now) (observations dag.now panorama.now) }
{
    let count = dag.count();
    if count == 0 {
        return true;
    }
    // Most units observe nearly what the newest one does.
    let known = dag.unit(UnitNo(count - 1)).panorama();
    are_shared_met(dag, known, panorama) && are_others_met(dag, known, panorama)
}

/// Whether what each unit observes that both panoramas have is met. It is at most the known panorama,
/// which is consistent, so only validators are looked at of whom that observes more.
fn are_shared_met(dag: &Dag, known: &Panorama, panorama: &Panorama) -> bool
    requires panorama { IsPanorama dag.now panorama.now }
    requires known { IsPanorama dag.now known.now }
    requires consistent { IsTrue (is_consistent (graph dag.now) (observations dag.now known.now)) }
    ensures met { IsTrue result → AreSharedMet dag.now known.now panorama.now }
    ensures unmet { result ≡ false → is_consistent (graph dag.now) (observations dag.now panorama.now) ≡ false }
{
    for validator in 0..dag.validators() {
        if known.slot(validator).is(panorama.slot(validator)) {
            continue;
        }
        let low = known.get(validator);
        let high = panorama.get(validator);
        if !meets(dag, validator, low, high) && !is_column_met(dag, known, panorama, validator) {
            return false;
        }
    }
    true
}

/// Whether what each unit that both panoramas have observes of one validator is met. Those that were there
/// before the first unit that the panorama is behind by need no look.
fn is_column_met(dag: &Dag, known: &Panorama, panorama: &Panorama, of: u32) -> bool
    requires panorama { IsPanorama dag.now panorama.now }
    requires known { IsPanorama dag.now known.now }
    requires consistent { IsTrue (is_consistent (graph dag.now) (observations dag.now known.now)) }
    requires of { of < dag.now.validators }
    ensures met { IsTrue result → IsColumnMet dag.now known.now panorama.now of }
    ensures unmet { result ≡ false → is_consistent (graph dag.now) (observations dag.now panorama.now) ≡ false }
{
    let count = dag.validators();
    let high = panorama.get(of);
    let first = first_behind(dag, of, known.get(of), high);
    for validator in 0..count {
        let slot = panorama.slot(validator);
        if !slot.is(known.slot(validator)) {
            continue;
        }
        if let View::Correct(no) = slot.view() {
            if no.0 >= first && !meets(dag, of, dag.unit(no).panorama().get(of), high) {
                return false;
            }
        }
    }
    true
}

/// The number of the first unit that the known slot's lane has behind the high slot. A unit cites lesser numbers
/// alone, so one before it that has seen no more of the validator than the known slot has seen no more than
/// the high one. It is 0, which no unit is before, where the high slot isn't earlier on the known one's lane.
fn first_behind(dag: &Dag, of: u32, known: View, high: View) -> u32
    requires graph { IsGraph dag.now }
    requires known { IsViewOf dag.now of known }
    requires high { IsViewOf dag.now of high }
    ensures { HaveSeenNoMore dag.now of known high result }
{
    match (known, high) {
        (View::Correct(top), View::Absent) => dag.unit_on_lane(top, 0).0,
        (View::Correct(top), View::Correct(low)) => {
            let seq = dag.unit(low).signed().unit.seq;
            if seq < dag.unit(top).signed().unit.seq && dag.on_lane_of(of, low, top) {
                dag.unit_on_lane(top, seq + 1).0
            } else {
                0
            }
        }
        _ => 0,
    }
}

/// Whether the panorama of each unit that only the one panorama has is at most it. A unit that the last one
/// looked at observes needs no look: what it observes is at most what that one does.
fn are_others_met(dag: &Dag, known: &Panorama, panorama: &Panorama) -> bool
    requires panorama { IsPanorama dag.now panorama.now }
    requires known { IsPanorama dag.now known.now }
    ensures met { IsTrue result → AreOthersMet dag.now known.now panorama.now }
    ensures unmet { result ≡ false → is_consistent (graph dag.now) (observations dag.now panorama.now) ≡ false }
{
    let mut last = View::Absent;
    for validator in 0..dag.validators() {
        let slot = panorama.slot(validator);
        if slot.is(known.slot(validator)) || has_seen(dag, last, validator, slot) {
            continue;
        }
        let view = slot.view();
        if let View::Correct(no) = view {
            if !at_most(dag, dag.unit(no).panorama(), panorama) {
                return false;
            }
            last = view;
        }
    }
    true
}

/// Whether there is a unit in the slot, and it observes the same of the validator.
fn has_seen(dag: &Dag, slot: View, validator: u32, seen: Slot) -> bool
    requires graph { IsGraph dag.now }
    requires slot { IsKnownView dag.now slot }
    requires validator { validator < dag.now.validators }
    ensures { IsTrue result → HasSeen dag.now slot validator seen }
{
    match slot {
        View::Correct(no) => dag.unit(no).panorama().slot(validator).is(seen),
        View::Absent | View::Faulty => false,
    }
}
