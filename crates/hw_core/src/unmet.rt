//! What a unit misses, found without memory.

ghost use Rattle.std.specs.{Prelude.{◌≡◌, ◌≤◌, ◌↔◌, ◌||◌, ◌++◌, [], not, length, map, IsTrue}, List.{list_any}};
ghost use Rattle.hw_types.specs.{declared.unit.Digest.{Digest as Name}, Settled.{need_eq, missing_of, unit_needs, evidence_needs}};
ghost use Rattle.hw_types.specs.declared.unit.Need.TheVariants as need_of;
ghost use Rattle.hw_dag.specs.{Dag.{graph}, Admission.{AllKnown, IsResolved, node_prepared}};
ghost use Rattle.hw_core.specs.{Settle.{known_in}, Missing.{is_met_in, unmet, needs_as_they_stand, IsFoundIn}};

use crate::missing::is_met;
use hw_admit::State;
use hw_dag::Prepared;
use hw_types::{Digest, Need, Obs, WireUnit};

/// How a search for the need at a place ends.
#[derive(Clone, Copy, Debug, PartialEq, Eq)]
pub enum SearchEnd {
    /// This need is there.
    Found(Need),
    /// There are so many needs, and none at that place.
    Passed(u32),
}

/// Looks for the need at this place among those that the unit misses, which stand in the order of its
/// panorama and then of its list, each once.
pub fn missing_at(state: &State, unit: &WireUnit, place: u32) -> SearchEnd
    requires { length unit.now.panorama ≡ length state.now.config.weights }
    ensures { (d : Name) → IsFoundIn (missing_of state.now.config (known_in state.now) (graph state.now.dag) (record { digest = d; unit = unit.now })) place result }
{
    let panorama = unit.panorama.as_slice();
    match unmet_units(state, panorama, place) {
        SearchEnd::Found(need) => SearchEnd::Found(need),
        SearchEnd::Passed(units) => match unmet_marks(state, panorama, units, place) {
            SearchEnd::Found(need) => SearchEnd::Found(need),
            SearchEnd::Passed(count) => unmet_list(state, unit, count, place),
        },
    }
}

/// Looks up the units that a unit observes, and says whether it misses nothing. Then its panorama is there
/// in numbers.
pub fn is_whole(state: &State, prepared: &mut Prepared) -> bool
    requires { length prepared.old.signed.unit.panorama ≡ length state.now.config.weights }
    ensures whole { IsTrue result ↔ missing_of state.now.config (known_in state.now) (graph state.now.dag) (node_prepared prepared.new) ≡ [] }
    ensures resolved { IsTrue result → IsResolved state.now.dag prepared.new }
    ensures signed { prepared.new.signed ≡ prepared.old.signed }
    ensures digest { prepared.new.digest ≡ prepared.old.digest }
{
    state.dag().resolve(prepared) && is_met_beside(state, &prepared.signed().unit)
}

/// Whether a unit of which each observed unit is settled misses nothing else: neither evidence nor
/// endorsements.
fn is_met_beside(state: &State, unit: &WireUnit) -> bool
    requires many { length unit.now.panorama ≡ length state.now.config.weights }
    requires known { AllKnown (graph state.now.dag) unit.now.panorama }
    ensures { (d : Name) → IsTrue result ↔ missing_of state.now.config (known_in state.now) (graph state.now.dag) (record { digest = d; unit = unit.now }) ≡ [] }
{
    match unmet_marks(state, unit.panorama.as_slice(), 0, 0) {
        SearchEnd::Found(_need) => false,
        SearchEnd::Passed(count) => match unmet_list(state, unit, count, 0) {
            SearchEnd::Found(_need) => false,
            SearchEnd::Passed(_count) => true,
        },
    }
}

/// Looks among the units that the panorama observes.
fn unmet_units(state: &State, panorama: &[Obs], place: u32) -> SearchEnd
    ensures { IsFoundIn (unmet (is_met_in state.now) (unit_needs panorama.now)) place result }
{
    let mut count = 0;
    for (slot, obs) in panorama.iter().enumerate() {
        if let Obs::Correct(digest) = obs {
            if is_wanted_unit(state, &panorama[..slot], digest) {
                if count == place {
                    return SearchEnd::Found(Need::Unit(*digest));
                }
                count += 1;
            }
        }
    }
    SearchEnd::Passed(count)
}

/// Whether the unit of this digest is missing and isn't among the observations before.
fn is_wanted_unit(state: &State, before: &[Obs], digest: &Digest) -> bool
    ensures { result ≡ not (list_any (λ m. need_eq m (need_of.Unit digest.now)) (unit_needs before.now) || is_met_in state.now (need_of.Unit digest.now)) }
{
    !is_met(state, &Need::Unit(*digest)) && !before.contains(&Obs::Correct(*digest))
}

/// Looks on among the marks of the panorama, with so many needs before them.
fn unmet_marks(state: &State, panorama: &[Obs], units: u32, place: u32) -> SearchEnd
    requires many { length panorama.now ≡ length state.now.config.weights }
    requires units { length (unmet (is_met_in state.now) (unit_needs panorama.now)) ≡ units }
    requires passed { units ≤ place }
    ensures { IsFoundIn (unmet (is_met_in state.now) (unit_needs panorama.now ++ evidence_needs panorama.now)) place result }
{
    let mut count = units;
    let validators = state.config().weights.len() as u32;
    for validator in 0..validators {
        if let Obs::Faulty = panorama[validator as usize] {
            if !is_met(state, &Need::Evidence(validator)) {
                if count == place {
                    return SearchEnd::Found(Need::Evidence(validator));
                }
                count += 1;
            }
        }
    }
    SearchEnd::Passed(count)
}

/// Looks on in the endorsed list, with so many needs before it.
fn unmet_list(state: &State, unit: &WireUnit, before: u32, place: u32) -> SearchEnd
    requires before { length (unmet (is_met_in state.now) (unit_needs unit.now.panorama ++ evidence_needs unit.now.panorama)) ≡ before }
    requires passed { before ≤ place }
    ensures { IsFoundIn (unmet (is_met_in state.now) (needs_as_they_stand unit.now)) place result }
{
    let mut count = before;
    let endorsed = unit.endorsed.as_slice();
    for (listed, digest) in endorsed.iter().enumerate() {
        if is_wanted_listed(state, &endorsed[..listed], *digest) {
            if count == place {
                return SearchEnd::Found(Need::Endorsed(*digest));
            }
            count += 1;
        }
    }
    SearchEnd::Passed(count)
}

/// Whether the unit of this digest isn't endorsed and isn't in the list before.
fn is_wanted_listed(state: &State, before: &[Digest], digest: Digest) -> bool
    ensures { result ≡ not (list_any (λ m. need_eq m (need_of.Endorsed digest)) (map need_of.Endorsed before.now) || is_met_in state.now (need_of.Endorsed digest)) }
{
    !is_met(state, &Need::Endorsed(digest)) && !before.contains(&digest)
}
