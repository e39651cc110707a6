//! What a node tells of its journal. No reader takes memory.

ghost use Rattle.std.specs.{Prelude.{◌≡◌, ℕ, ◌<◌, ◌≤◌, ◌↔◌, IsTrue, length, slice_get, take, Some, None, IfOk, IfSome, IfNone}, Option.{option_copied}};
ghost use Rattle.hw_types.specs.Graph.{slot};
ghost use Rattle.hw_types.specs.Settled.{has_evidence, parked_of, dropped_of};
ghost use Rattle.hw_types.specs.Spelling.{VertexFits, Fits, instance_of};
ghost use Rattle.hw_types.specs.laws.StateLaws.{units_in, NamesApart};
ghost use Rattle.hw_types.specs.Real.{setting_of, received_in, settled_in, panorama_in, weight_in, asked_in};
ghost use Rattle.hw_types.specs.Limits.{config_fault};
ghost use Rattle.hw_types.specs.declared.unit.Vertex.TheVariants as vertex;
ghost use Rattle.hw_safety.specs.Safety.{HasPairs};
ghost use Rattle.hw_dag.specs.Dag.{graph, observations};
ghost use Rattle.hw_admit.specs.State.{is_marked};
ghost use Rattle.hw_core.specs.Decided.{decided_in};
ghost use Rattle.hw_core.specs.Deliver.{HasCome};
ghost use Rattle.hw_core.specs.Order.{order_in};
ghost use Rattle.hw_core.specs.Promises.{IsSound};
ghost use Rattle.hw_core.specs.Settle.{admitted_in};
ghost use Rattle.hw_core.specs.Shown.{HasSummitNow, IsStartNow, IsStartOf};
ghost use Rattle.hw_core.specs.Readers.{unit_in, names_of, missing_needs, unmet_in, evidence_of, endorsements_of, IsPlace, IsUnsettled, fork_in, exceeded_in};

use super::CoreInner;
use crate::missing::missing;
use crate::place::Place;
use crate::units::known_unit;
use crate::unmet::{SearchEnd, missing_at};
use hw_admit::State;
use hw_dag::View;
use hw_types::{
    Decision, Digest, Endorsement, Evidence, Need, NeedList, Obs, OutOfMemory, SignedUnit, Vertex,
};
use std::alloc::Global;

impl CoreInner {
    /// The digest of its configuration.
    pub(crate) fn instance(&self) -> &Digest
        ensures { result.now ≡ instance_of self.now.config }
    {
        &self.instance
    }

    /// How many vertices the journal has.
    pub(crate) fn journal_count(&self) -> u64
        ensures { result ≡ length self.now.journal }
    {
        self.journal.len() as u64
    }

    /// The vertex at that place of the journal.
    pub(crate) fn journal_at(&self, place: u64) -> &Vertex
        requires { place < length self.now.journal }
        ensures vertex { Some result.now ≡ slice_get self.now.journal place }
        ensures fits { VertexFits result.now }
    {
        self.journal.at(place)
    }

    /// The names of the journal's units, in the journal's order.
    pub(crate) fn unit_names(&self) -> &[Digest]
        ensures { result.now ≡ names_of self.now.journal }
    {
        self.names.names()
    }

    /// What became of the journal's unit of this digest.
    pub(crate) fn place_of(&self, unit: &Digest) -> Place
        ensures { IsPlace self.now unit.now result }
    {
        match self.state.dag().find(unit) {
            Some(no) => Place::Settled(no),
            None => match self.dropped.get(unit) {
                Some(rule) => Place::Dropped(*rule),
                None => self.place_of_unsettled(unit),
            },
        }
    }

    /// What became of the journal's unit of this digest, which neither settled nor was dropped.
    fn place_of_unsettled(&self, unit: &Digest) -> Place
        requires { IsUnsettled self.now unit.now }
        ensures { IsPlace self.now unit.now result }
    {
        match known_unit(&self.names, self.journal.as_slice(), unit) {
            None => Place::Unknown,
            Some(known) => match missing_at(&self.state, &known.unit, u32::MAX) {
                SearchEnd::Passed(count) => Place::Parked(count),
                // No unit has so many needs.
                SearchEnd::Found(_need) => unreachable!(),
            },
        }
    }

    /// The journal's unit of this digest, None where it has none.
    pub(crate) fn unit_of(&self, unit: &Digest) -> Option<&SignedUnit>
        ensures unit { option_copied result ≡ unit_in self.now unit.now }
        ensures fits { IfSome result (λ known. Fits known.now.unit) }
    {
        known_unit(&self.names, self.journal.as_slice(), unit)
    }

    /// The need at this place among those that the journal's unit of this digest misses, in the order of
    /// its panorama and then of its list. None where there is no such unit or no such place.
    pub(crate) fn missing(&self, unit: &Digest, place: u32) -> Option<Need>
        ensures { result ≡ slice_get (missing_needs self.now unit.now) place }
    {
        match known_unit(&self.names, self.journal.as_slice(), unit) {
            None => None,
            Some(known) => match missing_at(&self.state, &known.unit, place) {
                SearchEnd::Found(need) => Some(need),
                SearchEnd::Passed(_count) => None,
            },
        }
    }

    /// The first needs, `most` at most, that the journal's unit of this digest misses, in one pass. None where there is
    /// no such unit.
    pub(crate) fn first_missing(
        &self,
        alloc: Global,
        unit: &Digest,
        most: usize,
    ) -> Result<NeedList, OutOfMemory>
        ensures { IfOk result (λ needs. needs ≡ take most (missing_needs self.now unit.now)) }
    {
        match known_unit(&self.names, self.journal.as_slice(), unit) {
            None => Ok(NeedList::new(alloc)),
            Some(known) => {
                let mut needs = missing(alloc, &self.state, &known.unit)?;
                needs.truncate(most);
                Ok(NeedList::from_vec(needs))
            }
        }
    }

    /// Puts the first needs that parked units miss into the list, in the order of parking and for each unit in
    /// that of `missing`. A repeated need stands at its first place alone. Says how many these are: all, or as
    /// many as the list has places for.
    pub(crate) fn first_unmet(&self, list: &mut [Need]) -> usize
        ensures within { result ≤ length list.old }
        ensures first { take result list.new ≡ take (length list.old) (unmet_in self.now) }
    {
        self.park.first_needs(list)
    }

    /// The journal's evidence against the validator, None where it has none.
    pub(crate) fn evidence_against(&self, validator: u32) -> Option<&Evidence>
        ensures evidence { option_copied result ≡ evidence_of self.now validator }
        ensures fits { IfSome result (λ known. VertexFits (vertex.Evidence known.now)) }
    {
        match self.journal.told_at(&Need::Evidence(validator), 0) {
            Some(Vertex::Evidence(evidence)) => Some(evidence),
            Some(Vertex::Unit(_)) => None,
            Some(Vertex::Endorsement(_)) => None,
            None => None,
        }
    }

    /// The endorsement at this place among those that the journal has of the unit of this digest, in the
    /// journal's order. None where there is no such place.
    pub(crate) fn endorsement_of(&self, unit: &Digest, place: u32) -> Option<&Endorsement>
        ensures { option_copied result ≡ slice_get (endorsements_of self.now unit.now) place }
    {
        match self.journal.told_at(&Need::Endorsed(*unit), place) {
            Some(Vertex::Endorsement(endorsement)) => Some(endorsement),
            Some(Vertex::Unit(_)) => None,
            Some(Vertex::Evidence(_)) => None,
            None => None,
        }
    }

    /// How many units are settled.
    pub(crate) fn settled_count(&self) -> u32
        ensures { result ≡ length (settled_in self.now) }
    {
        self.state.dag().count()
    }

    /// How many units are parked.
    pub(crate) fn parked_count(&self) -> u32
        ensures { result ≡ length (parked_of self.now.config (received_in self.now)) }
    {
        self.park.count()
    }

    /// How many units were dropped.
    pub(crate) fn dropped_count(&self) -> u32
        ensures { result ≡ length (dropped_of self.now.config (received_in self.now)) }
    {
        // For the prover: recalls that the configuration is lawful.
        let _config = self.state.config();
        self.dropped.len() as u32
    }

    /// What the node observes of the validator.
    pub(crate) fn observation(&self, validator: u32) -> Obs
        requires { validator < length self.now.config.weights }
        ensures { result ≡ slot (panorama_in self.now) validator }
    {
        let dag = self.state.dag();
        match self.state.panorama().get(validator) {
            View::Absent => Obs::Absent,
            View::Correct(no) => Obs::Correct(*dag.unit(no).digest()),
            View::Faulty => Obs::Faulty,
        }
    }

    /// The fork choice, None exactly where the node observes no unit.
    pub(crate) fn fork(&self) -> Option<Digest>
        ensures { result ≡ fork_in self.now }
    {
        // For the prover: recalls what is said of each state's panorama.
        let _panorama = self.state.panorama();
        match self.fork {
            None => None,
            Some(no) => Some(*self.state.dag().unit(no).digest()),
        }
    }

    /// The weight of the faulty validators.
    pub(crate) fn faulty_weight(&self) -> u64
        ensures { result ≡ weight_in self.now }
    {
        self.state.faulty_weight()
    }

    /// The weight of the faulty validators, where it exceeds the threshold.
    pub(crate) fn exceeded(&self) -> Option<u64>
        ensures { result ≡ exceeded_in self.now }
    {
        let weight = self.faulty_weight();
        if weight > self.state.config().ftt {
            Some(weight)
        } else {
            None
        }
    }

    /// How many blocks are decided.
    pub(crate) fn decision_count(&self) -> u64
        ensures { result ≡ length (decided_in self.now) }
    {
        self.decided.count()
    }

    /// The decided block of that place, by moment and then by height.
    pub(crate) fn decision(&self, index: u64) -> &Decision
        requires { index < length (decided_in self.now) }
        ensures { Some result.now ≡ slice_get (decided_in self.now) index }
    {
        self.decided.get(index)
    }

    /// Whether the decided block of that place has a summit of its level and quorum in the present state.
    pub(crate) fn summit_now(&mut self, index: u64) -> bool
        requires { index < length (decided_in self.old) }
        ensures exact { IsTrue result ↔ HasSummitNow self.old index }
        ensures asked { self.new ≡ asked_in self.old index }
    {
        let block = self.decided.block(index);
        let decision = *self.decided.get(index);
        let asked = self.journal.question(index);
        self.shown
            .show(&self.state, asked, block, decision.level, decision.quorum)
    }

    /// Where the validator starts in the committee of the level of the greatest summit that the last
    /// `summit_now` or `summit_start_of` found. None exactly where a vertex came since or there was no such question,
    /// where it found none, where the level is above the decision's, and for a validator outside the committee.
    pub(crate) fn summit_start(&self, level: u32, validator: u32) -> Option<u64>
        ensures start { IfSome result (IsStartNow self.now level validator) }
        ensures none { IfNone result ((start : ℕ) → IsStartNow self.now level validator start → ⊥) }
    {
        let count = self.journal.len() as u64;
        self.shown.start(count, level, validator)
    }

    /// Where the validator starts in the committee of the level of the greatest summit, of its level and quorum,
    /// that the decided block of that place has in the present state. None exactly where it has none, where the
    /// level is above the decision's, and for a validator outside the committee.
    pub(crate) fn summit_start_of(&mut self, index: u64, level: u32, validator: u32) -> Option<u64>
        requires { index < length (decided_in self.old) }
        ensures start { IfSome result (IsStartOf self.old index level validator) }
        ensures none { IfNone result ((start : ℕ) → IsStartOf self.old index level validator start → ⊥) }
        ensures asked { self.new ≡ asked_in self.old index }
    {
        // For the prover: what holds of the state's graph and panorama.
        let _dag = self.state.dag();
        let _panorama = self.state.panorama();
        let block = self.decided.block(index);
        let decision = *self.decided.get(index);
        let asked = self.journal.question(index);
        self.shown
            .show_once(&self.state, asked, block, decision.level, decision.quorum);
        self.shown.start(asked.at, level, validator)
    }

    /// Its state, for reading.
    pub(crate) fn state(&self) -> &State
        ensures config { result.now.config ≡ self.now.config }
        ensures settled { graph result.now.dag ≡ settled_in self.now }
        ensures order { admitted_in result.now ≡ order_in self.now }
        ensures panorama { observations result.now.dag result.now.panorama ≡ panorama_in self.now }
        ensures evidence { (v : ℕ) → is_marked result.now.marked v ≡ has_evidence (received_in self.now).with_evidence v }
        ensures endorsements { result.now.pairs ≡ (received_in self.now).endorsements }

        // What holds of each journal: deliveries made it, under a lawful configuration; its evidence are pairs, and no
        // two of its units have one name.
        ensures reached { HasCome self.now.config self.now.journal }
        ensures lawful { config_fault self.now.config ≡ None }
        ensures sound { IsSound self.now }
        ensures pairs { HasPairs (setting_of self.now.config) self.now.journal }
        ensures apart { NamesApart (units_in (setting_of self.now.config) self.now.journal) }
    {
        // For the prover: recalls what is said of each state's panorama.
        let _panorama = self.state.panorama();
        let _config = self.state.config();
        &self.state
    }
}
