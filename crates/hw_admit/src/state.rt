//! The state and what moves it.

ghost use Rattle.std.specs.Prelude.{◌≡◌, ◌+◌, ◌^◌, ◌<◌, ◌≤◌, ◌↔◌, [], true, false, length, ℕ, List, replicate, slice_set, Some, None, IfOk, IfErr, IfSome, OnOk, OnErr, IsNone};
ghost use Rattle.std.specs.Option.{option_map};
ghost use Rattle.std.specs.Map.Iter.{ShowsInOrder, deref};
ghost use Rattle.hw_types.specs.declared.unit.Digest.{Digest as Named};
ghost use Rattle.hw_types.specs.Graph.{Node, is_consistent};
ghost use Rattle.hw_types.specs.Lawful.{IsLawful};
ghost use Rattle.hw_types.specs.Limits.{config_fault};
ghost use Rattle.hw_types.specs.Rules.{is_rising, state_rule};
ghost use Rattle.hw_types.specs.Votes.{fork_of, weight_of};
ghost use Rattle.hw_dag.specs.declared.numbers.UnitNo.{UnitNo as Number};
ghost use Rattle.hw_dag.specs.declared.numbers.View.TheVariants as view;
ghost use Rattle.hw_dag.specs.Dag.{UnitGraph, graph, count_of, node_at, view_at, observations, IsPanorama};
ghost use Rattle.hw_dag.specs.Admission.{IsGraph, IsNew, IsResolved, IsFork, node_prepared};
ghost use Rattle.hw_dag.specs.Lanes.{AreWeights};
ghost use Rattle.hw_endorse.specs.Told.{added_of, is_told, with_pair, has_majority, HaveMajority};
ghost use Rattle.hw_naivety.specs.{Naivety.{KeepsEndorsed, IsNoted, HasNoNaiveFork, HasSight, IsLeastNaiveFork}, Tips.{HasLists}};
ghost use Rattle.hw_rules.specs.Judged.{KeepsLocalRules};
ghost use Rattle.hw_admit.specs.{Kept.{IsKept}, State.{NodeState, IsState, IsStartFault, IsAdmitted, MarksAreMet, is_faulty_in, is_marked, observed_in, told_in}};

use crate::kept::CachedForkChoice;
use crate::start::StateFault;
use hw_dag::{Dag, Marks, Panorama, Prepared, UnitNo, View};
use hw_endorse::{Added, EndorsedUnits, Endorsements};
use hw_forks::Forks;
use hw_naivety::{NaiveFork, Naivety};
use hw_rounds::LeaderTable;
use hw_rules::Judge;
use hw_types::{Config, Digest, OutOfMemory, Rule};
use std::alloc::Global;
use std::marker::Model;

/// Room is made for so many units at once.
const UNITS_AHEAD: u32 = 64;

/// The state of one node.
///
/// Its `drop` is written out: a derived one is proved again, with those of all parts, in each crate that lets a state
/// go.
pub struct State {
    config: Config,
    leaders: LeaderTable,
    /// Room for so many more units.
    spare: u32,
    dag: Dag,
    naivety: Naivety,
    forks: Forks,
    marks: Marks,
    /// For each validator, whether there is evidence against it.
    marked: Vec<bool>,
    endorsements: Endorsements,
    panorama: Panorama,
    /// The fork choice of its panorama.
    own_fork: CachedForkChoice,
    /// The fork choice of the unit that was judged last.
    judged_fork: CachedForkChoice,
}

impl Drop for State {
    fn drop(self) {
        let State {
            config: _config,
            leaders: _leaders,
            spare: _spare,
            dag: _dag,
            naivety: _naivety,
            forks: _forks,
            marks: _marks,
            marked: _marked,
            endorsements: _endorsements,
            panorama: _panorama,
            own_fork: _own_fork,
            judged_fork: _judged_fork,
        } = self;
    }
}

impl Model for State {
    ghost use Rattle.hw_admit.specs.State.{NodeState, IsState, IsBeside};

    ghost Value = { NodeState };

    ghost view = { λ s. record {
      config = s.config;
      spare = s.spare;
      dag = s.dag;
      marked = s.marked.items;
      pairs = s.endorsements.pairs;
      panorama = s.panorama;
    } };

    ghost invariant = { λ s. IsState (record { config = s.config; spare = s.spare; dag = s.dag; marked = s.marked.items; pairs = s.endorsements.pairs; panorama = s.panorama })
        × IsBeside (record { config = s.config; spare = s.spare; dag = s.dag; marked = s.marked.items; pairs = s.endorsements.pairs; panorama = s.panorama }) s.leaders s.endorsements s.naivety s.forks s.marks s.own_fork s.judged_fork };
}

impl State {
    /// The state of a node that has settled nothing and knows of no fault, and has no room so far.
    pub fn new(alloc: Global, config: Config) -> Result<State, StateFault>
        // There is none for a configuration that breaks a limit, which is named.
        ensures lawful { IfOk result (λ state. config_fault config ≡ None) }
        ensures fault { IfErr result (IsStartFault (config_fault config)) }

        ensures config { IfOk result (λ state. state.config ≡ config) }
        ensures validators { IfOk result (λ state. state.dag.validators ≡ length config.weights) }
        ensures empty { IfOk result (λ state. state.dag.units ≡ []) }
        ensures unmarked { IfOk result (λ state. state.marked ≡ replicate (length config.weights) false) }
        ensures untold { IfOk result (λ state. state.pairs ≡ []) }
        ensures unseen { IfOk result (λ state. state.panorama ≡ replicate (length config.weights) view.Absent) }
    {
        match config.check() {
            Ok(()) => begin(alloc, config).map_err(|_| StateFault::OutOfMemory),
            Err(fault) => Err(StateFault::Fault(fault)),
        }
    }

    /// The configuration of its instance.
    pub fn config(&self) -> &Config
        ensures config { result.now ≡ self.now.config }
        ensures lawful { config_fault self.now.config ≡ None }
    {
        &self.config
    }

    /// The settled units. Their votes are those under the weights of the configuration, and each unit that
    /// they mark is faulty.
    pub fn dag(&self) -> &Dag
        ensures dag { result.now ≡ self.now.dag }
        ensures graph { IsGraph self.now.dag }
        ensures weights { AreWeights self.now.config.weights self.now.dag }
        ensures lawful { IsLawful self.now.config.weights (is_faulty_in self.now.marked (graph self.now.dag)) (graph self.now.dag) }
    {
        self.dag.recall_graph();
        &self.dag
    }

    /// What it observes of each validator: Faulty where that is faulty, else its latest unit.
    pub fn panorama(&self) -> &Panorama
        ensures panorama { result.now ≡ self.now.panorama }
        ensures is_panorama { IsPanorama self.now.dag self.now.panorama }
        ensures observed { observations self.now.dag self.now.panorama ≡ observed_in self.now.config self.now.marked (graph self.now.dag) }
        ensures consistent { is_consistent (graph self.now.dag) (observations self.now.dag self.now.panorama) ≡ true }
    {
        self.dag.recall_graph();
        &self.panorama
    }

    /// Whether there is evidence against the validator.
    pub fn is_marked(&self, validator: u32) -> bool
        requires { validator < length self.now.config.weights }
        ensures { result ≡ is_marked self.now.marked validator }
    {
        self.marked[validator as usize]
    }

    /// Whether the validator is faulty: there is evidence against it, or two of its settled units are an
    /// equivocation.
    pub fn is_faulty(&self, validator: u32) -> bool
        requires { validator < length self.now.config.weights }
        ensures { result ≡ is_faulty_in self.now.marked (graph self.now.dag) validator }
    {
        matches!(self.panorama.get(validator), View::Faulty)
    }

    /// The weight of the faulty validators.
    pub fn faulty_weight(&self) -> u64
        ensures { result ≡ weight_of self.now.config.weights (is_faulty_in self.now.marked (graph self.now.dag)) }
    {
        let weights = self.config.weights.as_slice();
        let mut total = 0;
        for (slot, weight) in self.panorama.views().iter().zip(weights) {
            if let View::Faulty = slot.view() {
                total += *weight;
            }
        }
        total
    }

    /// Whether the validator's endorsement of the unit of this digest is known.
    pub fn is_told(&self, unit: &Digest, endorser: u32) -> bool
        requires { endorser < length self.now.config.weights }
        ensures { result ≡ is_told self.now.pairs unit.now endorser }
    {
        self.endorsements.has(unit, endorser)
    }

    /// Whether more than half of the total weight endorses the unit of this digest.
    pub fn endorsed(&self, unit: &Digest) -> bool
        ensures { result ≡ has_majority (told_in self.now) unit.now }
    {
        self.endorsements.endorsed(unit)
    }

    /// The units that more than half of the total weight endorses, settled or not, each once and rising by
    /// their digests. It takes no memory.
    pub fn endorsed_units(&self) -> EndorsedUnits<'_>
        ensures majority { HaveMajority (told_in self.now) result }
        ensures rising { is_rising result ≡ true }
        ensures runs { ShowsInOrder (deref {X = Named}) }
    {
        self.endorsements.endorsed_units()
    }

    /// None where any two naive units of one creator are comparable, else two of the least creator that
    /// aren't.
    pub fn naive(&self, prepared: &Prepared, marks: &mut Marks) -> Option<NaiveFork>
        requires resolved { IsResolved self.now.dag prepared.now }
        requires panorama { IsPanorama self.now.dag prepared.now.panorama }
        requires endorsed { KeepsEndorsed (graph self.now.dag) (node_prepared prepared.now) }
        requires room { count_of self.now.dag ≤ marks.old }
        ensures none { IsNone result ↔ HasNoNaiveFork (graph self.now.dag) (node_prepared prepared.now) }
        ensures least { IfSome result (λ fork. IsLeastNaiveFork self.now.dag (node_prepared prepared.now) fork) }
        ensures room { marks.new ≡ marks.old }
    {
        self.naivety.check(&self.dag, prepared, marks)
    }

    /// What `naive` answers for each unit with this panorama and this endorsed list. The list has those of
    /// the units that the panorama cites.
    pub fn naive_over(
        &self,
        panorama: &Panorama,
        endorsed: &[Digest],
        marks: &mut Marks,
    ) -> Option<NaiveFork>
        requires panorama { IsPanorama self.now.dag panorama.now }
        requires lists { HasLists self.now.dag panorama.now endorsed.now }
        requires room { count_of self.now.dag ≤ marks.old }
        ensures none { (u : Node) → HasSight self.now.dag panorama.now endorsed.now u → (IsNone result ↔ HasNoNaiveFork (graph self.now.dag) u) }
        ensures least { (u : Node) → HasSight self.now.dag panorama.now endorsed.now u → IfSome result (λ fork. IsLeastNaiveFork self.now.dag u fork) }
        ensures room { marks.new ≡ marks.old }
    {
        self.naivety
            .check_over(&self.dag, panorama, endorsed, marks)
    }

    /// What is noted of the settled units to find naive forks.
    pub fn naivety(&self) -> &Naivety
        ensures noted { IsNoted result.now self.now.dag }
        ensures all { result.now.count ≡ count_of self.now.dag }
    {
        &self.naivety
    }

    /// The leaders of its rounds.
    pub fn leaders(&self) -> &LeaderTable
        ensures leaders { result.now ≡ self.now.config }
    {
        &self.leaders
    }

    /// The fork choice of its panorama. It is kept until a slot of the panorama changes.
    pub fn fork(&mut self) -> Option<UnitNo>
        ensures fork { option_map (λ (no : Number). node_at self.old.dag no.0) result ≡ fork_of self.old.config.weights (graph self.old.dag) (observations self.old.dag self.old.panorama) }
        ensures known { IfSome result (λ no. no.0 < count_of self.old.dag) }
        ensures is_fork { IsFork self.old.dag (observations self.old.dag self.old.panorama) result }
        ensures unchanged { self.new ≡ self.old }
    {
        self.own_fork.fork_choice(
            &mut self.forks,
            &self.dag,
            &self.config.weights,
            &self.panorama,
        )
    }

    /// Makes room for at least `count` more units. The room never shrinks, and of the state nothing else
    /// changes.
    pub fn reserve(&mut self, count: u32) -> Result<(), OutOfMemory>
        requires { count_of self.old.dag + count + 1 < 2 ^ 32 }
        ensures room { OnOk result (count ≤ self.new.spare) }
        ensures kept { self.old.spare ≤ self.new.spare }
        ensures unchanged { self.new ≡ record self.old { spare = self.new.spare; dag = record self.old.dag { spare = self.new.dag.spare } } }
    {
        if self.spare < count {
            let ahead = with_more(self.dag.count(), count);
            return self.grow(ahead);
        }
        Ok(())
    }

    /// Makes room for so many more units, for which there was less or as much.
    fn grow(&mut self, count: u32) -> Result<(), OutOfMemory>
        requires more { self.old.spare ≤ count }
        requires few { count_of self.old.dag + count + 1 < 2 ^ 32 }
        ensures room { OnOk result (count ≤ self.new.spare) }
        ensures kept { self.old.spare ≤ self.new.spare }
        ensures unchanged { self.new ≡ record self.old { spare = self.new.spare; dag = record self.old.dag { spare = self.new.dag.spare } } }
    {
        let total = self.dag.count() + count;
        self.marks.reserve(total)?;
        self.naivety.reserve(count)?;
        let reserved = self.dag.reserve(count);
        self.dag.recall_graph();
        reserved?;
        self.spare = count;
        Ok(())
    }

    /// Whether a unit that keeps the rules of the unit alone breaks none over the units below it. If not,
    /// the first that it breaks is answered.
    pub fn judge(&mut self, prepared: &Prepared) -> Result<(), Rule>
        requires alone { KeepsLocalRules self.old.config prepared.now.signed.unit }
        requires resolved { IsResolved self.old.dag prepared.now }
        ensures kept { IfOk result (λ _. state_rule self.old.config (graph self.old.dag) (node_prepared prepared.now) ≡ None) }
        ensures broken { IfErr result (λ rule. state_rule self.old.config (graph self.old.dag) (node_prepared prepared.now) ≡ Some rule) }
        ensures unchanged { self.new ≡ self.old }
    {
        let judge = Judge {
            config: &self.config,
            leaders: &self.leaders,
            dag: &self.dag,
            naivety: &self.naivety,
        };
        let fork = judge.judge(prepared, &mut self.forks, &mut self.marks)?;
        self.judged_fork
            .keep(prepared.panorama(), fork, self.dag.validators());
        Ok(())
    }

    /// Puts a unit last that keeps all rules, with its fork choice. The slot of its creator moves to it
    /// where the unit has seen what the state has, else the creator has equivocated.
    pub fn admit(&mut self, prepared: Prepared) -> UnitNo
        requires room { 1 ≤ self.old.spare }
        requires fresh { IsNew self.old.dag prepared.digest }
        requires resolved { IsResolved self.old.dag prepared }
        requires alone { KeepsLocalRules self.old.config prepared.signed.unit }
        requires rules { state_rule self.old.config (graph self.old.dag) (node_prepared prepared) ≡ None }
        // Whom it marks is faulty.
        requires met { MarksAreMet self.old.marked (graph self.old.dag) prepared.signed.unit.panorama }
        ensures last { result.0 ≡ count_of self.old.dag }
        ensures admitted { IsAdmitted self.old.config.weights self.old.dag prepared self.new.dag }
        ensures room { self.new.spare + 1 ≡ self.old.spare }

        // The panorama is that of the definitions for the graph that it is now. All else stays.
        ensures panorama { IsPanorama self.new.dag self.new.panorama }
        ensures observed { observations self.new.dag self.new.panorama ≡ observed_in self.old.config self.old.marked (graph self.new.dag) }
        ensures rest { self.new ≡ record self.old { spare = self.new.spare; dag = self.new.dag; panorama = self.new.panorama } }

        // Its creator isn't faulty exactly where the unit has seen of itself what the state had.
        ensures seen { (is_faulty_in self.old.marked (graph self.new.dag) prepared.signed.unit.creator ≡ false) ↔ (view_at prepared.panorama prepared.signed.unit.creator ≡ view_at self.old.panorama prepared.signed.unit.creator) }
    {
        self.dag.recall_graph();
        let creator = prepared.signed().unit.creator;
        let seen = prepared.panorama().get(creator);
        let fork = self.judged_fork.fork_choice(
            &mut self.forks,
            &self.dag,
            &self.config.weights,
            prepared.panorama(),
        );
        let no = self.dag.admit(prepared, fork);
        self.naivety.note(&self.dag, no);
        self.spare -= 1;
        let view = next_view(self.panorama.get(creator), seen, no);
        self.panorama.set(creator, view);
        no
    }

    /// There is evidence against this validator from now on.
    pub fn mark(&mut self, validator: u32)
        requires { validator < length self.old.config.weights }
        ensures panorama { IsPanorama self.new.dag self.new.panorama }
        ensures observed { observations self.new.dag self.new.panorama ≡ observed_in self.new.config self.new.marked (graph self.new.dag) }
        ensures told { is_marked self.new.marked validator ≡ true }
        ensures marked { self.new ≡ record self.old { marked = slice_set self.old.marked validator true; panorama = slice_set self.old.panorama validator view.Faulty } }
    {
        self.marked[validator as usize] = true;
        self.panorama.set(validator, View::Faulty);
    }

    /// Adds a validator's endorsement of the unit of this digest. It is a repeat exactly where the pair
    /// is known. Where there is no memory, nothing has changed.
    pub fn endorse(&mut self, unit: &Digest, endorser: u32) -> Result<Added, OutOfMemory>
        requires { endorser < length self.old.config.weights }
        ensures added { IfOk result (λ added. added ≡ added_of self.old.pairs unit.now endorser) }
        ensures told { OnOk result (self.new ≡ record self.old { pairs = with_pair self.old.pairs unit.now endorser }) }
        ensures repeat { IfOk result (λ added. added ≡ Added.Repeat → self.new ≡ self.old) }
        ensures unchanged { OnErr result (self.new ≡ self.old) }
    {
        self.endorsements.add(unit, endorser)
    }
}

/// The state of a node with a lawful configuration, before anything came.
fn begin(alloc: Global, config: Config) -> Result<State, OutOfMemory>
    requires { config_fault config ≡ None }
    ensures config { IfOk result (λ state. state.config ≡ config) }
    ensures validators { IfOk result (λ state. state.dag.validators ≡ length config.weights) }
    ensures empty { IfOk result (λ state. state.dag.units ≡ []) }
    ensures unmarked { IfOk result (λ state. state.marked ≡ replicate (length config.weights) false) }
    ensures untold { IfOk result (λ state. state.pairs ≡ []) }
    ensures unseen { IfOk result (λ state. state.panorama ≡ replicate (length config.weights) view.Absent) }
{
    let validators = config.weights.len() as u32;
    let (dag, panorama, marked) = nothing_seen(alloc, validators)?;
    let (leaders, naivety, endorsements) = nothing_told(alloc, &config, validators)?;
    let (own_fork, judged_fork) = nothing_kept(alloc, validators)?;
    let forks = room_for_forks(alloc, validators)?;
    Ok(State {
        leaders,
        spare: 0,
        dag,
        naivety,
        forks,
        marks: Marks::new(alloc),
        marked,
        endorsements,
        panorama,
        own_fork,
        judged_fork,
        config,
    })
}

/// No unit, nothing observed and nobody marked.
fn nothing_seen(alloc: Global, validators: u32) -> Result<(Dag, Panorama, Vec<bool>), OutOfMemory>
    ensures graph { IfOk result (λ seen. IsGraph seen.0) }
    ensures empty { IfOk result (λ seen. seen.0.units ≡ []) }
    ensures validators { IfOk result (λ seen. seen.0.validators ≡ validators) }
    ensures panorama { IfOk result (λ seen. seen.1 ≡ replicate validators view.Absent) }
    ensures marked { IfOk result (λ seen. seen.2.items ≡ replicate validators false) }
{
    let marked = unmarked(alloc, validators)?;
    let panorama = Panorama::new(alloc, validators)?;
    Ok((empty_dag(alloc, validators)?, panorama, marked))
}

/// The leaders, nothing noted and no endorsements.
fn nothing_told(
    alloc: Global,
    config: &Config,
    validators: u32,
) -> Result<(LeaderTable, Naivety, Endorsements), OutOfMemory>
    requires { config_fault config.now ≡ None }
    ensures leaders { IfOk result (λ told. told.0 ≡ config.now) }
    ensures none { IfOk result (λ told. told.1.count ≡ 0) }
    ensures noted { IfOk result (λ told. (dag : UnitGraph) → dag.validators ≡ validators → IsNoted told.1 dag) }
    ensures endorsements { IfOk result (λ told. told.2 ≡ record { weights = config.now.weights; pairs = [] }) }
{
    let leaders = LeaderTable::new(alloc, config)?;
    let naivety = Naivety::new(alloc, validators)?;
    Ok((leaders, naivety, Endorsements::new(alloc, config)?))
}

/// No fork choice, neither of the state nor of a unit.
fn nothing_kept(
    alloc: Global,
    validators: u32,
) -> Result<(CachedForkChoice, CachedForkChoice), OutOfMemory>
    ensures own { IfOk result (λ kept. (weights : List ℕ) (dag : UnitGraph) → dag.validators ≡ validators → IsKept weights dag kept.0) }
    ensures judged { IfOk result (λ kept. (weights : List ℕ) (dag : UnitGraph) → dag.validators ≡ validators → IsKept weights dag kept.1) }
{
    let own = CachedForkChoice::new(alloc, validators)?;
    Ok((own, CachedForkChoice::new(alloc, validators)?))
}

/// Scratch for the fork choices of so many validators. It never grows.
fn room_for_forks(alloc: Global, validators: u32) -> Result<Forks, OutOfMemory>
    ensures { IfOk result (λ forks. validators ≤ forks) }
{
    let mut forks = Forks::new(alloc);
    forks.reserve(validators)?;
    Ok(forks)
}

/// A graph without units.
fn empty_dag(alloc: Global, validators: u32) -> Result<Dag, OutOfMemory>
    ensures graph { IfOk result (λ dag. IsGraph dag) }
    ensures empty { IfOk result (λ dag. dag.units ≡ []) }
    ensures validators { IfOk result (λ dag. dag.validators ≡ validators) }
{
    let dag = Dag::new(alloc, validators)?;
    dag.recall_graph();
    Ok(dag)
}

/// No validator has a mark.
fn unmarked(alloc: Global, validators: u32) -> Result<Vec<bool>, OutOfMemory>
    ensures { IfOk result (λ marked. marked.items ≡ replicate validators false) }
{
    let mut marked = Vec::new(alloc);
    marked.resize(validators as usize, false)?;
    Ok(marked)
}

/// So many units more as are wanted, or some more at once, so that not each unit asks for its room.
fn with_more(count: u32, wanted: u32) -> u32
    requires { count + wanted + 1 < 2 ^ 32 }
    ensures least { wanted ≤ result }
    ensures most { count + result + 1 < 2 ^ 32 }
{
    let most = u32::MAX - 1 - count;
    wanted.max(UNITS_AHEAD.min(most))
}

/// What is observed of a creator after a unit of it that has seen this of itself.
fn next_view(known: View, seen: View, no: UnitNo) -> View
    ensures same { seen ≡ known → result ≡ view.Correct no }
    ensures other { (seen ≡ known → ⊥) → result ≡ view.Faulty }
{
    if seen == known {
        View::Correct(no)
    } else {
        View::Faulty
    }
}
