//! When a validator has to act, and what for.

ghost use Rattle.std.specs.Prelude.{◌≡◌, ◌⊎◌, ℕ, ◌+◌, ◌^◌, ◌<◌, ◌≤◌, ◌&&◌, ◌||◌, not, nat_lt, ◌==◌, length, None, IfOk, IfSome, if◌then◌else◌};
ghost use Rattle.hw_types.specs.Graph.{is_faulty_mark};
ghost use Rattle.hw_types.specs.Limits.{config_fault};
ghost use Rattle.hw_dag.specs.Dag.{UnitGraph, count_of, obs_of, IsPanorama};
ghost use Rattle.hw_dag.specs.Lanes.{AreWeights};
ghost use Rattle.hw_dag.specs.declared.numbers.UnitNo.{UnitNo as Number};
ghost use Rattle.hw_dag.specs.declared.numbers.View.TheVariants as view;
ghost use Rattle.hw_validator.specs.Step.{is_for_nothing};
ghost use Rattle.hw_c.specs.Due.{IsDue, IsDueNow, IsMomentOf, IsViewOf, IsFirstLater, IsNext, IsFit, kind_of, why_by, why_over, is_held_by, stands_on, proposed_on, name_of};

use crate::calls::{digest_bytes, flag};
use crate::codes::Fault;
use crate::steps::{plan_number, planned_unit};
use hw_core::Core;
use hw_dag::{Dag, Panorama, UnitNo, View};
use hw_forks::Forks;
use hw_rounds::{LeaderTable, round_id, witness_time};
use hw_rules::wire_unit;
use hw_types::{
    Config, Digest, END_OF_TIME, OutOfMemory, Plan, PlanKind, Signature, SignedUnit, WireUnit,
};
use hw_validator::{is_earlier, may_not_follow};
use std::alloc::Global;

/// The kind where nothing is due.
const NOTHING: u32 = 3;

/// What a validator has to make at a moment, and until when that stays so.
#[repr(C)]
#[derive(Clone, Copy)]
pub struct Due {
    /// 0 a proposal, 1 a confirmation, 2 a witness, 3 nothing.
    pub kind: u32,
    /// Why nothing is due: 1 the validator is faulty, 2 its last unit allows none now, 3 the last block of the
    /// instance is reached, 4 the leader's block isn't there, 5 there is nothing to cite. 0 where something is due.
    pub why: u32,
    /// The validator that leads the round of the moment.
    pub leader: u32,
    /// 1 where a proposal is due and stands on a block; else 0.
    pub has_parent: u32,
    /// When the round begins, in milliseconds.
    pub round: u64,
    /// Until this moment nothing else becomes due while the journal stays as it is, in milliseconds. It is the end of
    /// this part of the round, or before that the first time of a settled unit where that may count.
    pub next: u64,
    /// The block that a proposal would stand on, where it has one; else zeros.
    pub parent: [u8; 32],
}

/// A moment in its round.
#[derive(Clone, Copy)]
struct Moment {
    at: u64,
    round: u64,
    witness: u64,
    leader: u32,
}

impl Moment {
    /// The moment in the round of the least exponent.
    fn of(config: &Config, leaders: &LeaderTable, now: u64) -> Moment
        requires exponent { config.now.min_exponent ≤ 40 }
        requires leaders { leaders.now ≡ config.now }
        requires now { now < 2 ^ 63 }
        ensures at { result.at ≡ now }
        ensures moment { IsMomentOf config.now result }
    {
        let round = round_id(now, config.min_exponent);
        Moment {
            at: now,
            round,
            witness: witness_time(round, config.min_exponent),
            leader: leaders.leader(round),
        }
    }

    /// Whether it is before the time of the round's witnesses.
    fn is_early(&self) -> bool
        ensures { result ≡ nat_lt self.now.at self.now.witness }
    {
        self.at < self.witness
    }

    /// When this part of the round began: the round, or the time of its witnesses.
    fn part(&self) -> u64
        ensures { result ≡ (if nat_lt self.now.at self.now.witness then self.now.round else self.now.witness) }
    {
        if self.at < self.witness {
            self.round
        } else {
            self.witness
        }
    }

    /// When this part of the round ends.
    fn end(&self, exponent: u8) -> u64
        requires exponent { exponent ≤ 40 }
        requires round { self.now.round < 2 ^ 63 }
        ensures { result ≡ (if nat_lt self.now.at self.now.witness then self.now.witness else self.now.round + 2 ^ exponent) }
    {
        if self.at < self.witness {
            self.witness
        } else {
            self.round + (1 << exponent)
        }
    }

    /// The time of a unit that is made now: a leader's before the time of the witnesses has that of the round.
    fn time(&self, leads: bool) -> u64
        ensures { result ≡ (if leads && nat_lt self.now.at self.now.witness then self.now.round else self.now.at) }
    {
        if leads && self.at < self.witness {
            self.round
        } else {
            self.at
        }
    }
}

/// Whether the validator's last unit is in this part of the round or later, or allows none to follow it at that time.
fn is_held(dag: &Dag, own: View, part: u64, time: u64, config: &Config) -> bool
    requires known { (number : Number) → own ≡ view.Correct number → number.0 < count_of dag.now }
    requires exponent { config.now.min_exponent ≤ 40 }
    ensures { result ≡ is_held_by dag.now config.now own part time }
{
    match own {
        View::Absent => false,
        View::Correct(last) => {
            !is_earlier(dag, own, part) || may_not_follow(dag, last, time, config.min_exponent)
        }
        View::Faulty => true,
    }
}

/// Whether it is the mark of a fault, in whichever graph.
fn is_faulty(own: View) -> bool
    ensures { (dag : UnitGraph) → result ≡ is_faulty_mark (obs_of dag own) }
{
    match own {
        View::Faulty => true,
        View::Absent | View::Correct(_) => false,
    }
}

/// Why nothing is due, by what is so.
fn why_by(is_faulty: bool, is_held: bool, is_early: bool, leads: bool) -> u32
    ensures { result ≡ why_by is_faulty is_held is_early leads }
{
    if is_faulty {
        1
    } else if is_held {
        2
    } else if !is_early {
        5
    } else if leads {
        3
    } else {
        4
    }
}

/// Why nothing is due.
fn why(dag: &Dag, config: &Config, observed: &Panorama, me: u32, moment: &Moment) -> u32
    requires exponent { config.now.min_exponent ≤ 40 }
    requires observed { IsPanorama dag.now observed.now }
    requires me { me < dag.now.validators }
    requires moment { IsMomentOf config.now moment.now }
    ensures { result ≡ why_over dag.now config.now observed.now me moment.now.at }
{
    let own = observed.get(me);
    let leads = me == moment.leader;
    let held = is_held(dag, own, moment.part(), moment.time(leads), config);
    why_by(is_faulty(own), held, moment.is_early(), leads)
}

/// Why nothing is due, where this kind is nothing; else 0.
fn why_of(
    kind: u32,
    dag: &Dag,
    config: &Config,
    observed: &Panorama,
    me: u32,
    moment: &Moment,
) -> u32
    requires exponent { config.now.min_exponent ≤ 40 }
    requires observed { IsPanorama dag.now observed.now }
    requires me { me < dag.now.validators }
    requires moment { IsMomentOf config.now moment.now }
    ensures { result ≡ (if kind == 3 then why_over dag.now config.now observed.now me moment.now.at else 0) }
{
    if kind == NOTHING {
        why(dag, config, observed, me, moment)
    } else {
        0
    }
}

/// The time, where it is later than the moment and before the first; else the first.
fn sooner(now: u64, time: u64, first: u64) -> u64
    ensures later { now < first → now < result }
    ensures within { result ≤ first }
    ensures free { now < time → result ≤ time }
    ensures is { (result ≡ first) ⊎ (result ≡ time) }
{
    if now < time && time < first {
        time
    } else {
        first
    }
}

/// The least time of a settled unit that is later than the moment, or the end where none is before that.
fn first_later(dag: &Dag, now: u64, end: u64) -> u64
    requires { now < end }
    ensures { IsFirstLater dag.now now end result }
{
    let mut first = end;
    for no in 0..dag.count() {
        first = sooner(now, wire_unit(dag, UnitNo(no)).time, first);
    }
    first
}

/// Whether a unit is for nothing, whatever it observes: the own last one is too late, or another leads and isn't seen
/// in the round.
fn is_for_nothing(dag: &Dag, config: &Config, observed: &Panorama, me: u32, moment: &Moment) -> bool
    requires observed { IsPanorama dag.now observed.now }
    requires leader { moment.now.leader < dag.now.validators }
    requires me { me < dag.now.validators }
    requires moment { IsMomentOf config.now moment.now }
    ensures { result ≡ is_for_nothing dag.now config.now observed.now me moment.now.at }
{
    let own = observed.get(me);
    if !moment.is_early() {
        return !is_earlier(dag, own, moment.witness);
    }
    let seen = observed.get(moment.leader);
    !is_earlier(dag, own, moment.round)
        || (me != moment.leader && is_earlier(dag, seen, moment.round))
}

/// Until when the step stays what it is, while the journal does. The settled units count only where a unit could be
/// for something: then what it may cite depends on their times.
fn next_moment(dag: &Dag, config: &Config, observed: &Panorama, me: u32, moment: &Moment) -> u64
    requires exponent { config.now.min_exponent ≤ 40 }
    requires now { moment.now.at < 2 ^ 63 }
    requires weights { AreWeights config.now.weights dag.now }
    requires observed { IsPanorama dag.now observed.now }
    requires me { me < dag.now.validators }
    requires moment { IsMomentOf config.now moment.now }
    ensures { IsNext dag.now config.now observed.now me moment.now.at result }
{
    let end = moment.end(config.min_exponent);
    if is_for_nothing(dag, config, observed, me, moment) {
        end
    } else {
        first_later(dag, moment.at, end)
    }
}

/// The block that this unit would stand on.
fn parent_of(
    alloc: Global,
    dag: &Dag,
    config: &Config,
    unit: WireUnit,
) -> Result<Option<Digest>, OutOfMemory>
    requires weights { AreWeights config.now.weights dag.now }
    requires fit { IsFit dag.now config.now unit }
    ensures { IfOk result (λ found. found ≡ name_of (stands_on dag.now config.now unit.panorama)) }
{
    let signed = SignedUnit {
        unit,
        signature: Signature([0; 32]),
    };
    let Ok(mut prepared) = dag.prepare(signed, Digest([0; 32])) else {
        return Err(OutOfMemory);
    };
    if !dag.resolve(&mut prepared) {
        return Ok(None);
    }
    let mut forks = Forks::new(alloc);
    forks.reserve(dag.validators())?;
    match forks.fork_choice(dag, &config.weights, prepared.panorama()) {
        Some(block) => Ok(Some(*dag.unit(block).digest())),
        None => Ok(None),
    }
}

/// The block that a proposal would stand on, where this is one.
fn parent_of_plan(
    alloc: Global,
    dag: &Dag,
    config: &Config,
    plan: Option<Plan>,
) -> Result<Option<Digest>, OutOfMemory>
    requires weights { AreWeights config.now.weights dag.now }
    requires fit { IfSome plan (λ p. IsFit dag.now config.now p.unit) }
    ensures { IfOk result (λ found. found ≡ name_of (proposed_on dag.now config.now plan)) }
{
    let Some(plan) = plan else {
        return Ok(None);
    };
    match plan.kind {
        PlanKind::Propose => parent_of(alloc, dag, config, plan.unit),
        PlanKind::Confirm | PlanKind::Witness => Ok(None),
    }
}

/// What the plan is for.
fn kind_of(plan: &Option<Plan>) -> u32
    ensures { result ≡ kind_of plan.now }
{
    match plan {
        Some(plan) => plan_number(plan.kind),
        None => NOTHING,
    }
}

/// What the validator has to make at this moment, and until when that stays so, by the node's graph and what it observes
/// there.
fn due_over(
    alloc: Global,
    core: &Core,
    dag: &Dag,
    config: &Config,
    observed: &Panorama,
    me: u32,
    moment: &Moment,
) -> Result<Due, OutOfMemory>
    requires seen { IsViewOf core.now dag.now config.now observed.now }
    requires weights { AreWeights config.now.weights dag.now }
    requires lawful { config_fault config.now ≡ None }
    requires me { me < dag.now.validators }
    requires now { moment.now.at < 2 ^ 63 }
    requires moment { IsMomentOf config.now moment.now }
    ensures { IfOk result (IsDueNow core.now me moment.now.at) }
{
    let plan = planned_unit(alloc, core, me, moment.at, &[])?;
    let kind = kind_of(&plan);
    let found = parent_of_plan(alloc, dag, config, plan)?;
    let parent = digest_bytes(found);
    Ok(Due {
        kind,
        why: why_of(kind, dag, config, observed, me, moment),
        leader: moment.leader,
        has_parent: flag(found.is_some()),
        round: moment.round,
        next: next_moment(dag, config, observed, me, moment),
        parent,
    })
}

/// What the validator has to make at this moment, and until when that stays so.
fn due_at(alloc: Global, core: &Core, me: u32, now: u64) -> Result<Due, OutOfMemory>
    requires me { me < length core.now.config.weights }
    requires now { now < 2 ^ 63 }
    ensures { IfOk result (IsDueNow core.now me now) }
{
    let state = core.state();
    let dag = state.dag();
    let config = state.config();
    let observed = state.panorama();
    let moment = Moment::of(config, state.leaders(), now);
    due_over(alloc, core, dag, config, observed, me, &moment)
}

/// What the validator has to make at this moment, and until when that stays so while the journal does. `OutOfRange`
/// where there is no such validator, or the moment is after the end of time.
pub fn due_now(alloc: Global, core: &Core, me: u32, now: u64) -> Result<Due, Fault>
    ensures { IsDue core.now me now result }
{
    if me as usize >= core.state().config().weights.len() {
        return Err(Fault::OutOfRange);
    }
    if now >= END_OF_TIME {
        return Err(Fault::OutOfRange);
    }
    Ok(due_at(alloc, core, me, now)?)
}
