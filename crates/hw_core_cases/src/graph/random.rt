//! The fork choice beside the plain one, over random panoramas of a random graph.

ghost use Rattle.std.specs.Prelude.{◌≡◌, ◌<◌, ◌≤◌, length, IfSome};
ghost use Rattle.hw_dag.specs.Dag.{count_of, IsPanorama};

use crate::graph::panoramas::{fork_choice, is_panorama};
use crate::graph::plain::Plain;
use crate::graph::settling::{Outcome, settle};
use crate::graph::units::{INSTANCE, next_number};
use hw_admit::State;
use hw_case_words::{Answer, digest_with, number, panorama_of, plain_unit, small};
use hw_dag::{Dag, Panorama, Unit, UnitNo, View};
use hw_types::{Bytes, Config, DigestList, IndexList, Leaders, Obs, ObsList, SignedUnit};
use std::alloc::Global;

/// Ties are wanted, so the weights are small.
const WEIGHTS: [u64; 5] = [3, 2, 2, 1, 1];

/// Random numbers, the same in each run.
#[derive(Drop)]
struct Lots {
    state: u64,
}

impl Lots {
    /// A number below the bound.
    fn below(&mut self, bound: u32) -> u32
        requires { 0 < bound }
        ensures { result < bound }
    {
        self.state = self
            .state
            .wrapping_mul(6_364_136_223_846_793_005)
            .wrapping_add(1_442_695_040_888_963_407);
        (self.state >> 33) as u32 % bound
    }
}

/// How many of the panoramas have the fork choice of the plain walk, and whether it changes often.
pub fn random(answer: &mut Answer, held: &mut Option<State>, words: &[&str]) {
    let [units, panoramas, seed] = words else {
        return answer.refuse();
    };
    let mut lots = Lots {
        state: number(seed),
    };
    *held = grown(answer, &mut lots, small(units));
    match held {
        Some(state) => compared(answer, state, &mut lots, small(panoramas)),
        None => answer.refuse(),
    }
}

/// A state with this many random units. None where one wasn't admitted.
fn grown(answer: &mut Answer, lots: &mut Lots, units: u32) -> Option<State> {
    let config = config_of(answer, lots, units);
    let mut state = State::new(answer.alloc(), config).ok()?;
    if grow(answer, &mut state, lots, units) {
        Some(state)
    } else {
        None
    }
}

/// Each unit has a round of its own, whose leader is drawn.
fn config_of(answer: &mut Answer, lots: &mut Lots, units: u32) -> Config {
    Config {
        weights: answer.list(&WEIGHTS),
        ftt: 0,
        levels: 1,
        min_exponent: 4,
        max_exponent: 8,
        leaders: Leaders::Table(leaders_of(answer, lots, units)),
        max_records: 100_000,
        max_parked: 10,
        end: None,
    }
}

fn leaders_of(answer: &mut Answer, lots: &mut Lots, units: u32) -> IndexList {
    let mut leaders = IndexList::new(answer.alloc());
    for _ in 0..units {
        answer.push(&mut leaders, lots.below(5));
    }
    leaders
}

/// Admits this many units, and answers whether all were admitted.
fn grow(answer: &mut Answer, state: &mut State, lots: &mut Lots, units: u32) -> bool {
    for number in 0..units {
        let unit = next_unit(answer, state, lots, number);
        match settle(state, digest_with(0, 0, number), unit) {
            Some(Outcome::Admitted(_)) => {}
            _ => return false,
        }
    }
    true
}

/// A unit of the leader of its round, which has seen one of the last ones and what that has seen. Half of them are
/// blocks.
fn next_unit(answer: &mut Answer, state: &State, lots: &mut Lots, number: u32) -> SignedUnit {
    let creator = leader_of(state.config(), number);
    let panorama = seen_by(answer, state.dag(), lots, number);
    let seq = next_number(state.dag(), own_observation(&panorama, creator));
    let value = value_of(answer.alloc(), number, lots);
    let endorsed = DigestList::new(answer.alloc());
    plain_unit(
        INSTANCE,
        creator,
        seq,
        number as u64 * 16,
        panorama,
        value,
        endorsed,
    )
}

fn leader_of(config: &Config, number: u32) -> u32 {
    match &config.leaders {
        Leaders::Table(table) => match table.as_slice().get(number as usize) {
            Some(leader) => *leader,
            None => 0,
        },
        Leaders::Drawn(_) => 0,
    }
}

fn value_of(alloc: Global, number: u32, lots: &mut Lots) -> Option<Bytes> {
    if number == 0 || lots.below(2) == 0 {
        Some(Bytes::new(alloc))
    } else {
        None
    }
}

fn own_observation(panorama: &ObsList, creator: u32) -> Obs {
    match panorama.as_slice().get(creator as usize) {
        Some(own) => *own,
        None => Obs::Absent,
    }
}

/// What one of the last units has seen, and that unit.
fn seen_by(answer: &mut Answer, dag: &Dag, lots: &mut Lots, number: u32) -> ObsList {
    if number == 0 || dag.count() < number {
        return panorama_of(answer, 5, Obs::Absent);
    }
    let no = UnitNo(number - 1 - lots.below(number.min(8)));
    seen_with(answer, dag.unit(no))
}

/// What the unit has seen, and itself.
fn seen_with(answer: &mut Answer, unit: &Unit) -> ObsList {
    let creator = unit.signed().unit.creator as usize;
    let mut seen = answer
        .list(unit.signed().unit.panorama.as_slice())
        .into_vec();
    if let Some(own) = seen.get_mut(creator) {
        *own = Obs::Correct(*unit.digest());
    }
    ObsList::from_vec(seen)
}

/// Compares the fork choices of this many panoramas.
fn compared(answer: &mut Answer, state: &State, lots: &mut Lots, panoramas: u32) {
    let mut same: u32 = 0;
    let mut changes: u32 = 0;
    let mut last = None;
    for _ in 0..panoramas {
        let Some((fork, is_same)) = one_choice(answer.alloc(), state, lots) else {
            return answer.refuse();
        };
        same = same.saturating_add(u32::from(is_same));
        changes = changes.saturating_add(u32::from(fork != last));
        last = fork;
    }
    let often = panoramas / 4 < changes;
    answer.number(same as u64);
    answer.labelled(" of ", panoramas as u64);
    answer.put(" are the same, changes often ");
    answer.truth(often);
}

/// The fork choice of a random panorama, and whether the plain one is the same.
fn one_choice(alloc: Global, state: &State, lots: &mut Lots) -> Option<(Option<UnitNo>, bool)> {
    let panorama = panorama(alloc, state.dag(), lots)?;
    let fork = fork_choice(alloc, state, &panorama)?;
    let plain = plain_choice(state, &panorama);
    Some((fork, plain == fork))
}

/// The fork choice by scores that are summed anew.
fn plain_choice(state: &State, panorama: &Panorama) -> Option<UnitNo>
    requires { IsPanorama state.now.dag panorama.now }
{
    let plain = Plain {
        dag: state.dag(),
        weights: state.config().weights.as_slice(),
        panorama,
    };
    plain.choice()
}

/// A panorama of some units, in a part of the cases with a fault.
fn panorama(alloc: Global, dag: &Dag, lots: &mut Lots) -> Option<Panorama>
    ensures { IfSome result (λ panorama. IsPanorama dag.now panorama) }
{
    let mut panorama = Panorama::new(alloc, dag.validators()).ok()?;
    for _ in 0..10 {
        put_one(dag, &mut panorama, lots);
    }
    put_fault(dag, &mut panorama, lots);
    if is_panorama(dag, &panorama) {
        Some(panorama)
    } else {
        None
    }
}

/// Puts a unit into its creator's slot.
fn put_one(dag: &Dag, panorama: &mut Panorama, lots: &mut Lots)
    requires { length panorama.old ≡ dag.now.validators }
    ensures { length panorama.new ≡ dag.now.validators }
{
    if dag.count() == 0 {
        return;
    }
    let no = UnitNo(lots.below(dag.count()));
    let creator = dag.unit(no).signed().unit.creator;
    if creator < dag.validators() {
        panorama.set(creator, View::Correct(no));
    }
}

/// Puts a fault into a slot, in one of three cases.
fn put_fault(dag: &Dag, panorama: &mut Panorama, lots: &mut Lots)
    requires { length panorama.old ≡ dag.now.validators }
    ensures { length panorama.new ≡ dag.now.validators }
{
    if 0 < dag.validators() && lots.below(3) == 0 {
        panorama.set(lots.below(dag.validators()), View::Faulty);
    }
}
