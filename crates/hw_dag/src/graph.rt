//! The graph and what comes into it.

ghost use Rattle.std.specs.Prelude.{◌≡◌, ◌≢◌, ℕ, ◌+◌, ◌-◌, ◌^◌, ◌<◌, ◌≤◌, ◌↔◌, [], ◌∷◌, ◌++◌, false, length, Some, IsTrue, IsNone, IfSome, IfNone, IfOk, IfErr, OnOk, OnErr};
ghost use Rattle.hw_types.specs.declared.unit.Obs.TheVariants as Obs;
ghost use Rattle.hw_dag.specs.declared.numbers.View.TheVariants as View;
ghost use Rattle.hw_dag.specs.Dag.{unit_at, count_of, graph, observations};
ghost use Rattle.hw_dag.specs.Admission.{IsFor, IsNew, IsResolved, IsFork, IsGraph, KeepsRules, AllKnown, node_prepared, height_above, settled_from, with_unit};
ghost use Rattle.hw_dag.specs.Lanes.{AreOnOneLane};
ghost use Rattle.hw_dag.specs.Tables.{StandsFor, IsUnknown, IsKnown, IsLatestAfter};

use crate::numbers::{Panorama, Slot, UnitNo, View};
use crate::preparing::{NoRoom, Prepared};
use crate::settled::Unit;
use crate::skips::SkipTable;
use hw_names::NameTable;
use hw_types::{Digest, Obs, OutOfMemory, SignedUnit};
use std::alloc::Global;
use std::marker::Model;

mod lists;
mod lookups;

/// The settled units by number. It only grows, and no unit in it ever changes.
#[derive(Drop)]
pub struct Dag {
    validators: u32,
    spare: u32,
    units: Vec<Unit>,
    names: NameTable,
    lanes: SkipTable,
    chains: SkipTable,
    /// Of each validator the unit that all its units lead up to, Faulty where they may be on two lanes.
    latest: Panorama,
    /// Whether one of those may be Faulty.
    forked: bool,
}

impl Model for Dag {
    ghost use Rattle.std.specs.Prelude.{◌≡◌, ◌-◌, false, vec_len, vec_capacity};
    ghost use Rattle.hw_dag.specs.Dag.{UnitGraph};

    ghost Value = { UnitGraph };

    ghost view = { λ d. record {
      validators = d.validators;
      spare = d.spare;
      units = d.units.items;
    } };

    ghost use Rattle.hw_dag.specs.Tables.{IsKept, HasSpare, AreLatest, NoneFaulty};

    ghost invariant = { λ d. IsKept (record { validators = d.validators; spare = d.spare; units = d.units.items }) d.names.names d.lanes.backs d.chains.backs
        × HasSpare d.spare (vec_capacity d.units - vec_len d.units) d.names.room d.lanes.spare d.chains.spare
        × AreLatest (record { validators = d.validators; spare = d.spare; units = d.units.items }) d.latest
        × (d.forked ≡ false → NoneFaulty d.latest) };
}

impl Dag {
    /// A graph without units, for so many validators.
    pub fn new(alloc: Global, validators: u32) -> Result<Dag, OutOfMemory>
        ensures empty { IfOk result (λ dag. dag.units ≡ []) }
        ensures validators { IfOk result (λ dag. dag.validators ≡ validators) }
    {
        Ok(Dag {
            validators,
            spare: 0,
            units: Vec::new(alloc),
            names: NameTable::new(alloc),
            lanes: SkipTable::new(alloc),
            chains: SkipTable::new(alloc),
            latest: Panorama::new(alloc, validators)?,
            forked: false,
        })
    }

    /// Takes room for what the unit observes in numbers. The digest is its name.
    pub fn prepare(&self, unit: SignedUnit, digest: Digest) -> Result<Prepared, NoRoom>
        requires { IsFor self.now.validators unit }
        ensures signed { IfOk result (λ prepared. prepared.signed ≡ unit) }
        ensures digest { IfOk result (λ prepared. prepared.digest ≡ digest) }
        ensures returned { IfErr result (λ no_room. no_room.unit ≡ unit) }
    {
        Prepared::new(*self.units.allocator(), self.validators, unit, digest)
    }

    /// Makes room for at least `count` more units, with their names and pointers. What is in the graph stays, and the
    /// room never shrinks.
    pub fn reserve(&mut self, count: u32) -> Result<(), OutOfMemory>
        requires { count_of self.old + count + 1 < 2 ^ 32 }
        ensures room { OnOk result (count ≤ self.new.spare) }
        ensures kept { self.old.spare ≤ self.new.spare }
        ensures units { self.new.units ≡ self.old.units }
        ensures validators { self.new.validators ≡ self.old.validators }
        ensures graph { IsGraph self.new }
    {
        if self.spare < count {
            self.units.reserve(count as usize)?;
            self.names.reserve(count as usize)?;
            self.lanes.reserve(count as usize)?;
            self.chains.reserve(count as usize)?;
            self.spare = count;
        }
        Ok(())
    }

    /// Whether each unit that it observes is settled. Then its panorama is there in numbers.
    pub fn resolve(&self, prepared: &mut Prepared) -> bool
        ensures all { IsTrue result ↔ AllKnown (graph self.now) prepared.old.signed.unit.panorama }
        ensures resolved { IsTrue result → IsResolved self.now prepared.new }
        ensures signed { prepared.new.signed ≡ prepared.old.signed }
        ensures digest { prepared.new.digest ≡ prepared.old.digest }
    {
        prepared.resolve_in(self)
    }

    /// Puts the unit last. `fork` is the fork choice of its panorama: its parent where it is a block,
    /// else its vote.
    pub fn admit(&mut self, prepared: Prepared, fork: Option<UnitNo>) -> UnitNo
        requires room { 1 ≤ self.old.spare }
        requires prepared_for { IsFor self.old.validators prepared.signed }
        requires resolved { IsResolved self.old prepared }
        requires rules { KeepsRules (graph self.old) (node_prepared prepared) }
        requires fresh { IsNew self.old prepared.digest }
        requires fork { IsFork self.old prepared.signed.unit.panorama fork }
        ensures last { result.0 ≡ count_of self.old }
        ensures admitted { self.new ≡ with_unit self.old (settled_from self.old prepared fork) }
        ensures graph { IsGraph self.new }
    {
        let no = UnitNo(self.count());
        let height = self.height_above(fork);
        self.keep(prepared.settle(no, fork, height));
        no
    }

    /// How many units there are. What is said of each graph holds of this one.
    pub fn count(&self) -> u32
        ensures count { result ≡ count_of self.now }
        ensures graph { IsGraph self.now }
    {
        self.units.len() as u32
    }

    /// Recalls what is said of each graph, that it holds of this one. It does nothing.
    pub fn recall_graph(&self)
        ensures { IsGraph self.now }
    {
        let _ = &self.units;
    }

    /// How many validators there are.
    pub fn validators(&self) -> u32
        ensures validators { result ≡ self.now.validators }
        ensures graph { IsGraph self.now }
    {
        self.validators
    }

    /// Whether some validator's units may be on two lanes. Where they can't, a unit is on the lane of another one of
    /// its creator exactly where its number is no greater.
    pub fn is_forked(&self) -> bool
        ensures { result ≡ false → AreOnOneLane self.now }
    {
        self.forked
    }

    /// The number of the unit of this name, or None where there is no such unit.
    pub fn find(&self, digest: &Digest) -> Option<UnitNo>
        ensures found { IfSome result (λ no. (no.0 < count_of self.now) × ((unit_at self.now no.0).digest ≡ digest.now)) }
        ensures none { IsNone result ↔ IsNew self.now digest.now }
    {
        let place = self.names.find(digest)?;
        Some(UnitNo(place as u32))
    }

    /// Whether there is a unit of this name, which a slot of a panorama names. Mostly it is the latest unit of that
    /// validator, or the one before it; only another name is looked up.
    pub fn has_near(&self, slot: usize, name: &Digest) -> bool
        ensures { (result ≡ false) ↔ IsNew self.now name.now }
    {
        self.find_near(&[], slot, name).is_some()
    }

    /// The unit of a number.
    pub fn unit(&self, no: UnitNo) -> &Unit
        requires { no.0 < count_of self.now }
        ensures { result.now ≡ unit_at self.now no.0 }
    {
        &self.units[no.0 as usize]
    }

    /// What an observation is in numbers, where its unit is there. `seen` is what another unit observes.
    fn view_of(&self, seen: &[Slot], slot: usize, obs: &Obs) -> Option<View>
        ensures known { IfSome result (StandsFor self.now obs.now) }
        ensures unknown { IfNone result (IsUnknown self.now obs.now) }
    {
        match obs {
            Obs::Absent => Some(View::Absent),
            Obs::Correct(digest) => self.find_near(seen, slot, digest),
            Obs::Faulty => Some(View::Faulty),
        }
    }

    /// The unit of this name as a slot. Most units observe what the one before them does, or the latest
    /// unit of a validator or the one before that. Only a name that is none of these is looked up.
    fn find_near(&self, seen: &[Slot], slot: usize, name: &Digest) -> Option<View>
        ensures known { IfSome result (StandsFor self.now (Obs.Correct name.now)) }
        ensures unknown { IfNone result (IsNew self.now name.now) }
    {
        let hint = hint_at(seen, slot);
        if self.is_named(hint, name) {
            return Some(hint);
        }
        let latest = hint_at(self.latest.views(), slot);
        if self.is_named(latest, name) {
            return Some(latest);
        }
        let before = self.hint_before(latest, slot);
        if self.is_named(before, name) {
            return Some(before);
        }
        self.find(name).map(View::Correct)
    }

    /// Whether the slot names the unit of this name.
    fn is_named(&self, hint: View, name: &Digest) -> bool
        ensures { IsTrue result → StandsFor self.now (Obs.Correct name.now) hint }
    {
        match hint {
            View::Correct(no) => {
                (no.0 as usize) < self.units.len() && *self.units[no.0 as usize].digest() == *name
            }
            View::Absent | View::Faulty => false,
        }
    }

    /// What the unit in a slot observes in that slot.
    fn hint_before(&self, view: View, slot: usize) -> View {
        match view {
            View::Correct(no) if (no.0 as usize) < self.units.len() => {
                hint_at(self.units[no.0 as usize].panorama().views(), slot)
            }
            _ => View::Absent,
        }
    }

    /// What the newest unit observes.
    fn newest_views(&self) -> &[Slot] {
        match self.units.last() {
            Some(unit) => unit.panorama().views(),
            None => &[],
        }
    }

    /// Puts the observations in numbers, and says whether all their units are there.
    pub(crate) fn resolve_views(&self, observed: &[Obs], panorama: &mut Panorama) -> bool
        requires bounded { length observed.now < 2 ^ 32 }
        requires slots { length panorama.old ≡ length observed.now }
        ensures slots { length panorama.new ≡ length panorama.old }
        ensures all { IsTrue result ↔ AllKnown (graph self.now) observed.now }
        ensures observes { IsTrue result → observations self.now panorama.new ≡ observed.now }
        ensures known { IsTrue result → IsKnown self.now panorama.new }
    {
        let _ = &self.names;
        let seen = self.newest_views();
        for (slot, obs) in observed.iter().enumerate() {
            let Some(view) = self.view_of(seen, slot, obs) else {
                return false;
            };
            panorama.set(slot as u32, view);
        }
        true
    }

    /// One more than the height of the parent, or 0 where there is none.
    fn height_above(&self, parent: Option<UnitNo>) -> u64
        requires { IfSome parent (λ no. no.0 < count_of self.now) }
        ensures { result ≡ height_above self.now parent }
    {
        match parent {
            Some(parent) => self.units[parent.0 as usize].height().unwrap_or(0) + 1,
            None => 0,
        }
    }

    /// Puts a settled unit last, with its name and its pointers.
    fn keep(&mut self, unit: Unit)
        requires room { 1 ≤ self.old.spare }
        requires fresh { IsNew self.old unit.digest }
        requires graph { IsGraph (with_unit self.old unit) }
        ensures { self.new ≡ with_unit self.old unit }
    {
        let before = unit.predecessor();
        let creator = unit.signed().unit.creator;
        let no = UnitNo(self.units.len() as u32);
        let next = latest_after(self.latest.get(creator), before, no);
        self.latest.set(creator, next);
        self.forked |= is_faulty(next);
        self.spare -= 1;
        self.lanes.push(before, unit.signed().unit.seq);
        self.chains.push(unit.parent(), unit.height().unwrap_or(0));
        self.names.push(*unit.digest());
        self.units.push_reserved(unit);
    }
}

// A slot that is compared before it is taken, so that any will do.
fn hint_at(slots: &[Slot], slot: usize) -> View {
    match slots.get(slot) {
        Some(slot) => slot.view(),
        None => View::Absent,
    }
}

// The latest unit of a creator after one more unit.
fn latest_after(latest: View, before: Option<UnitNo>, no: UnitNo) -> View
    ensures { IsLatestAfter latest before no result }
{
    match (latest, before) {
        (View::Absent, _) => View::Correct(no),
        (View::Correct(last), Some(before)) if last == before => View::Correct(no),
        _ => View::Faulty,
    }
}

// Whether the view is that of an equivocation.
fn is_faulty(view: View) -> bool
    ensures { result ≡ false → view ≢ View.Faulty }
{
    matches!(view, View::Faulty)
}
