//! A node's own units.

ghost use Rattle.std.specs.Prelude.{◌≡◌, ◌≤◌, ◌<◌, ◌^◌, length, Some, IsTrue, IfOk, IfSome};
ghost use Rattle.hw_types.specs.Spelling.{Fits, digest_of};
ghost use Rattle.hw_io.specs.Files.{Appended};
ghost use Rattle.hw_session.specs.Entry.{IsEntryOf};
ghost use Rattle.hw_session.specs.Outside.{reading};
ghost use Rattle.hw_session.specs.Restart.{KeepsLine};
ghost use Rattle.hw_session.specs.Make.{planned_by, own_unit, own_vertex, Makes, WritesOwn, IsMakeCounted, IsAStep, IsOfOwn, Refuses, PutsOwn, fault_of_append};

use crate::entry::{NewEntry, named_entry, put_entry};
use crate::fault::MakeFault;
use crate::node::Node;
use hw_codec::digest_of;
use hw_io::Files;
use hw_log::{Lasts, LogError};
use hw_types::{Cause, Digest, OutOfMemory, Plan, PlanKind, SignedUnit, Vertex};
use hw_validator::next_unit_of;
use std::alloc::Global;
use std::marker::Model;

/// A unit that was made: its plan, and its name, so that nobody works it out again. Contracts see the plan.
#[derive(Drop)]
pub struct MadeUnit {
    plan: Plan,
    name: Digest,
}

impl Model for MadeUnit {
    ghost use Rattle.std.specs.Prelude.{◌≡◌};
    ghost use Rattle.hw_types.specs.Spelling.{digest_of};
    ghost use Rattle.hw_types.specs.declared.answers.Plan.{Plan};

    ghost Value = { Plan };

    ghost view = { λ m. m.plan };

    ghost invariant = { λ m. m.name ≡ digest_of m.plan.unit };
}

impl MadeUnit {
    /// What the unit is for.
    pub fn kind(&self) -> PlanKind
        ensures { result ≡ self.now.kind }
    {
        self.plan.kind
    }

    /// The name of the unit.
    pub fn name(&self) -> Digest
        ensures { result ≡ digest_of self.now.unit }
    {
        self.name
    }

    /// The plan alone.
    pub fn into_plan(self) -> Plan
        ensures { result ≡ self }
    {
        self.plan
    }
}

impl Node {
    /// Makes the unit that this validator may make at this moment, in milliseconds, with this value of at
    /// most 4,096 bytes for a proposal. It is signed, delivered to the own node, and then its entry is
    /// appended to the log.
    ///
    /// There is none where the step has none, and where another unit of the journal has its digest.
    /// `RecordsFull` comes where the journal is full; it is counted. After `AppendFault` the unit is in the
    /// journal, and the log holds a first part of the entry. `OutOfMemory` comes before anything changed, or
    /// from the append. From the append, the same holds as after `AppendFault`.
    pub fn make<F: Files>(
        &mut self,
        files: &mut F,
        me: u32,
        now: u64,
        value: &[u8],
    ) -> Result<Option<Plan>, MakeFault>
        requires me { me < length self.old.core.config.weights }
        requires now { now < 2 ^ 63 }
        requires value { length value.now ≤ 4096 }
        ensures made { Makes self.old (planned_by self.old me now value.now) self.new result }
        ensures line { KeepsLine self.old me self.new result }
        ensures fits { IfOk result (λ made. IfSome made (λ plan. Fits plan.unit)) }
        ensures log { IsTrue F.tells → WritesOwn self.old (planned_by self.old me now value.now) self.new (F.held files.old) (F.held files.new) result }
        ensures cause { IsMakeCounted (F.append_faults files.old) (F.append_faults files.new) result }

        ensures begun { F.begun files.new ≡ F.begun files.old }
        ensures allowance { F.allowance files.new ≡ F.allowance files.old }
        ensures reads { F.read_faults files.new ≡ F.read_faults files.old }
    {
        Ok(plan_of(self.make_named(files, me, now, value)?))
    }

    /// Makes the unit as [`make`](Node::make) does, and answers it with its name.
    pub fn make_named<F: Files>(
        &mut self,
        files: &mut F,
        me: u32,
        now: u64,
        value: &[u8],
    ) -> Result<Option<MadeUnit>, MakeFault>
        requires me { me < length self.old.core.config.weights }
        requires now { now < 2 ^ 63 }
        requires value { length value.now ≤ 4096 }
        ensures made { Makes self.old (planned_by self.old me now value.now) self.new result }
        ensures line { KeepsLine self.old me self.new result }
        ensures fits { IfOk result (λ made. IfSome made (λ plan. Fits plan.unit)) }
        ensures log { IsTrue F.tells → WritesOwn self.old (planned_by self.old me now value.now) self.new (F.held files.old) (F.held files.new) result }
        ensures cause { IsMakeCounted (F.append_faults files.old) (F.append_faults files.new) result }

        ensures begun { F.begun files.new ≡ F.begun files.old }
        ensures allowance { F.allowance files.new ≡ F.allowance files.old }
        ensures reads { F.read_faults files.new ≡ F.read_faults files.old }
    {
        let core = &self.core;
        match next_unit_of(self.alloc, core.state(), core.instance(), me, now, value)? {
            Some(plan) => self.make_planned(files, plan),
            None => Ok(None),
        }
    }
}

/// The plan of a unit that was made, if one was.
fn plan_of(made: Option<MadeUnit>) -> Option<Plan>
    ensures { result ≡ made }
{
    Some(made?.into_plan())
}

/// The own unit of a plan, signed, under its name, with its entry in the log.
#[derive(Drop)]
struct OwnUnit {
    unit: SignedUnit,
    name: Digest,
    entry: NewEntry,
}

impl Node {
    /// Makes the unit of a plan: delivers it to the own node, and then appends its entry to the log.
    fn make_planned<F: Files>(
        &mut self,
        files: &mut F,
        plan: Plan,
    ) -> Result<Option<MadeUnit>, MakeFault>
        requires planned { IsAStep self.old plan }
        requires fits { Fits plan.unit }
        ensures made { Makes self.old (Some plan) self.new result }
        ensures log { IsTrue F.tells → WritesOwn self.old (Some plan) self.new (F.held files.old) (F.held files.new) result }
        ensures cause { IsMakeCounted (F.append_faults files.old) (F.append_faults files.new) result }

        ensures reading { reading (F.begun files.new) (F.allowance files.new) (F.read_faults files.new) ≡ reading (F.begun files.old) (F.allowance files.old) (F.read_faults files.old) }
    {
        let own = self.own_unit(&plan)?;
        let made = MadeUnit {
            plan,
            name: own.name,
        };
        match self.core.deliver_named(own.unit, own.name) {
            Ok(_receipt) => put_own(&mut self.lasts, files, self.log.as_str(), made, own.entry),
            Err(refused) => self.refuse_own(refused.cause),
        }
    }

    /// The unit of a plan, signed by its creator, its name and its entry.
    fn own_unit(&self, plan: &Plan) -> Result<OwnUnit, OutOfMemory>
        requires creator { plan.now.unit.creator < length self.now.core.config.weights }
        requires fits { Fits plan.now.unit }
        ensures unit { IfOk result (λ own. own.unit ≡ own_unit self.now plan.now) }
        ensures name { IfOk result (λ own. own.name ≡ digest_of plan.now.unit) }
        ensures entry { IfOk result (λ own. IsEntryOf self.now.lasts (own_vertex self.now plan.now) own.entry) }
    {
        let name = digest_of(self.alloc, &plan.unit)?;
        let signature = self.keys.sign_unit(plan.unit.creator, &name);
        let vertex = Vertex::Unit(SignedUnit {
            unit: plan.unit.copy()?,
            signature,
        });
        let entry = named_entry(self.alloc, &self.lasts, &vertex, name)?;
        match vertex {
            Vertex::Unit(unit) => Ok(OwnUnit { unit, name, entry }),
            // It was made as a unit.
            Vertex::Evidence(_evidence) => unreachable!(),
            Vertex::Endorsement(_endorsement) => unreachable!(),
        }
    }

    /// What the refusal of an own unit is answered. A full journal is counted.
    fn refuse_own(&mut self, cause: Cause) -> Result<Option<MadeUnit>, MakeFault>
        requires { IsOfOwn cause }
        ensures { Refuses self.old cause self.new result }
    {
        match cause {
            Cause::Clash { .. } => Ok(None),
            Cause::RecordsFull => {
                self.limited = self.limited.saturating_add(1);
                Err(MakeFault::RecordsFull)
            }
            Cause::OutOfMemory => Err(MakeFault::OutOfMemory),
            Cause::BadSignature | Cause::Local(_) | Cause::Pair(_) | Cause::ParkFull => {
                unreachable!()
            }
        }
    }
}

/// Appends the entry of a unit that was made to the log of this name, and notes it.
fn put_own<F: Files>(
    lasts: &mut Lasts,
    files: &mut F,
    log: &str,
    made: MadeUnit,
    entry: NewEntry,
) -> Result<Option<MadeUnit>, MakeFault>
    ensures put { PutsOwn lasts.old lasts.new entry made result }
    ensures log { IsTrue F.tells → Appended (F.held files.old) (F.held files.new) log.now entry.bytes result }
    ensures cause { IsMakeCounted (F.append_faults files.old) (F.append_faults files.new) result }

    ensures reading { reading (F.begun files.new) (F.allowance files.new) (F.read_faults files.new) ≡ reading (F.begun files.old) (F.allowance files.old) (F.read_faults files.old) }
{
    put_entry(lasts, files, log, entry)?;
    Ok(Some(made))
}

/// What a failed append is answered as.
impl From<LogError> for MakeFault {
    ghost from_gives = { λ error e. e ≡ fault_of_append error };

    fn from(error: LogError) -> MakeFault {
        match error {
            LogError::WriteFault => MakeFault::AppendFault,
            _ => MakeFault::OutOfMemory,
        }
    }
}
