//! A validator's own units in a run.

ghost use Rattle.std.specs.{Prelude.{◌≡◌, ◌≢◌, ◌≤◌, ◌<◌, ◌++◌, ◌^◌, ℕ, List, Option, length, IsTrue, IfOk, IfErr, OnOk, Some}, Prelude.{None}};
ghost use Rattle.hw_service.specs.Scene.{DoorSeen, sight_of, outside, scene, IsReady};
ghost use Rattle.hw_service.specs.Run.{HaveTaken};
ghost use Rattle.hw_service.specs.Turns.{MakesUnit, MakesWith, kind_word, made_line};
ghost use Rattle.hw_service.specs.Written.{IsOfOutput, Writes};
ghost use Rattle.hw_service.specs.Counts.{IsAppendCounted, IsWriteCounted};
ghost use Rattle.hw_service.specs.declared.fault.ServiceFault.TheVariants as fault;

use crate::fault::ServiceFault;
use crate::lines::write_bytes;
use crate::node_host::Host;
use hw_io::{Consumer, Files, Sink};
use hw_session::{MadeUnit, MakeFault};
use hw_text::{end_line, put_digest, put_word};
use hw_types::{Bytes, OutOfMemory, PlanKind};
use hw_validator::value_at;
use std::alloc::Global;

/// What a validator makes its unit from.
#[derive(Clone, Copy)]
struct Own<'v> {
    /// The validator's number.
    me: u32,
    /// The moment of the clock.
    moment: u64,
    /// The value, if the unit is a block.
    value: &'v [u8],
}

/// Makes the unit that the validator may make at this moment, passes the consumers what is decided, and writes the
/// unit's line.
pub(crate) fn make_unit<F: Files, S: Sink>(
    alloc: Global,
    host: &mut Host,
    me: u32,
    moment: u64,
    files: &mut F,
    out: &mut S,
    consumers: &mut Vec<Box<dyn Consumer>>,
) -> Result<(), ServiceFault>
    requires me { me < length host.old.node.core.config.weights }
    requires moment { moment < 2 ^ 63 }
    requires ready { IsReady host.old.node host.old.fanout consumers.old.items }
    ensures makes { (door : DoorSeen) → MakesUnit (sight_of ⟦<dyn Consumer as Consumer>⟧) F.tells me moment (scene host.old.node host.old.fanout (outside (F.held files.old) door (S.taken out.old) consumers.old.items))
        (scene host.new.node host.new.fanout (outside (F.held files.new) door (S.taken out.new) consumers.new.items)) result }
    ensures whole { HaveTaken (sight_of ⟦<dyn Consumer as Consumer>⟧) host.old.node.core host.old.fanout.passed consumers.old.items
        → OnOk result (HaveTaken (sight_of ⟦<dyn Consumer as Consumer>⟧) host.new.node.core host.new.fanout.passed consumers.new.items) }
    ensures ready { OnOk result (IsReady host.new.node host.new.fanout consumers.new.items) }
    ensures config { host.new.node.core.config ≡ host.old.node.core.config }
    ensures appends { IsAppendCounted (F.append_faults files.old) (F.append_faults files.new) result }
    ensures writes { IsWriteCounted (S.faults out.old) (S.faults out.new) result }

    ensures reads { F.read_faults files.new ≡ F.read_faults files.old }
{
    let value = value_at(alloc, host.node.core().state().config(), me, moment)?;
    let own = Own {
        me,
        moment,
        value: value.as_slice(),
    };
    make_with(alloc, host, own, files, out, consumers)
}

/// Makes the unit that the validator may make from this, passes the consumers what is decided, and writes the unit's
/// line.
fn make_with<F: Files, S: Sink>(
    alloc: Global,
    host: &mut Host,
    own: Own<'_>,
    files: &mut F,
    out: &mut S,
    consumers: &mut Vec<Box<dyn Consumer>>,
) -> Result<(), ServiceFault>
    requires me { own.me < length host.old.node.core.config.weights }
    requires moment { own.moment < 2 ^ 63 }
    requires value { length own.value.now ≤ 4096 }
    requires ready { IsReady host.old.node host.old.fanout consumers.old.items }
    ensures makes { (door : DoorSeen) → MakesWith (sight_of ⟦<dyn Consumer as Consumer>⟧) F.tells own.entry.me own.entry.moment own.entry.value.now (scene host.old.node host.old.fanout (outside (F.held files.old) door (S.taken out.old) consumers.old.items))
        (scene host.new.node host.new.fanout (outside (F.held files.new) door (S.taken out.new) consumers.new.items)) result }
    ensures whole { HaveTaken (sight_of ⟦<dyn Consumer as Consumer>⟧) host.old.node.core host.old.fanout.passed consumers.old.items
        → OnOk result (HaveTaken (sight_of ⟦<dyn Consumer as Consumer>⟧) host.new.node.core host.new.fanout.passed consumers.new.items) }
    ensures ready { OnOk result (IsReady host.new.node host.new.fanout consumers.new.items) }
    ensures config { host.new.node.core.config ≡ host.old.node.core.config }
    ensures appends { IsAppendCounted (F.append_faults files.old) (F.append_faults files.new) result }
    ensures writes { IsWriteCounted (S.faults out.old) (S.faults out.new) result }

    ensures reads { F.read_faults files.new ≡ F.read_faults files.old }
{
    match host.node.make_named(files, own.me, own.moment, own.value) {
        Ok(made) => {
            host.fanout.pass(consumers, host.node.core());
            tell_made(alloc, out, &made)
        }
        Err(MakeFault::RecordsFull) => {
            host.fanout.pass(consumers, host.node.core());
            Ok(())
        }
        Err(MakeFault::AppendFault) => Err(ServiceFault::Append),
        Err(MakeFault::OutOfMemory) => Err(ServiceFault::OutOfMemory),
    }
}

/// Writes the line of an own unit, if there is one.
fn tell_made<S: Sink>(
    alloc: Global,
    out: &mut S,
    made: &Option<MadeUnit>,
) -> Result<(), ServiceFault>
    ensures written { Writes (S.taken out.old) (S.taken out.new) (made_line made.now) result }
    ensures fault { IfErr result IsOfOutput }
    ensures writes { IsWriteCounted (S.faults out.old) (S.faults out.new) result }
{
    match made {
        Some(made) => {
            let line = made_line(alloc, made)?;
            write_bytes(out, line.as_slice())
        }
        None => Ok(()),
    }
}

/// The line of an own unit.
#[tactic(auto, using(std::proofs::Common::append_assoc), unfolding(crate::specs::Turns::made_line, hw_text::specs::Lines::line_of))]
fn made_line(alloc: Global, made: &MadeUnit) -> Result<Bytes, OutOfMemory>
    ensures { IfOk result (λ line. line ≡ made_line (Some made.now)) }
{
    let mut line = Bytes::new(alloc);
    put_word(&mut line, "made ")?;
    put_word(&mut line, kind_word(made.kind()))?;
    put_word(&mut line, " ")?;
    put_digest(&mut line, &made.name())?;
    end_line(&mut line)?;
    Ok(line)
}

/// What a unit is for, in a word.
fn kind_word(kind: PlanKind) -> &'static str
    ensures { result.now ≡ kind_word kind }
{
    match kind {
        PlanKind::Propose => "propose",
        PlanKind::Confirm => "confirm",
        PlanKind::Witness => "witness",
    }
}
