//! A validator that takes turns.

ghost use Rattle.std.specs.Prelude.{◌≡◌, ◌≢◌, ◌<◌, ◌*◌, ℕ, length, IsTrue, IfOk, IfErr, OnOk};
ghost use Rattle.hw_service.specs.{Scene.{sight_of, scene, IsReady}, Begin.{names_of}, Begun.{IsAbout}, Environs.{outside_in}, Loans.{loans}};
ghost use Rattle.hw_service.specs.{Run.{Proceeds, HaveTaken, course}, Steps.{Takes}, Turns.{DrivesAt, DrivesSession, TakesTurn, RunsTurns, turning}};
ghost use Rattle.hw_service.specs.Counts.{IsReadCounted, IsAppendCounted, IsWriteCounted, IsDoorCounted, raised_by};
ghost use Rattle.hw_service.specs.declared.fault.ServiceFault.TheVariants as fault;

use crate::begin::{Sources, begin_host};
use crate::close::close_host;
use crate::ended::Served;
use crate::environment::Environment;
use crate::fault::ServiceFault;
use crate::lines::tell_end;
use crate::node_host::Host;
use crate::own::make_unit;
use crate::peer::Peer;
use hw_io::{Clock, Consumer, Door, Files, Sink};
use std::alloc::Global;

/// Starts a node and lets the validator take this number of turns. Then it reports.
///
/// In each turn the validator makes its unit at the clock's moment, if there is one to make, and then dials each
/// peer once. After each of these the consumers get the new decided blocks. Then a line is written on the unit, or on
/// how the session ended, unless it ended as Done. At the end each consumer's `finish` is called, and the report on the
/// node is written. The report has the consumers that were dropped, and the number of vertices and own units that met a
/// limit. A fault of a file or of the output, a clash or running out of memory ends the run at once.
pub fn run<F: Files, S: Sink, C: Clock, D: Door>(
    alloc: Global,
    sources: Sources<'_>,
    me: u32,
    turns: u64,
    peers: &mut Vec<Peer>,
    environment: &mut Environment<'_, '_, '_, '_, F, S, C, D>,
    consumers: &mut Vec<Box<dyn Consumer>>,
) -> Result<Served, ServiceFault>
    ensures runs { RunsTurns (sight_of ⟦<dyn Consumer as Consumer>⟧) F.tells (names_of sources.entry) me turns
        (outside_in F.Files S.Sink D.Door environment.old consumers.old.items, turning peers.old.items (C.given environment.old.clock.now))
        (outside_in F.Files S.Sink D.Door environment.new consumers.new.items, turning peers.new.items (C.given environment.new.clock.now)) result }
    ensures peers { length peers.new.items ≡ length peers.old.items }
    ensures dials { OnOk result (D.dials environment.new.door.now ≡ raised_by (turns * length peers.old.items) (D.dials environment.old.door.now)) }
    ensures accepts { D.accepts environment.new.door.now ≡ D.accepts environment.old.door.now }
    ensures lent { loans environment.new.files environment.new.out environment.new.clock environment.new.door ≡ loans environment.old.files environment.old.out environment.old.clock environment.old.door }

    // Which counts rise.
    ensures reads { IsReadCounted (F.read_faults environment.old.files.now) (F.read_faults environment.new.files.now) result }
    ensures about { IsTrue F.tells → IfErr result (λ e. e ≡ fault.Read → IsAbout (names_of sources.entry) (Some me) (F.held environment.old.files.now) (F.faults_about environment.old.files.now) (F.faults_about environment.new.files.now)) }
    ensures appends { IsAppendCounted (F.append_faults environment.old.files.now) (F.append_faults environment.new.files.now) result }
    ensures writes { IsWriteCounted (S.faults environment.old.out.now) (S.faults environment.new.out.now) result }
    ensures link { IfOk result (λ served. IsDoorCounted served.link_failed (D.faults environment.old.door.now) (D.faults environment.new.door.now)) }
{
    let mut host = begin_host(alloc, sources, Some(me), environment.files, consumers)?;
    run_begun(alloc, &mut host, me, turns, peers, environment, consumers)
}

/// Lets the validator of a node that has begun take this number of turns, and then reports as `run` does.
fn run_begun<F: Files, S: Sink, C: Clock, D: Door>(
    alloc: Global,
    host: &mut Host,
    me: u32,
    turns: u64,
    peers: &mut Vec<Peer>,
    environment: &mut Environment<'_, '_, '_, '_, F, S, C, D>,
    consumers: &mut Vec<Box<dyn Consumer>>,
) -> Result<Served, ServiceFault>
    requires me { me < length host.old.node.core.config.weights }
    requires ready { IsReady host.old.node host.old.fanout consumers.old.items }
    ensures proceeds { Proceeds (sight_of ⟦<dyn Consumer as Consumer>⟧) (course (TakesTurn (sight_of ⟦<dyn Consumer as Consumer>⟧) F.tells me) 1 turns)
        (scene host.old.node host.old.fanout (outside_in F.Files S.Sink D.Door environment.old consumers.old.items), turning peers.old.items (C.given environment.old.clock.now))
        (outside_in F.Files S.Sink D.Door environment.new consumers.new.items, turning peers.new.items (C.given environment.new.clock.now)) result }
    ensures lent { loans environment.new.files environment.new.out environment.new.clock environment.new.door ≡ loans environment.old.files environment.old.out environment.old.clock environment.old.door }
    ensures appends { IsAppendCounted (F.append_faults environment.old.files.now) (F.append_faults environment.new.files.now) result }
    ensures writes { IsWriteCounted (S.faults environment.old.out.now) (S.faults environment.new.out.now) result }
    ensures link { IfOk result (λ served. IsDoorCounted served.link_failed (D.faults environment.old.door.now) (D.faults environment.new.door.now)) }
    ensures no_read { IfErr result (λ e. e ≢ fault.Read) }

    ensures reads { F.read_faults environment.new.files.now ≡ F.read_faults environment.old.files.now }
{
    let link_failed = take_turns(alloc, host, me, turns, peers, environment, consumers)?;
    close_host(alloc, host, link_failed, environment.out, consumers)
}

/// Takes this number of turns, one after the other. Answers whether a call of the door failed in a session.
fn take_turns<F: Files, S: Sink, C: Clock, D: Door>(
    alloc: Global,
    host: &mut Host,
    me: u32,
    turns: u64,
    peers: &mut Vec<Peer>,
    environment: &mut Environment<'_, '_, '_, '_, F, S, C, D>,
    consumers: &mut Vec<Box<dyn Consumer>>,
) -> Result<bool, ServiceFault>
    requires me { me < length host.old.node.core.config.weights }
    requires ready { IsReady host.old.node host.old.fanout consumers.old.items }
    ensures takes { Takes (TakesTurn (sight_of ⟦<dyn Consumer as Consumer>⟧) F.tells me) 1 turns
        (scene host.old.node host.old.fanout (outside_in F.Files S.Sink D.Door environment.old consumers.old.items), turning peers.old.items (C.given environment.old.clock.now))
        (scene host.new.node host.new.fanout (outside_in F.Files S.Sink D.Door environment.new consumers.new.items), turning peers.new.items (C.given environment.new.clock.now)) result }
    ensures whole { HaveTaken (sight_of ⟦<dyn Consumer as Consumer>⟧) host.old.node.core host.old.fanout.passed consumers.old.items
        → OnOk result (HaveTaken (sight_of ⟦<dyn Consumer as Consumer>⟧) host.new.node.core host.new.fanout.passed consumers.new.items) }
    ensures ready { OnOk result (IsReady host.new.node host.new.fanout consumers.new.items) }
    ensures config { host.new.node.core.config ≡ host.old.node.core.config }
    ensures lent { loans environment.new.files environment.new.out environment.new.clock environment.new.door ≡ loans environment.old.files environment.old.out environment.old.clock environment.old.door }
    ensures appends { IsAppendCounted (F.append_faults environment.old.files.now) (F.append_faults environment.new.files.now) result }
    ensures writes { IsWriteCounted (S.faults environment.old.out.now) (S.faults environment.new.out.now) result }
    ensures link { IfOk result (λ failed. IsDoorCounted failed (D.faults environment.old.door.now) (D.faults environment.new.door.now)) }

    ensures reads { F.read_faults environment.new.files.now ≡ F.read_faults environment.old.files.now }
{
    let mut failed = false;
    for _index in 0..turns {
        failed |= take_turn(alloc, host, me, peers, environment, consumers)?;
    }
    Ok(failed)
}

/// Takes a turn: the validator makes its unit at the clock's moment, if there is one to make, and then dials each peer
/// once. Answers whether a call of the door failed in a session.
fn take_turn<F: Files, S: Sink, C: Clock, D: Door>(
    alloc: Global,
    host: &mut Host,
    me: u32,
    peers: &mut Vec<Peer>,
    environment: &mut Environment<'_, '_, '_, '_, F, S, C, D>,
    consumers: &mut Vec<Box<dyn Consumer>>,
) -> Result<bool, ServiceFault>
    requires me { me < length host.old.node.core.config.weights }
    requires ready { IsReady host.old.node host.old.fanout consumers.old.items }
    ensures turn { (number : ℕ) → TakesTurn (sight_of ⟦<dyn Consumer as Consumer>⟧) F.tells me number
        (scene host.old.node host.old.fanout (outside_in F.Files S.Sink D.Door environment.old consumers.old.items), turning peers.old.items (C.given environment.old.clock.now))
        (scene host.new.node host.new.fanout (outside_in F.Files S.Sink D.Door environment.new consumers.new.items), turning peers.new.items (C.given environment.new.clock.now)) result }
    ensures whole { HaveTaken (sight_of ⟦<dyn Consumer as Consumer>⟧) host.old.node.core host.old.fanout.passed consumers.old.items
        → OnOk result (HaveTaken (sight_of ⟦<dyn Consumer as Consumer>⟧) host.new.node.core host.new.fanout.passed consumers.new.items) }
    ensures ready { OnOk result (IsReady host.new.node host.new.fanout consumers.new.items) }
    ensures config { host.new.node.core.config ≡ host.old.node.core.config }
    ensures lent { loans environment.new.files environment.new.out environment.new.clock environment.new.door ≡ loans environment.old.files environment.old.out environment.old.clock environment.old.door }
    ensures appends { IsAppendCounted (F.append_faults environment.old.files.now) (F.append_faults environment.new.files.now) result }
    ensures writes { IsWriteCounted (S.faults environment.old.out.now) (S.faults environment.new.out.now) result }
    ensures link { IfOk result (λ failed. IsDoorCounted failed (D.faults environment.old.door.now) (D.faults environment.new.door.now)) }

    ensures reads { F.read_faults environment.new.files.now ≡ F.read_faults environment.old.files.now }
{
    let moment = environment.clock.now();
    make_unit(
        alloc,
        host,
        me,
        moment,
        environment.files,
        environment.out,
        consumers,
    )?;
    drive_peers(alloc, host, peers, environment, consumers)
}

/// Dials each peer once, one after the other, and answers whether a call of the door failed in a session.
fn drive_peers<F: Files, S: Sink, C: Clock, D: Door>(
    alloc: Global,
    host: &mut Host,
    peers: &mut Vec<Peer>,
    environment: &mut Environment<'_, '_, '_, '_, F, S, C, D>,
    consumers: &mut Vec<Box<dyn Consumer>>,
) -> Result<bool, ServiceFault>
    requires ready { IsReady host.old.node host.old.fanout consumers.old.items }
    ensures drives { Takes (DrivesSession (sight_of ⟦<dyn Consumer as Consumer>⟧) F.tells) 0 (length peers.old.items)
        (scene host.old.node host.old.fanout (outside_in F.Files S.Sink D.Door environment.old consumers.old.items), peers.old.items)
        (scene host.new.node host.new.fanout (outside_in F.Files S.Sink D.Door environment.new consumers.new.items), peers.new.items) result }
    ensures whole { HaveTaken (sight_of ⟦<dyn Consumer as Consumer>⟧) host.old.node.core host.old.fanout.passed consumers.old.items
        → OnOk result (HaveTaken (sight_of ⟦<dyn Consumer as Consumer>⟧) host.new.node.core host.new.fanout.passed consumers.new.items) }
    ensures ready { OnOk result (IsReady host.new.node host.new.fanout consumers.new.items) }
    ensures config { host.new.node.core.config ≡ host.old.node.core.config }
    ensures lent { loans environment.new.files environment.new.out environment.new.clock environment.new.door ≡ loans environment.old.files environment.old.out environment.old.clock environment.old.door }
    ensures appends { IsAppendCounted (F.append_faults environment.old.files.now) (F.append_faults environment.new.files.now) result }
    ensures writes { IsWriteCounted (S.faults environment.old.out.now) (S.faults environment.new.out.now) result }
    ensures link { IfOk result (λ failed. IsDoorCounted failed (D.faults environment.old.door.now) (D.faults environment.new.door.now)) }
    ensures clock { C.given environment.new.clock.now ≡ C.given environment.old.clock.now }

    ensures reads { F.read_faults environment.new.files.now ≡ F.read_faults environment.old.files.now }
{
    let mut failed = false;
    for place in 0..peers.len() {
        failed |= drive_peer(
            alloc,
            host,
            &mut peers[place],
            place as u64,
            environment,
            consumers,
        )?;
    }
    Ok(failed)
}

/// Dials the peer of this number, passes the consumers what is decided, and writes the session's line. Answers whether
/// a call of the door failed in it.
fn drive_peer<F: Files, S: Sink, C: Clock, D: Door>(
    alloc: Global,
    host: &mut Host,
    peer: &mut Peer,
    number: u64,
    environment: &mut Environment<'_, '_, '_, '_, F, S, C, D>,
    consumers: &mut Vec<Box<dyn Consumer>>,
) -> Result<bool, ServiceFault>
    requires ready { IsReady host.old.node host.old.fanout consumers.old.items }
    ensures drives { DrivesAt (sight_of ⟦<dyn Consumer as Consumer>⟧) F.tells number
        (scene host.old.node host.old.fanout (outside_in F.Files S.Sink D.Door environment.old consumers.old.items))
        (scene host.new.node host.new.fanout (outside_in F.Files S.Sink D.Door environment.new consumers.new.items)) peer.old peer.new result }
    ensures whole { HaveTaken (sight_of ⟦<dyn Consumer as Consumer>⟧) host.old.node.core host.old.fanout.passed consumers.old.items
        → HaveTaken (sight_of ⟦<dyn Consumer as Consumer>⟧) host.new.node.core host.new.fanout.passed consumers.new.items }
    ensures ready { IsReady host.new.node host.new.fanout consumers.new.items }
    ensures config { host.new.node.core.config ≡ host.old.node.core.config }
    ensures lent { loans environment.new.files environment.new.out environment.new.clock environment.new.door ≡ loans environment.old.files environment.old.out environment.old.clock environment.old.door }
    ensures appends { IsAppendCounted (F.append_faults environment.old.files.now) (F.append_faults environment.new.files.now) result }
    ensures writes { IsWriteCounted (S.faults environment.old.out.now) (S.faults environment.new.out.now) result }
    ensures link { IfOk result (λ failed. IsDoorCounted failed (D.faults environment.old.door.now) (D.faults environment.new.door.now)) }
    ensures clock { C.given environment.new.clock.now ≡ C.given environment.old.clock.now }

    ensures reads { F.read_faults environment.new.files.now ≡ F.read_faults environment.old.files.now }
{
    let end = host.node.drive_one(
        &mut peer.mark,
        peer.address.as_str(),
        environment.door,
        environment.files,
    );
    host.fanout.pass(consumers, host.node.core());
    tell_end(alloc, &host.node, environment.out, "peer", number, end)
}
