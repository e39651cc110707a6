//! A node that holds sessions with peers, one after the other, and then reports.

ghost use Rattle.std.specs.Prelude.{◌≡◌, ◌≢◌, ◌≤◌, None, IsTrue, IfOk, IfErr, OnOk};
ghost use Rattle.hw_replay.specs.Feed.{moment, IsPassed};
ghost use Rattle.hw_session.specs.Handling.{IsLogEnd, IsLinkEnd};
ghost use Rattle.hw_service.specs.Scene.{sight_of, outside_of, scene, IsReady};
ghost use Rattle.hw_service.specs.Begin.{names_of};
ghost use Rattle.hw_service.specs.Begun.{IsAbout};
ghost use Rattle.hw_service.specs.Talk.{talker};
ghost use Rattle.hw_service.specs.Steps.{Takes};
ghost use Rattle.hw_service.specs.Run.{Proceeds, HaveTaken, course, runner};
ghost use Rattle.hw_service.specs.Held.{holds_session, Holds};
ghost use Rattle.hw_service.specs.declared.fault.ServiceFault.TheVariants as fault;
ghost use Rattle.hw_service.specs.Counts.{IsReadCounted, IsAppendCounted, IsWriteCounted, IsDoorCounted};

use crate::begin::{Sources, begin_host};
use crate::close::close_host;
use crate::ended::Served;
use crate::fault::ServiceFault;
use crate::lines::tell_end;
use crate::node_host::Host;
use crate::talk::Talk;
use hw_io::{Consumer, Door, Files, Sink};
use hw_session::SessionEnd;
use std::alloc::Global;

/// The sessions that a run holds.
#[derive(Drop)]
pub struct Sessions<'w, T: Talk> {
    /// How the node talks in each of them.
    pub talk: T,
    /// The word before a session's number in its line.
    pub who: &'w str,
    /// The number of the first one.
    pub first: u64,
    /// The number of sessions.
    pub count: u64,
}

/// Starts a node and lets it hold these sessions, one after the other. Then it reports.
///
/// After each session the consumers get the new decided blocks. Then a line is written on how the session ended,
/// unless it ended as Done. At the end each consumer's `finish` is called, and the report on the node is written. The
/// report has the consumers that were dropped and the number of vertices that met a limit. A fault of a file or of
/// the output, a clash or running out of memory ends the run at once.
pub fn hold_sessions<T: Talk, F: Files, S: Sink, D: Door>(
    alloc: Global,
    sources: Sources<'_>,
    sessions: &Sessions<'_, T>,
    files: &mut F,
    out: &mut S,
    door: &mut D,
    consumers: &mut Vec<Box<dyn Consumer>>,
) -> Result<Served, ServiceFault>
    // So the last number fits a `u64` too.
    requires first { sessions.now.first ≤ 1 }
    ensures holds { Holds (runner (sight_of ⟦<dyn Consumer as Consumer>⟧) F.tells (names_of sources.entry) None) (T.talks sessions.now.talk F.tells) sessions.now.who.now sessions.now.first sessions.now.count
        (outside_of F.Files S.Sink D.Door files.old out.old door.old consumers.old.items)
        (outside_of F.Files S.Sink D.Door files.new out.new door.new consumers.new.items) result }

    // Which counts rise.
    ensures reads { IsReadCounted (F.read_faults files.old) (F.read_faults files.new) result }
    ensures about { IsTrue F.tells → IfErr result (λ e. e ≡ fault.Read → IsAbout (names_of sources.entry) None (F.held files.old) (F.faults_about files.old) (F.faults_about files.new)) }
    ensures appends { IsAppendCounted (F.append_faults files.old) (F.append_faults files.new) result }
    ensures writes { IsWriteCounted (S.faults out.old) (S.faults out.new) result }
    ensures link { IfOk result (λ served. IsDoorCounted served.link_failed (D.faults door.old) (D.faults door.new)) }
{
    let mut host = begin_host(alloc, sources, None, files, consumers)?;
    hold_begun(alloc, &mut host, sessions, files, out, door, consumers)
}

/// Lets a node that has begun hold these sessions, and then reports as `hold_sessions` does.
fn hold_begun<T: Talk, F: Files, S: Sink, D: Door>(
    alloc: Global,
    host: &mut Host,
    sessions: &Sessions<'_, T>,
    files: &mut F,
    out: &mut S,
    door: &mut D,
    consumers: &mut Vec<Box<dyn Consumer>>,
) -> Result<Served, ServiceFault>
    requires first { sessions.now.first ≤ 1 }
    requires ready { IsReady host.old.node host.old.fanout consumers.old.items }
    ensures proceeds { Proceeds (sight_of ⟦<dyn Consumer as Consumer>⟧) (course (holds_session (sight_of ⟦<dyn Consumer as Consumer>⟧) (T.talks sessions.now.talk F.tells) sessions.now.who.now) sessions.now.first sessions.now.count)
        (scene host.old.node host.old.fanout (outside_of F.Files S.Sink D.Door files.old out.old door.old consumers.old.items), tt)
        (outside_of F.Files S.Sink D.Door files.new out.new door.new consumers.new.items, tt) result }
    ensures appends { IsAppendCounted (F.append_faults files.old) (F.append_faults files.new) result }
    ensures writes { IsWriteCounted (S.faults out.old) (S.faults out.new) result }
    ensures link { IfOk result (λ served. IsDoorCounted served.link_failed (D.faults door.old) (D.faults door.new)) }
    ensures no_read { IfErr result (λ e. e ≢ fault.Read) }

    ensures reads { F.read_faults files.new ≡ F.read_faults files.old }
{
    let link_failed = hold_all(alloc, host, sessions, files, out, door, consumers)?;
    close_host(alloc, host, link_failed, out, consumers)
}

/// Holds these sessions, one after the other, and writes the line of each. Answers whether a call of the door failed in
/// one.
fn hold_all<T: Talk, F: Files, S: Sink, D: Door>(
    alloc: Global,
    host: &mut Host,
    sessions: &Sessions<'_, T>,
    files: &mut F,
    out: &mut S,
    door: &mut D,
    consumers: &mut Vec<Box<dyn Consumer>>,
) -> Result<bool, ServiceFault>
    requires first { sessions.now.first ≤ 1 }
    requires ready { IsReady host.old.node host.old.fanout consumers.old.items }
    ensures takes { Takes (holds_session (sight_of ⟦<dyn Consumer as Consumer>⟧) (T.talks sessions.now.talk F.tells) sessions.now.who.now) sessions.now.first sessions.now.count
        (scene host.old.node host.old.fanout (outside_of F.Files S.Sink D.Door files.old out.old door.old consumers.old.items), tt)
        (scene host.new.node host.new.fanout (outside_of F.Files S.Sink D.Door files.new out.new door.new consumers.new.items), tt) result }
    ensures whole { HaveTaken (sight_of ⟦<dyn Consumer as Consumer>⟧) host.old.node.core host.old.fanout.passed consumers.old.items
        → OnOk result (HaveTaken (sight_of ⟦<dyn Consumer as Consumer>⟧) host.new.node.core host.new.fanout.passed consumers.new.items) }
    ensures ready { IsReady host.new.node host.new.fanout consumers.new.items }
    ensures appends { IsAppendCounted (F.append_faults files.old) (F.append_faults files.new) result }
    ensures writes { IsWriteCounted (S.faults out.old) (S.faults out.new) result }
    ensures link { IfOk result (λ failed. IsDoorCounted failed (D.faults door.old) (D.faults door.new)) }

    ensures reads { F.read_faults files.new ≡ F.read_faults files.old }
{
    let mut failed = false;
    for index in 0..sessions.count {
        let end = hold_one(host, &sessions.talk, files, door, consumers);
        let number = sessions.first + index;
        failed |= tell_end(alloc, &host.node, out, sessions.who, number, end)?;
    }
    Ok(failed)
}

/// Holds one session, and then passes the consumers what is decided. Answers how the session ended.
fn hold_one<T: Talk, F: Files, D: Door>(
    host: &mut Host,
    talk: &T,
    files: &mut F,
    door: &mut D,
    consumers: &mut Vec<Box<dyn Consumer>>,
) -> SessionEnd
    requires ready { IsReady host.old.node host.old.fanout consumers.old.items }
    ensures talked { T.talks talk.now F.tells (talker F.Files D.Door host.old.node files.old door.old) (talker F.Files D.Door host.new.node files.new door.new) result }
    ensures told { IsPassed (sight_of ⟦<dyn Consumer as Consumer>⟧) (moment host.old.node.core consumers.old.items host.old.fanout) (moment host.new.node.core consumers.new.items host.new.fanout) }
    ensures whole { HaveTaken (sight_of ⟦<dyn Consumer as Consumer>⟧) host.old.node.core host.old.fanout.passed consumers.old.items
        → HaveTaken (sight_of ⟦<dyn Consumer as Consumer>⟧) host.new.node.core host.new.fanout.passed consumers.new.items }
    ensures ready { IsReady host.new.node host.new.fanout consumers.new.items }
    ensures link { IsLinkEnd (D.faults door.old) (D.faults door.new) result }
    ensures appends { IsLogEnd (F.append_faults files.old) (F.append_faults files.new) result }

    ensures reads { F.read_faults files.new ≡ F.read_faults files.old }
{
    let end = talk.talk(&mut host.node, files, door);
    host.fanout.pass(consumers, host.node.core());
    end
}
