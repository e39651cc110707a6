//! A node that dials a peer, and meets it.

ghost use Rattle.std.specs.Prelude.{◌≡◌, None, IsTrue, IfOk, IfErr, OnOk};
ghost use Rattle.hw_io.specs.Faults.{raised};
ghost use Rattle.hw_service.specs.Scene.{sight_of, outside_of};
ghost use Rattle.hw_service.specs.Begin.{names_of};
ghost use Rattle.hw_service.specs.Begun.{IsAbout};
ghost use Rattle.hw_service.specs.declared.fault.ServiceFault.TheVariants as fault;
ghost use Rattle.hw_service.specs.Counts.{IsReadCounted, IsAppendCounted, IsWriteCounted, IsDoorCounted};
ghost use Rattle.hw_service.specs.Runs.{CallsOne, Calls};

use crate::end::session_end;
use crate::{Served, ServiceFault, Sessions, Sources, Talk, hold_sessions, meet_node};
use hw_io::{Consumer, Door, Files, Sink};
use hw_session::{Node, SessionEnd};
use std::alloc::Global;

/// A node dials the peer at this address, and meets it.
#[derive(Clone, Copy)]
struct Calling<'a> {
    alloc: Global,
    address: &'a str,
}

impl<'a> Talk for Calling<'a> {
    ghost talks = { λ calling tells. CallsOne tells calling.address.now };

    fn talk<F: Files, D: Door>(&self, node: &mut Node, files: &mut F, door: &mut D) -> SessionEnd {
        session_end(meet_node(self.alloc, node, files, self.address, door))
    }
}

/// Starts a node and lets it dial the peer at this address and meet it. Then it reports.
///
/// All else is as in `host`, with one session, whose line is that of peer 0.
pub fn meet<F: Files, S: Sink, D: Door>(
    alloc: Global,
    sources: Sources<'_>,
    address: &str,
    files: &mut F,
    out: &mut S,
    door: &mut D,
    consumers: &mut Vec<Box<dyn Consumer>>,
) -> Result<Served, ServiceFault>
    ensures calls { Calls (sight_of ⟦<dyn Consumer as Consumer>⟧) F.tells (names_of sources.entry) address.now
        (outside_of F.Files S.Sink D.Door files.old out.old door.old consumers.old.items)
        (outside_of F.Files S.Sink D.Door files.new out.new door.new consumers.new.items) result }
    ensures dials { OnOk result (D.dials door.new ≡ raised (D.dials door.old)) }
    ensures accepts { D.accepts door.new ≡ D.accepts door.old }

    // Which counts rise.
    ensures reads { IsReadCounted (F.read_faults files.old) (F.read_faults files.new) result }
    ensures about { IsTrue F.tells → IfErr result (λ e. e ≡ fault.Read → IsAbout (names_of sources.entry) None (F.held files.old) (F.faults_about files.old) (F.faults_about files.new)) }
    ensures appends { IsAppendCounted (F.append_faults files.old) (F.append_faults files.new) result }
    ensures writes { IsWriteCounted (S.faults out.old) (S.faults out.new) result }
    ensures link { IfOk result (λ served. IsDoorCounted served.link_failed (D.faults door.old) (D.faults door.new)) }
{
    let sessions = Sessions {
        talk: Calling { alloc, address },
        who: "peer",
        first: 0,
        count: 1,
    };
    hold_sessions(alloc, sources, &sessions, files, out, door, consumers)
}
