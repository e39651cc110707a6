//! A node that serves sessions.

ghost use Rattle.std.specs.Prelude.{◌≡◌, None, IsTrue, IfOk, IfErr, OnOk};
ghost use Rattle.hw_service.specs.Scene.{sight_of, outside_of};
ghost use Rattle.hw_service.specs.Begin.{names_of};
ghost use Rattle.hw_service.specs.Begun.{IsAbout};
ghost use Rattle.hw_service.specs.Serve.{ServesOne, Serves};
ghost use Rattle.hw_service.specs.declared.fault.ServiceFault.TheVariants as fault;
ghost use Rattle.hw_service.specs.Counts.{IsReadCounted, IsAppendCounted, IsWriteCounted, IsDoorCounted, raised_by};

use crate::begin::Sources;
use crate::ended::Served;
use crate::fault::ServiceFault;
use crate::sessions::{Sessions, hold_sessions};
use crate::talk::Talk;
use hw_io::{Consumer, Door, Files, Sink};
use hw_session::{Node, SessionEnd};
use std::alloc::Global;

/// A node is dialled by a peer, and answers its frames.
#[derive(Clone, Copy)]
struct Serving;

impl Talk for Serving {
    ghost talks = { λ serving. ServesOne };

    fn talk<F: Files, D: Door>(&self, node: &mut Node, files: &mut F, door: &mut D) -> SessionEnd {
        node.serve_one(door, files)
    }
}

/// Starts a node and lets it serve this number of sessions, one after the other. Then it reports, all as in
/// `hold_sessions`. The sessions are numbered from 1.
pub fn serve<F: Files, S: Sink, D: Door>(
    alloc: Global,
    sources: Sources<'_>,
    sessions: u64,
    files: &mut F,
    out: &mut S,
    door: &mut D,
    consumers: &mut Vec<Box<dyn Consumer>>,
) -> Result<Served, ServiceFault>
    ensures serves { Serves (sight_of ⟦<dyn Consumer as Consumer>⟧) F.tells (names_of sources.entry) sessions
        (outside_of F.Files S.Sink D.Door files.old out.old door.old consumers.old.items)
        (outside_of F.Files S.Sink D.Door files.new out.new door.new consumers.new.items) result }
    ensures accepts { OnOk result (D.accepts door.new ≡ raised_by sessions (D.accepts door.old)) }
    ensures dials { D.dials door.new ≡ D.dials door.old }

    // Which counts rise.
    ensures reads { IsReadCounted (F.read_faults files.old) (F.read_faults files.new) result }
    ensures about { IsTrue F.tells → IfErr result (λ e. e ≡ fault.Read → IsAbout (names_of sources.entry) None (F.held files.old) (F.faults_about files.old) (F.faults_about files.new)) }
    ensures appends { IsAppendCounted (F.append_faults files.old) (F.append_faults files.new) result }
    ensures writes { IsWriteCounted (S.faults out.old) (S.faults out.new) result }
    ensures link { IfOk result (λ served. IsDoorCounted served.link_failed (D.faults door.old) (D.faults door.new)) }
{
    let sessions = Sessions {
        talk: Serving,
        who: "session",
        first: 1,
        count: sessions,
    };
    hold_sessions(alloc, sources, &sessions, files, out, door, consumers)
}
