//! `run`: a validator that takes turns, and then reports.

ghost use Rattle.std.specs.Prelude.{◌≡◌, ◌≤◌, map, string_bytes, IfOk};
ghost use Rattle.hw_replay.specs.Fates.{seen};
ghost use Rattle.hw_service.specs.{Scene.{door_seen}, Begin.{names_of}, Loans.{loans}};
ghost use Rattle.hw_program.specs.{Services.{Run}, Served.{around, counts, output, AreNew, RunsNode}};

use crate::ends::end_run;
use hw_io::{Clock, Consumer, Door, Files, Sink};
use hw_service::{Environment, Peer, ServiceFault, Sources, run};
use hw_types::OutOfMemory;
use std::alloc::Global;

/// Lets the validator of a node take this many turns, and answers the status. In each turn it dials the peers at
/// these addresses, each of which has a mark of its own.
pub fn run_turns<F: Files, S: Sink, C: Clock, D: Door>(
    alloc: Global,
    sources: Sources<'_>,
    me: u32,
    turns: u64,
    addresses: &[String],
    environment: &mut Environment<'_, '_, '_, '_, F, S, C, D>,
    consumers: &mut Vec<Box<dyn Consumer>>,
) -> u8
    // It asks for nothing. With a `requires` the proof is for whatever consumers the caller has.
    requires { 0 ≤ turns }
    ensures runs { RunsNode (seen (λ b. consumed b) (λ b. (⟦<dyn Consumer as Consumer>⟧ b.vtable).faults b.value) (λ b. (⟦<dyn Consumer as Consumer>⟧ b.vtable).wants b.value) (λ b. b.vtable)) F.tells (Run (names_of sources.entry) me turns (map string_bytes addresses.now)) result
        (around (F.held environment.old.files.now) (door_seen (D.sessions environment.old.door.now) (D.accepts environment.old.door.now) (D.dials environment.old.door.now) (D.ends environment.old.door.now)) (C.given environment.old.clock.now) (output (S.taken environment.old.out.now) (S.faults environment.old.out.now) (S.wants environment.old.out.now)) (counts (F.read_faults environment.old.files.now) (F.append_faults environment.old.files.now) (F.faults_about environment.old.files.now) (D.faults environment.old.door.now)) consumers.old.items)
        (around (F.held environment.new.files.now) (door_seen (D.sessions environment.new.door.now) (D.accepts environment.new.door.now) (D.dials environment.new.door.now) (D.ends environment.new.door.now)) (C.given environment.new.clock.now) (output (S.taken environment.new.out.now) (S.faults environment.new.out.now) (S.wants environment.new.out.now)) (counts (F.read_faults environment.new.files.now) (F.append_faults environment.new.files.now) (F.faults_about environment.new.files.now) (D.faults environment.new.door.now)) consumers.new.items) }
    ensures lent { loans environment.new.files environment.new.out environment.new.clock environment.new.door ≡ loans environment.old.files environment.old.out environment.old.clock environment.old.door }
{
    match peers_of(alloc, addresses) {
        Ok(mut peers) => {
            let came_to = run(
                alloc,
                sources,
                me,
                turns,
                &mut peers,
                environment,
                consumers,
            );
            end_run(alloc, sources, came_to, environment.out)
        }
        Err(OutOfMemory) => end_run(
            alloc,
            sources,
            Err(ServiceFault::OutOfMemory),
            environment.out,
        ),
    }
}

/// New peers at these addresses.
fn peers_of(alloc: Global, addresses: &[String]) -> Result<Vec<Peer>, OutOfMemory>
    ensures { IfOk result (λ peers. AreNew (map string_bytes addresses.now) peers.items) }
{
    let mut peers = Vec::new(alloc);
    for address in addresses {
        peers.push(Peer::new(alloc, address.as_str())?)?;
    }
    Ok(peers)
}
