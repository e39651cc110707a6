//! A node from what a host stored of it.

ghost use Rattle.std.specs.Prelude.{◌≡◌, All, IfOk};
ghost use Rattle.hw_types.specs.Spelling.{VertexFits};
ghost use Rattle.hw_core.specs.Deliver.{HasCome};

use hw_admit::StateFault;
use hw_core::Core;
use hw_honest::replay_gives_back;
use hw_types::{Cause, Config, Vertex};
use std::alloc::Global;

/// Why there is no node.
#[derive(Clone, Copy, Debug, PartialEq, Eq)]
pub enum Broken {
    /// It can't begin.
    Start(StateFault),
    /// A vertex was refused.
    Refused(Cause),
}

/// A node to which a stored journal is delivered. Its journal is the one that was stored.
pub fn restore(alloc: Global, config: Config, stored: Vec<Vertex>) -> Result<Core, Broken>
    requires fits { All VertexFits stored.items }
    requires come { HasCome config stored.items }
    ensures config { IfOk result (λ core. core.config ≡ config) }
    ensures journal { IfOk result (λ core. core.journal ≡ stored.items) }
{
    replay_gives_back();
    let mut core = match Core::new(alloc, config) {
        Ok(core) => core,
        Err(fault) => return Err(Broken::Start(fault)),
    };
    for vertex in stored {
        match core.deliver(vertex, true) {
            Ok(_) => {}
            Err(refused) => return Err(Broken::Refused(refused.cause)),
        }
    }
    Ok(core)
}
