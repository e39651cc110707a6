//! The eras of a node, and what comes in them.

ghost use Rattle.std.specs.{Prelude.{◌≡◌, ◌<◌, ◌-◌, ◌↔◌, ◌∷◌, [], length, slice_get, slice_set, None, Some, Ok, Err, IfOk, IfErr, IfSome, OnErr}, Option.{option_copied}};
ghost use Rattle.hw_types.specs.{Limits.{config_fault}, Spelling.{VertexFits}};
ghost use Rattle.hw_admit.specs.State.{IsStartFault};
ghost use Rattle.hw_core.specs.Promises.{begun};
ghost use Rattle.hw_eras.specs.declared.answers.EraOpen.TheVariants as opening;
ghost use Rattle.hw_eras.specs.Nodes.{IsMadeAgain, last_core, AreNodeEras, HasDelivered, IsEraRefusal, IsLastUnended, IsFull, HasOpened};

use crate::answers::{EraOpen, EraRefused};
use crate::deliveries::{deliver_to, put_last};
use crate::opening::{add, open_after};
use hw_admit::StateFault;
use hw_core::Core;
use hw_types::{Config, Receipt, Vertex};
use std::alloc::Global;
use std::marker::Model;

/// The eras of a node: an instance for each, one after the other.
///
/// Contracts see the configuration, the journal and the last question of each.
#[derive(Drop)]
pub struct Eras {
    cores: Vec<Core>,
}

impl Model for Eras {
    ghost use Rattle.std.specs.Prelude.{List};
    ghost use Rattle.hw_types.specs.Real.{CoreState};
    ghost use Rattle.hw_eras.specs.Nodes.{AreNodeEras};

    ghost Value = { List CoreState };

    ghost view = { λ e. e.cores.items };

    ghost invariant = { λ e. AreNodeEras e.cores.items };
}

impl Eras {
    /// Era 0 alone, with this configuration, in which nothing was received. `Fault` names the limit that the
    /// configuration breaks. `OutOfMemory` is answered only where it breaks none.
    pub fn new(alloc: Global, config: Config) -> Result<Eras, StateFault>
        ensures lawful { IfOk result (λ eras. config_fault config ≡ None) }
        ensures fault { IfErr result (IsStartFault (config_fault config)) }
        ensures begun { IfOk result (λ eras. eras ≡ begun config ∷ []) }
    {
        let mut cores = Vec::new(alloc);
        add(&mut cores, config)?;
        Ok(Eras { cores })
    }

    /// Takes a vertex in an era, with the verdict on its signatures, and says what became of it.
    ///
    /// `UnknownEra` is answered exactly where the era isn't below the count; otherwise the answer is that of
    /// the era's node, and the other eras stay as they are. A refusal gives the vertex back and changes nothing.
    pub fn deliver(
        &mut self,
        era: u32,
        vertex: Vertex,
        verdict: bool,
    ) -> Result<Receipt, EraRefused>
        requires { VertexFits vertex }
        ensures accepted { IfOk result (HasDelivered self.old self.new era vertex verdict) }
        ensures refused { IfErr result (λ r. IsEraRefusal self.old era vertex verdict r.cause) }
        ensures returned { IfErr result (λ r. r.vertex ≡ vertex) }
        ensures unchanged { OnErr result (self.new ≡ self.old) }

        // Each era has the configuration that the last block of the one before named.
        ensures eras { AreNodeEras self.new }
    {
        deliver_to(&mut self.cores, era, vertex, verdict)
    }

    /// Swaps the last era's node with this one, which has its configuration. Its journal's vertices must make
    /// it again, as they do for each node that came about by deliveries.
    pub fn put_last(&mut self, core: &mut Core)
        requires made { IsMadeAgain core.old }
        requires config { IfSome (last_core self.old) (λ last. core.old.config ≡ last.config) }
        ensures put { self.new ≡ slice_set self.old (length self.old - 1) core.old }
        ensures out { last_core self.old ≡ Some core.new }
        ensures eras { AreNodeEras self.new }
    {
        put_last(&mut self.cores, core);
    }

    /// Opens the next era, once the last block of the last one is decided, and answers its number.
    ///
    /// None is answered exactly where the last era has no end, or decided no block of that height. `Full` is
    /// answered exactly where otherwise 64 eras are there. After these two and after `OutOfMemory` nothing has
    /// changed. Otherwise the next era has the configuration that the last block names.
    pub fn open_next(&mut self) -> Result<Option<u32>, EraOpen>
        ensures none { (result ≡ Ok None) ↔ IsLastUnended self.old }
        ensures full { (result ≡ Err opening.Full) ↔ IsFull self.old }
        ensures opened { IfOk result (λ number. IfSome number (HasOpened self.old self.new)) }
        ensures still { result ≡ Ok None → self.new ≡ self.old }
        ensures unchanged { OnErr result (self.new ≡ self.old) }
        ensures eras { AreNodeEras self.new }
    {
        open_after(&mut self.cores)
    }

    /// How many eras there are: 1 to 64.
    pub fn count(&self) -> u32
        ensures count { result ≡ length self.now }
        ensures eras { AreNodeEras self.now }
    {
        self.cores.len() as u32
    }

    /// The node of an era, for reading. None exactly where the era isn't below the count.
    pub fn core(&self, era: u32) -> Option<&Core>
        ensures { option_copied result ≡ slice_get self.now era }
    {
        self.cores.get(era as usize)
    }
}
