//! How the next era of a node is opened.

ghost use Rattle.std.specs.Prelude.{◌≡◌, ◌≤◌, ◌<◌, ◌↔◌, ◌++◌, ◌∷◌, [], length, unwrap_or, None, Some, Ok, Err, IfOk, IfErr, IfSome, IsNone, OnOk, OnErr};
ghost use Rattle.hw_types.specs.Limits.{config_fault};
ghost use Rattle.hw_admit.specs.State.{IsStartFault};
ghost use Rattle.hw_core.specs.Promises.{begun};
ghost use Rattle.hw_eras.specs.declared.answers.EraOpen.TheVariants as opening;
ghost use Rattle.hw_eras.specs.Nodes.{IsMadeAgain, next_of, IsUnended, IsLastBlock, last_core, AreNodeEras, IsLastUnended, IsFull, HasOpened};

use crate::answers::EraOpen;
use crate::next::next_config;
use hw_admit::StateFault;
use hw_core::Core;
use hw_types::{Config, Digest, OutOfMemory, WireUnit};
use std::alloc::Global;

/// The most eras of a node.
const MAX_ERAS: usize = 64;

/// Opens the era after the last one of these nodes.
pub fn open_after(cores: &mut Vec<Core>) -> Result<Option<u32>, EraOpen>
    requires { AreNodeEras cores.old.items }
    // None exactly where the last era has no end, or decided no block of that height.
    ensures none { (result ≡ Ok None) ↔ IsLastUnended cores.old.items }
    // Full exactly where otherwise 64 eras are there.
    ensures full { (result ≡ Err opening.Full) ↔ IsFull cores.old.items }
    ensures opened { IfOk result (λ number. IfSome number (HasOpened cores.old.items cores.new.items)) }
    ensures still { result ≡ Ok None → cores.new.items ≡ cores.old.items }
    ensures unchanged { OnErr result (cores.new.items ≡ cores.old.items) }
    ensures eras { AreNodeEras cores.new.items }
{
    match last_block(last(cores)) {
        None => Ok(None),
        Some(block) => {
            if cores.len() == MAX_ERAS {
                return Err(EraOpen::Full);
            }
            match open(cores, &block) {
                Ok(number) => Ok(Some(number)),
                Err(OutOfMemory) => Err(EraOpen::OutOfMemory),
            }
        }
    }
}

/// The node of the last era.
fn last(cores: &[Core]) -> &Core
    requires { 1 ≤ length cores.now }
    ensures { last_core cores.now ≡ Some result.now }
{
    &cores[cores.len() - 1]
}

/// The decided block at the era's end, if there is one.
fn last_block(core: &Core) -> Option<Digest>
    requires { IsMadeAgain core.now }
    ensures some { IfSome result (IsLastBlock core.now) }
    ensures none { IsNone result → IsUnended core.now }
{
    let end = core.state().config().end?;
    // The decided blocks have the heights from 0 on.
    if end < core.decision_count() {
        Some(core.decision(end).block)
    } else {
        None
    }
}

/// Opens the era after the last one, in which this last block is decided. Its number.
fn open(cores: &mut Vec<Core>, block: &Digest) -> Result<u32, OutOfMemory>
    requires eras { AreNodeEras cores.old.items }
    requires room { length cores.old.items < 64 }
    requires block { IfSome (last_core cores.old.items) (λ core. IsLastBlock core block.now) }
    ensures opened { IfOk result (HasOpened cores.old.items cores.new.items) }
    ensures unchanged { OnErr result (cores.new.items ≡ cores.old.items) }
{
    let number = cores.len() as u32;
    let alloc = *cores.allocator();
    let config = config_after(alloc, last(cores), block)?;
    match add(cores, config) {
        Ok(()) => Ok(number),
        Err(StateFault::OutOfMemory) => Err(OutOfMemory),
        // The configuration keeps all limits.
        Err(StateFault::Fault(_)) => unreachable!(),
    }
}

/// The configuration of the era after this node's, in which this last block is decided.
fn config_after(alloc: Global, core: &Core, block: &Digest) -> Result<Config, OutOfMemory>
    requires made { IsMadeAgain core.now }
    requires last { IsLastBlock core.now block.now }
    ensures next { IfOk result (λ config. next_of core.now ≡ Some config) }
    ensures lawful { IfOk result (λ config. config_fault config ≡ None) }
{
    let state = core.state();
    let dag = state.dag();
    // For the prover: what a `Dag` holds is a graph.
    dag.recall_graph();
    match dag.find(block) {
        Some(no) => next_config(
            alloc,
            state.config(),
            block,
            value_of(&dag.unit(no).signed().unit),
        ),
        // A decided block is settled.
        None => unreachable!(),
    }
}

/// The value of a block.
fn value_of(block: &WireUnit) -> &[u8]
    ensures { result.now ≡ unwrap_or block.now.value [] }
{
    match &block.value {
        Some(value) => value.as_slice(),
        None => &[],
    }
}

/// Puts a node that received nothing last.
pub fn add(cores: &mut Vec<Core>, config: Config) -> Result<(), StateFault>
    ensures lawful { OnOk result (config_fault config ≡ None) }
    ensures fault { IfErr result (IsStartFault (config_fault config)) }
    ensures added { OnOk result (cores.new.items ≡ cores.old.items ++ begun config ∷ []) }
    ensures unchanged { OnErr result (cores.new.items ≡ cores.old.items) }
{
    let alloc = *cores.allocator();
    let core = Core::new(alloc, config)?;
    match cores.push(core) {
        Ok(()) => Ok(()),
        Err(_unpushed) => Err(StateFault::OutOfMemory),
    }
}
