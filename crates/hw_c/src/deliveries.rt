//! Deliveries of several vertices to one node.

ghost use Rattle.std.specs.Prelude.{◌≡◌, ◌≤◌, length};
ghost use Rattle.hw_c.specs.{Deliveries.{IsDeliveryOf, AreDeliveries, AreAnswered}, Named.{name_of}};

use crate::calls;
use crate::codes::Fault;
use crate::names::{MOST, has_units, work_out};
use crate::sent::{Delivered, Sent, bytes_of, delivered_of};
use hw_core::Core;
use hw_types::{Digest, Receipt};
use std::alloc::Global;

/// Delivers one of several vertices, with a name that was worked out ahead.
fn deliver_named(
    alloc: Global,
    core: &mut Core,
    bytes: &[u8],
    sent: Sent,
    name: [u8; 32],
) -> Result<Receipt, Fault>
    requires { name ≡ name_of bytes.now sent }
    ensures { IsDeliveryOf core.old bytes.now sent result core.new }
{
    match bytes_of(bytes, sent) {
        Some(vertex) => calls::deliver_named(alloc, core, vertex, sent.verdict == 1, Digest(name)),
        None => Err(Fault::OutOfRange),
    }
}

/// Delivers one of several vertices, without a name that was worked out ahead.
fn deliver_one(alloc: Global, core: &mut Core, bytes: &[u8], sent: Sent) -> Result<Receipt, Fault>
    ensures { IsDeliveryOf core.old bytes.now sent result core.new }
{
    match bytes_of(bytes, sent) {
        Some(vertex) => calls::deliver_unnamed(alloc, core, vertex, sent.verdict == 1),
        None => Err(Fault::OutOfRange),
    }
}

/// Delivers vertices whose names are not worked out ahead.
fn deliver_others(
    alloc: Global,
    core: &mut Core,
    bytes: &[u8],
    vertices: &[Sent],
    delivered: &mut [Delivered],
)
    requires { length delivered.old ≡ length vertices.now }
    ensures { AreDeliveries core.old bytes.now vertices.now delivered.new core.new }
{
    'vertices: for k in 0..vertices.len() {
        let outcome = deliver_one(alloc, core, bytes, vertices[k]);
        delivered[k] = delivered_of(outcome);
    }
}

/// Delivers at most `MOST` vertices. The names of the units among them are worked out first, all at once.
fn deliver_few(
    alloc: Global,
    core: &mut Core,
    bytes: &[u8],
    vertices: &[Sent],
    delivered: &mut [Delivered],
)
    requires few { length vertices.now ≤ MOST }
    requires answers { length delivered.old ≡ length vertices.now }
    ensures { AreDeliveries core.old bytes.now vertices.now delivered.new core.new }
{
    if !has_units(bytes, vertices) {
        deliver_others(alloc, core, bytes, vertices, delivered);
        return;
    }
    let mut names = [[0; 32]; MOST];
    let names = &mut names[..vertices.len()];
    work_out(bytes, vertices, names);
    'vertices: for k in 0..vertices.len() {
        let outcome = deliver_named(alloc, core, bytes, vertices[k], names[k]);
        delivered[k] = delivered_of(outcome);
    }
}

/// Delivers the vertices in order, and writes the answer to each. `OutOfRange` where there are not as many places for
/// answers as vertices.
pub fn deliver_all(
    alloc: Global,
    core: &mut Core,
    bytes: &[u8],
    vertices: &[Sent],
    delivered: &mut [Delivered],
) -> Result<(), Fault>
    ensures { AreAnswered core.old bytes.now vertices.now delivered.old result delivered.new core.new }
{
    if vertices.len() != delivered.len() {
        return Err(Fault::OutOfRange);
    }
    let mut at = 0;
    'chunks: while at < vertices.len() {
        let end = vertices.len().min(at + MOST);
        deliver_few(
            alloc,
            core,
            bytes,
            &vertices[at..end],
            &mut delivered[at..end],
        );
        at = end;
    }
    Ok(())
}
