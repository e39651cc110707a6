//! Units on their way into the graph.

ghost use Rattle.std.specs.Prelude.{◌≡◌, ◌↔◌, IsTrue, IfOk, IfErr};
ghost use Rattle.hw_dag.specs.{Dag.{graph}, Admission.{IsFor, IsResolved, AllKnown, settled_as}};

use crate::graph::Dag;
use crate::numbers::{Panorama, UnitNo};
use crate::settled::Unit;
use crate::shared_unit::SharedUnit;
use hw_types::{Digest, OutOfMemory, SignedUnit};
use std::alloc::Global;
use std::marker::Model;

/// There was no memory. The unit comes back.
#[derive(Drop)]
pub struct NoRoom {
    pub unit: SignedUnit,
}

/// A unit with its name, and room for what it observes in numbers.
#[derive(Drop)]
pub struct Prepared {
    digest: Digest,
    signed: SharedUnit,
    panorama: Panorama,
}

impl Model for Prepared {
    ghost use Rattle.hw_dag.specs.{Admission.{PreparedUnit}, Tables.{HasSlots}};

    ghost Value = { PreparedUnit };

    ghost view = { λ p. record {
      digest = p.digest;
      signed = p.signed;
      panorama = p.panorama;
    } };

    ghost invariant = { λ p. HasSlots p.signed p.panorama };
}

impl Prepared {
    /// Takes the room for a unit of a graph of so many validators.
    pub(crate) fn new(
        alloc: Global,
        validators: u32,
        unit: SignedUnit,
        digest: Digest,
    ) -> Result<Prepared, NoRoom>
        requires { IsFor validators unit }
        ensures signed { IfOk result (λ prepared. prepared.signed ≡ unit) }
        ensures digest { IfOk result (λ prepared. prepared.digest ≡ digest) }
        ensures returned { IfErr result (λ no_room. no_room.unit ≡ unit) }
    {
        match Panorama::new(alloc, validators) {
            Ok(panorama) => match SharedUnit::new(alloc, unit) {
                Ok(signed) => Ok(Prepared {
                    digest,
                    signed,
                    panorama,
                }),
                Err(unit) => Err(NoRoom { unit }),
            },
            Err(OutOfMemory) => Err(NoRoom { unit }),
        }
    }

    /// Looks up each unit that it observes, and says whether they are all there.
    pub(crate) fn resolve_in(&mut self, dag: &Dag) -> bool
        ensures all { IsTrue result ↔ AllKnown (graph dag.now) self.old.signed.unit.panorama }
        ensures resolved { IsTrue result → IsResolved dag.now self.new }
        ensures signed { self.new.signed ≡ self.old.signed }
        ensures digest { self.new.digest ≡ self.old.digest }
    {
        dag.resolve_views(
            self.signed.signed().unit.panorama.as_slice(),
            &mut self.panorama,
        )
    }

    /// The settled unit of this number.
    pub(crate) fn settle(self, no: UnitNo, fork: Option<UnitNo>, height: u64) -> Unit
        ensures { result ≡ settled_as self no fork height }
    {
        let Prepared {
            digest,
            signed,
            panorama,
        } = self;
        Unit::settle(digest, signed, panorama, no, fork, height)
    }

    /// Its name.
    pub fn digest(&self) -> &Digest
        ensures { result.now ≡ self.now.digest }
    {
        &self.digest
    }

    /// The unit as its creator signed it.
    pub fn signed(&self) -> &SignedUnit
        ensures { result.now ≡ self.now.signed }
    {
        self.signed.signed()
    }

    /// The unit as its creator signed it, for its owners.
    pub fn shared(&self) -> &SharedUnit
        ensures { result.now ≡ self.now.signed }
    {
        &self.signed
    }

    /// What it observes, in numbers. It means something once the unit is resolved.
    pub fn panorama(&self) -> &Panorama
        ensures { result.now ≡ self.now.panorama }
    {
        &self.panorama
    }
}
