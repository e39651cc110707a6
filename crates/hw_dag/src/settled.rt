//! Settled units.

ghost use Rattle.std.specs.Prelude.{◌≡◌, ◌<◌, length};
ghost use Rattle.hw_dag.specs.{Dag.{creator_of}, Admission.{settled_as}, Tables.{predecessor_of}};

use crate::numbers::{Panorama, UnitNo, View};
use crate::shared_unit::SharedUnit;
use hw_types::{Digest, SignedUnit};
use std::marker::Model;

/// A settled unit, which never changes.
#[derive(Drop)]
pub struct Unit {
    digest: Digest,
    signed: SharedUnit,
    panorama: Panorama,
    vote: UnitNo,
    parent: Option<UnitNo>,
    height: Option<u64>,
}

impl Model for Unit {
    ghost use Rattle.hw_dag.specs.Dag.{SettledUnit};

    ghost Value = { SettledUnit };

    ghost view = { λ u. record {
      digest = u.digest;
      signed = u.signed;
      panorama = u.panorama;
      vote = u.vote;
      parent = u.parent;
      height = u.height;
    } };
}

impl Unit {
    /// The settled unit of this number. A block votes for itself, and the fork choice is its parent. The
    /// fork choice is another unit's vote.
    pub(crate) fn settle(
        digest: Digest,
        signed: SharedUnit,
        panorama: Panorama,
        no: UnitNo,
        fork: Option<UnitNo>,
        height: u64,
    ) -> Unit
        ensures { result ≡ settled_as (record { digest = digest; signed = signed; panorama = panorama }) no fork height }
    {
        let is_block = signed.signed().unit.value.is_some();
        let (vote, parent, height) = if is_block {
            (no, fork, Some(height))
        } else {
            (fork.unwrap_or(no), None, None)
        };
        Unit {
            digest,
            signed,
            panorama,
            vote,
            parent,
            height,
        }
    }

    /// The unit that comes before it on its lane.
    pub(crate) fn predecessor(&self) -> Option<UnitNo>
        requires { creator_of self.now < length self.now.panorama }
        ensures { result ≡ predecessor_of self.now }
    {
        match self.panorama.get(self.signed().unit.creator) {
            View::Correct(no) => Some(no),
            View::Absent | View::Faulty => None,
        }
    }

    /// Its name.
    pub fn digest(&self) -> &Digest
        ensures { result.now ≡ self.now.digest }
    {
        &self.digest
    }

    /// The unit as its creator signed it.
    pub fn signed(&self) -> &SignedUnit
        ensures { result.now ≡ self.now.signed }
    {
        self.signed.signed()
    }

    /// What it observes, in numbers.
    pub fn panorama(&self) -> &Panorama
        ensures { result.now ≡ self.now.panorama }
    {
        &self.panorama
    }

    /// The block that it votes for: itself where it is a block, else the fork choice of its panorama.
    pub fn vote(&self) -> UnitNo
        ensures { result ≡ self.now.vote }
    {
        self.vote
    }

    /// The fork choice of its panorama where it is a block. A block of height 0 has none, and neither
    /// has a unit without a value.
    pub fn parent(&self) -> Option<UnitNo>
        ensures { result ≡ self.now.parent }
    {
        self.parent
    }

    /// Where it is a block, how many parents lead from it to a block without one.
    pub fn height(&self) -> Option<u64>
        ensures { result ≡ self.now.height }
    {
        self.height
    }
}
