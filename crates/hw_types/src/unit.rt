//! Units and vertices, as validators sign and exchange them.

ghost use Rattle.std.specs.Prelude.{◌≡◌, IfOk};
ghost use Rattle.hw_types.specs.Graph.{digest_lt};

use crate::items::{Bytes, DigestList, OutOfMemory};
use crate::shared::ObsList;
use crate::words::{is_same, order};
use std::cmp::Ordering;
use std::hash::{Hash, Hasher};

/// A SHA-256 digest: the name of a unit, or of an instance. Digests are ordered by their bytes.
#[derive(Clone, Copy, Debug)]
pub struct Digest(pub [u8; 32]);

// Four words against four; derived code would compare the bytes one by one.
impl PartialEq for Digest {
    ghost use Rattle.std.specs.{Prelude.{bytes_eq}, Cmp.Rules.{comparing}};
    ghost use Rattle.std.proofs.Common.{rules};

    ghost eq = { λ x y. bytes_eq x.0 y.0 };

    ghost laws = { Prim.search (comparing, rules) };

    #[inline]
    fn eq(&self, other: &Digest) -> bool {
        is_same(&self.0, &other.0)
    }
}

impl Eq for Digest {
    ghost use Rattle.std.specs.Cmp.Rules.{comparing};
    ghost use Rattle.std.proofs.Common.{rules};

    ghost laws = { Prim.search (comparing, rules) };
}

impl Ord for Digest {
    ghost use Rattle.std.specs.{Ordering.{nat_cmp, on}, Cmp.Lexicographic.{slice_cmp}, Cmp.Rules.{comparing}};
    ghost use Rattle.std.proofs.Common.{rules};

    ghost cmp = { on (λ d. d.0) (slice_cmp nat_cmp) };

    ghost total = { Prim.search (comparing, rules) };

    ghost matches_partial_cmp = { Prim.search (comparing, rules) };

    ghost matches_eq = { Prim.search (comparing, rules) };

    #[inline]
    fn cmp(&self, other: &Digest) -> Ordering {
        order(&self.0, &other.0)
    }
}

impl PartialOrd for Digest {
    ghost use Rattle.std.specs.{Ordering.{nat_cmp, on, as_partial_cmp}, Cmp.Lexicographic.{slice_cmp}, Cmp.{partial_order_from_own_ties}, Cmp.Rules.{comparing}};
    ghost use Rattle.std.proofs.Common.{rules};

    ghost partial_cmp = { as_partial_cmp (on (λ d. d.0) (slice_cmp nat_cmp)) };

    ghost laws = { partial_order_from_own_ties (Prim.search (comparing, rules)) (Prim.search (comparing, rules)) };

    #[inline]
    fn partial_cmp(&self, other: &Digest) -> Option<Ordering> {
        Some(self.cmp(other))
    }
}

// The 32 bytes go to the hasher in one piece; derived code would hand them over one by one.
impl Hash for Digest {
    ghost use Rattle.std.specs.Prelude.{[], ◌∷◌};
    ghost use Rattle.std.proofs.Common.{ap};
    ghost use lib.Pointwise.{bytes_decides};

    ghost hash_input = { λ d. d.0 ∷ [] };

    ghost respects_eq = { λ x y e. ap (λ bytes. bytes ∷ []) ((bytes_decides x.0 y.0).0 e) };

    fn hash<H: Hasher>(&self, state: &mut H) {
        state.write(&self.0);
    }
}

impl Digest {
    /// Whether this digest is the lesser one by its bytes.
    pub fn comes_before(&self, other: &Digest) -> bool
        ensures { result ≡ digest_lt self.now other.now }
    {
        order(&self.0, &other.0).is_lt()
    }
}

/// A signature. What it proves is the caller's verdict.
#[derive(Clone, Copy, Debug, PartialEq, Eq)]
pub struct Signature(pub [u8; 32]);

/// What a unit says of one validator.
#[derive(Clone, Copy, Debug, PartialEq, Eq)]
pub enum Obs {
    /// No unit of it is known.
    Absent,
    /// This is its latest unit.
    Correct(Digest),
    /// It equivocated.
    Faulty,
}

/// A unit without its signature.
pub struct WireUnit {
    /// The digest of the configuration that it belongs to.
    pub instance: Digest,
    /// The validator that made it.
    pub creator: u32,
    /// Its place on its creator's lane, from 0.
    pub seq: u64,
    /// When it was made, in milliseconds, below 2^63.
    pub time: u64,
    /// Its round lasts 2^exponent milliseconds.
    pub exponent: u8,
    /// What it says of each validator, in their order.
    pub panorama: ObsList,
    /// A unit with a value is a block.
    pub value: Option<Bytes>,
    /// The endorsed units that it relies on, in rising order.
    pub endorsed: DigestList,
}

// For the prover: so the drop of a unit is one call, and else is written out wherever one is let go.
impl Drop for WireUnit {
    fn drop(self) {
        let WireUnit {
            instance: _,
            creator: _,
            seq: _,
            time: _,
            exponent: _,
            panorama: _panorama,
            value: _value,
            endorsed: _endorsed,
        } = self;
    }
}

/// A unit with its creator's signature.
#[derive(Drop)]
pub struct SignedUnit {
    pub unit: WireUnit,
    pub signature: Signature,
}

/// Two units that show that their creator equivocated.
#[derive(Drop)]
pub struct Evidence {
    pub left: SignedUnit,
    pub right: SignedUnit,
}

/// A validator's word that a unit may be relied on. What counts is the weight behind a unit.
#[derive(Clone, Copy, Debug, PartialEq, Eq)]
pub struct Endorsement {
    pub unit: Digest,
    pub endorser: u32,
    pub signature: Signature,
}

/// What validators exchange.
#[derive(Drop)]
pub enum Vertex {
    Unit(SignedUnit),
    Evidence(Evidence),
    Endorsement(Endorsement),
}

/// What a unit waits for.
#[derive(Clone, Copy, Debug, PartialEq, Eq)]
pub enum Need {
    /// The unit of this digest has to settle.
    Unit(Digest),
    /// The validator has to be known as faulty.
    Evidence(u32),
    /// The unit of this digest has to be endorsed.
    Endorsed(Digest),
}

impl WireUnit {
    /// The same unit.
    pub fn copy(&self) -> Result<WireUnit, OutOfMemory>
        ensures { IfOk result (λ unit. unit ≡ self.now) }
    {
        let panorama = self.panorama.copy()?;
        let value = match &self.value {
            None => None,
            Some(value) => Some(value.copy()?),
        };
        let endorsed = self.endorsed.copy()?;
        Ok(WireUnit {
            instance: self.instance,
            creator: self.creator,
            seq: self.seq,
            time: self.time,
            exponent: self.exponent,
            panorama,
            value,
            endorsed,
        })
    }
}

impl SignedUnit {
    /// The same unit with the same signature.
    pub fn copy(&self) -> Result<SignedUnit, OutOfMemory>
        ensures { IfOk result (λ unit. unit ≡ self.now) }
    {
        Ok(SignedUnit {
            unit: self.unit.copy()?,
            signature: self.signature,
        })
    }
}

impl Evidence {
    /// The same two units.
    pub fn copy(&self) -> Result<Evidence, OutOfMemory>
        ensures { IfOk result (λ evidence. evidence ≡ self.now) }
    {
        Ok(Evidence {
            left: self.left.copy()?,
            right: self.right.copy()?,
        })
    }
}

impl Vertex {
    /// The same vertex.
    pub fn copy(&self) -> Result<Vertex, OutOfMemory>
        ensures { IfOk result (λ vertex. vertex ≡ self.now) }
    {
        match self {
            Vertex::Unit(unit) => Ok(Vertex::Unit(unit.copy()?)),
            Vertex::Evidence(evidence) => Ok(Vertex::Evidence(evidence.copy()?)),
            Vertex::Endorsement(endorsement) => Ok(Vertex::Endorsement(*endorsement)),
        }
    }
}
