//! The last unit of a validator, against which its next one is told in a log of version 2.

ghost use Rattle.std.specs.{Prelude.{◌≡◌, ◌≤◌, ◌<◌, length, get_or, IfOk}, Option.{option_copied}};
ghost use Rattle.hw_types.specs.{Spelling.{Fits, digest_of}, declared.unit.Obs.TheVariants.{Absent}};
ghost use Rattle.hw_codec.specs.{Last.{last_of, last_by, goes_on, due}, Compact.{base_of}};

use crate::encoding::digest_of;
use hw_types::{Digest, Obs, ObsList, OutOfMemory, WireUnit};
use std::alloc::Global;
use std::marker::Model;

/// What is kept of a unit so that its creator's next one can be told against it: its instance, its
/// name and its panorama.
#[derive(Drop)]
pub struct Last {
    instance: Digest,
    name: Digest,
    panorama: ObsList,
}

impl Model for Last {
    ghost use Rattle.std.specs.Prelude.{◌≤◌, length};
    ghost use Rattle.hw_codec.specs.Last.{LastUnit};

    ghost Value = { LastUnit };

    ghost view = { λ l. record { instance = l.instance; name = l.name; panorama = l.panorama } };

    ghost invariant = { λ l. length l.panorama ≤ 1024 };
}

impl Last {
    /// What is kept of this unit, which keeps the limits of its format.
    pub fn of(alloc: Global, unit: &WireUnit) -> Result<Last, OutOfMemory>
        requires { Fits unit.now }
        ensures { IfOk result (λ last. last ≡ last_of unit.now) }
    {
        Last::named(unit, digest_of(alloc, unit)?)
    }

    /// What is kept of this unit, whose name is known already.
    pub fn named(unit: &WireUnit, name: Digest) -> Result<Last, OutOfMemory>
        requires fits { Fits unit.now }
        requires name { name ≡ digest_of unit.now }
        ensures { IfOk result (λ last. last ≡ last_of unit.now) }
    {
        Ok(Last {
            instance: unit.instance,
            name,
            panorama: unit.panorama.copy()?,
        })
    }

    /// The name of the unit.
    pub fn name(&self) -> Digest
        ensures { result ≡ self.now.name }
    {
        self.name
    }

    /// The instance of the unit.
    pub(crate) fn instance(&self) -> Digest
        ensures { result ≡ self.now.instance }
    {
        self.instance
    }

    /// What the unit observes of each validator.
    pub(crate) fn panorama(&self) -> &[Obs]
        ensures views { result.now ≡ self.now.panorama }
        ensures limit { length self.now.panorama ≤ 1024 }
    {
        self.panorama.as_slice()
    }

    /// Its panorama, with its name in the creator's slot, which it has.
    pub(crate) fn base(&self, creator: u32) -> Result<Vec<Obs>, OutOfMemory>
        requires { creator < length self.now.panorama }
        ensures base { IfOk result (λ base. base.items ≡ base_of self.now creator) }
        ensures limit { IfOk result (λ base. length base.items ≤ 1024) }
    {
        let mut base = self.panorama.to_vec()?;
        base[creator as usize] = Obs::Correct(self.name);
        Ok(base)
    }

    /// Whether the unit goes on from this one.
    #[tactic(auto, using(crate::proofs::LastLaws::obs_tested))]
    fn goes_on(&self, unit: &WireUnit) -> bool
        ensures { result ≡ goes_on self.now unit.now }
    {
        unit.instance == self.instance
            && unit.panorama.len() == self.panorama.len()
            && observed(unit.panorama.as_slice(), unit.creator) == Obs::Correct(self.name)
    }
}

/// What the panorama says of a validator; of one that it has no slot for, that no unit is known.
fn observed(panorama: &[Obs], validator: u32) -> Obs
    ensures { result ≡ get_or panorama.now validator Absent }
{
    if (validator as usize) < panorama.len() {
        panorama[validator as usize]
    } else {
        Obs::Absent
    }
}

/// The last unit of a validator, if it has one.
pub(crate) fn last_by<'a>(lasts: &'a [Option<Last>], validator: u32) -> Option<&'a Last>
    ensures { option_copied result ≡ last_by lasts.now validator }
{
    match lasts.get(validator as usize) {
        Some(Some(last)) => Some(last),
        Some(None) => None,
        None => None,
    }
}

/// The last one that the unit is told against, where the compact form is due.
pub(crate) fn due<'a>(lasts: &'a [Option<Last>], unit: &WireUnit) -> Option<&'a Last>
    ensures { option_copied result ≡ due lasts.now unit.now }
{
    match last_by(lasts, unit.creator) {
        Some(last) => { if last.goes_on(unit) { Some(last) } else { None } }
        None => None,
    }
}
