//! The last unit of each validator, and the next ones over them.

ghost use Rattle.std.specs.{Prelude.{◌≡◌, ◌^◌, ◌<◌, ◌≤◌, length, map, replicate, slice_index_or, None, IfOk}, List.{range_with_len}};
ghost use Rattle.hw_types.specs.Spelling.{digest_of};
ghost use Rattle.hw_cluster.specs.Lanes.{seq_behind, observed, highest, unit_over, with_unit};

use hw_types::{Bytes, Digest, DigestList, Obs, ObsList, OutOfMemory, WireUnit};
use std::alloc::Global;
use std::marker::Model;

/// The rounds of generated units last 2^4 milliseconds.
const EXPONENT: u8 = 4;

/// The last unit that a validator made.
#[derive(Clone, Copy, Debug, PartialEq, Eq)]
pub struct LastUnit {
    pub name: Digest,
    /// Its place on the validator's lane, from 0.
    pub seq: u64,
}

/// The last unit of each validator, in their order, and the instance that all units are of.
#[derive(Drop)]
pub struct Lanes {
    instance: Digest,
    last: Vec<Option<LastUnit>>,
}

impl Model for Lanes {
    ghost use Rattle.hw_cluster.specs.Lanes.{LanesState};

    ghost Value = { LanesState };

    ghost view = { λ l. record {
      instance = l.instance;
      last = l.last.items;
    } };
}

impl Lanes {
    /// This many validators that made nothing.
    pub fn new(alloc: Global, instance: Digest, validators: u32) -> Result<Lanes, OutOfMemory>
        ensures { IfOk result (λ lanes. lanes ≡ record { instance = instance; last = replicate validators None }) }
    {
        Ok(Lanes {
            instance,
            last: nothing(alloc, validators)?,
        })
    }

    /// Where it takes its memory.
    pub fn allocator(&self) -> Global {
        *self.last.allocator()
    }

    /// The numbers of all validators.
    #[tactic(auto, using(crate::proofs::LanesLaws::range_more))]
    pub fn validators(&self) -> Result<Vec<u32>, OutOfMemory>
        requires { length self.now.last ≤ 1024 }
        ensures { IfOk result (λ validators. validators.items ≡ range_with_len 0 (length self.now.last)) }
    {
        let mut validators = Vec::with_capacity(self.allocator(), self.last.len())?;
        for validator in 0..self.last.len() as u32 {
            validators.push(validator)?;
        }
        Ok(validators)
    }

    /// The validator's next unit.
    pub fn next_unit(
        &self,
        creator: u32,
        time: u64,
        value: Option<Bytes>,
    ) -> Result<WireUnit, OutOfMemory>
        requires { highest self.now.last < 2 ^ 64 }
        ensures { IfOk result (λ unit. unit ≡ unit_over self.now creator time value) }
    {
        let alloc = self.allocator();
        Ok(WireUnit {
            instance: self.instance,
            creator,
            seq: seq_behind(self.last_of(creator)),
            time,
            exponent: EXPONENT,
            panorama: observations(alloc, self.last.as_slice())?,
            value,
            endorsed: DigestList::new(alloc),
        })
    }

    /// The last unit of the validator.
    fn last_of(&self, validator: u32) -> Option<LastUnit>
        ensures { result ≡ slice_index_or self.now.last validator None }
    {
        match self.last.get(validator as usize) {
            Some(last) => *last,
            None => None,
        }
    }

    /// Takes a unit of this name for the last one of its creator.
    pub fn note(&mut self, unit: &WireUnit, name: Digest)
        requires creator { unit.now.creator < length self.old.last }
        requires name { name ≡ digest_of unit.now }
        ensures noted { self.new ≡ with_unit self.old unit.now }
    {
        self.last[unit.creator as usize] = Some(LastUnit {
            name,
            seq: unit.seq,
        });
    }
}

/// This many validators that made nothing.
#[tactic(auto, using(std::proofs::lemmas::List::replicate_more))]
fn nothing(alloc: Global, validators: u32) -> Result<Vec<Option<LastUnit>>, OutOfMemory>
    ensures { IfOk result (λ last. last.items ≡ replicate validators None) }
{
    let mut last = Vec::new(alloc);
    for _ in 0..validators {
        last.push(None)?;
    }
    Ok(last)
}

/// The number of the unit after this one, 0 where there is none.
fn seq_behind(last: Option<LastUnit>) -> u64
    requires { seq_behind last < 2 ^ 64 }
    ensures { result ≡ seq_behind last }
{
    match last {
        None => 0,
        Some(last) => last.seq + 1,
    }
}

/// What is observed of a validator whose last unit this is.
fn observed(last: Option<LastUnit>) -> Obs
    ensures { result ≡ observed last }
{
    match last {
        None => Obs::Absent,
        Some(last) => Obs::Correct(last.name),
    }
}

/// What is observed of each validator.
fn observations(alloc: Global, last: &[Option<LastUnit>]) -> Result<ObsList, OutOfMemory>
    ensures { IfOk result (λ list. list ≡ map observed last.now) }
{
    let mut list = Vec::with_capacity(alloc, last.len())?;
    for last in last {
        list.push(observed(*last))?;
    }
    Ok(ObsList::from_vec(list).shared()?)
}
