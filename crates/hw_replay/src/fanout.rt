//! The consumers of decided blocks.

ghost use Rattle.std.specs.Prelude.{◌≡◌, ℕ, ◌+◌, ◌-◌, ◌<◌, ◌≤◌, ◌∷◌, ◌++◌, [], length, take, drop, All, slice_index, slice_get, Some, None, OnOk, OnErr, vec_capacity};
ghost use Rattle.std.specs.List.{range_with_len, remove};
ghost use Rattle.hw_replay.specs.{Fates.{seen, AreServed}, Chain.{told_chain}, Told.{HasTaken, IsTold, IsFinished}};

use crate::chain::chain_length;
use crate::ending::{Dropped, Ending};
use crate::one::end;
use crate::telling::tell;
use hw_core::Core;
use hw_io::{Consumer, IoFault};
use hw_types::OutOfMemory;
use std::alloc::Global;
use std::marker::Model;

/// The consumers that are left, how many decided blocks were passed on, and the consumers that were dropped.
#[derive(Drop)]
pub struct FanoutOf<B: Drop> {
    /// How many decided blocks were passed on.
    passed: u64,
    /// The places in the first list of the consumers that are left.
    places: Vec<usize>,
    /// The consumers that were dropped, in the order of dropping. There is room for those that are left.
    drops: Vec<Dropped>,
    /// The dropped consumers themselves, in the same order. None of them is called any more. There is room as
    /// in `drops`.
    gone: Vec<B>,
}

/// The same for boxed consumers.
pub type Fanout = FanoutOf<Box<dyn Consumer>>;

impl<B: Drop> Model for FanoutOf<B> {
    ghost use Rattle.std.specs.Prelude.{ℕ, ◌+◌, ◌≤◌, length, vec_capacity};
    ghost use Rattle.hw_replay.specs.State.{FanoutState};

    ghost Value = { FanoutState B };

    ghost view = { λ f. record { passed = f.passed; places = f.places.items; drops = f.drops.items; gone = f.gone.items } };

    ghost invariant = { λ f. (length f.drops.items + length f.places.items ≤ vec_capacity f.drops) × (length f.gone.items + length f.places.items ≤ vec_capacity f.gone) };
}

impl<B: Drop> FanoutOf<B> {
    /// Nothing is passed on yet, and there is room for no consumer.
    pub fn new(alloc: Global) -> FanoutOf<B>
        ensures { result ≡ record { passed = 0; places = []; drops = []; gone = [] } }
    {
        FanoutOf {
            passed: 0,
            places: Vec::new(alloc),
            drops: Vec::new(alloc),
            gone: Vec::new(alloc),
        }
    }

    /// Makes room for this many consumers in the first list. After `OutOfMemory` nothing has changed.
    pub fn reserve(&mut self, consumers: usize) -> Result<(), OutOfMemory>
        ensures room { OnOk result (self.new.places ≡ self.old.places ++ range_with_len (length self.old.drops + length self.old.places) (consumers - (length self.old.drops + length self.old.places))) }
        ensures drops { OnOk result (self.new.drops ≡ self.old.drops) }
        ensures gone { OnOk result (self.new.gone ≡ self.old.gone) }
        ensures passed { OnOk result (self.new.passed ≡ self.old.passed) }
        ensures unchanged { OnErr result (self.new ≡ self.old) }
    {
        let known = self.drops.len() + self.places.len();
        if consumers > known {
            self.places.reserve(consumers - known)?;
            self.drops.reserve(consumers - self.drops.len())?;
            self.gone.reserve(consumers)?;
            number(&mut self.places, known, consumers);
        }
        Ok(())
    }

    /// Drops the consumer at this index of the list, which failed with this ending. It is kept as it is, and
    /// isn't called again.
    fn drop_out(&mut self, consumers: &mut Vec<B>, index: usize, ending: Ending)
        requires here { index < length consumers.old.items }
        requires room { length consumers.old.items ≤ length self.old.places }
        ensures consumers { consumers.new.items ≡ remove consumers.old.items index }
        ensures passed { self.new.passed ≡ self.old.passed }
        ensures places { self.new.places ≡ remove self.old.places index }
        ensures drops { self.new.drops ≡ self.old.drops ++ record { place = slice_index self.old.places index; ending = ending } ∷ [] }
        ensures gone { self.new.gone ≡ self.old.gone ++ take 1 (drop index consumers.old.items) }
    {
        let place = self.places.remove(index);
        if self.drops.push(Dropped { place, ending }).is_err() {
            unreachable!()
        }
        if self.gone.push(consumers.remove(index)).is_err() {
            unreachable!()
        }
    }

    /// How many consumers were dropped.
    pub fn drop_count(&self) -> usize
        ensures { result ≡ length self.now.drops }
    {
        self.drops.len()
    }

    /// The consumer that was dropped at this place, counted from 0: its place in the first list, the height of
    /// the block that it failed to take, and what it answered. The height is None where it failed to finish.
    pub fn drop_at(&self, index: usize) -> (usize, Option<u64>, IoFault)
        requires { index < length self.now.drops }
        ensures { slice_get self.now.drops index ≡ Some (record { place = result.0; ending = record { height = result.1; fault = result.2 } }) }
    {
        let dropped = self.drops[index];
        (dropped.place, dropped.ending.height, dropped.ending.fault)
    }
}

impl Fanout {
    /// Gives each consumer, in the list's order, the decided blocks that it hasn't taken. One that answers an
    /// error is dropped and leaves the list.
    #[tactic(auto, using(crate::proofs::Serving::begins, crate::proofs::Serving::ends))]
    pub fn pass(&mut self, consumers: &mut Vec<Box<dyn Consumer>>, core: &Core)
        requires room { length consumers.old.items ≤ length self.old.places }
        requires passed { self.old.passed ≤ length (told_chain core.now) }
        ensures told { AreServed (IsTold (seen (λ b. consumed b) (λ b. faults b) (λ b. wants b) (λ b. b.vtable)) (told_chain core.now) self.old.passed) consumers.old.items consumers.new.items self.old self.new }
        ensures passed { self.new.passed ≡ length (told_chain core.now) }
        ensures whole { All (λ b. HasTaken (told_chain core.now) self.old.passed (consumed b)) consumers.old.items → All (λ b. HasTaken (told_chain core.now) (length (told_chain core.now)) (consumed b)) consumers.new.items }
        ensures room { length consumers.new.items ≤ length self.new.places }
    {
        let from = self.passed;
        let mut index = 0;
        while index < consumers.len() {
            match tell(&mut consumers[index], core, from) {
                Ok(()) => index += 1,
                Err(ending) => self.drop_out(consumers, index, ending),
            }
        }
        self.passed = chain_length(core);
    }

    /// Finishes each consumer of the list: no block follows. One that answers an error is dropped and leaves
    /// the list.
    #[tactic(auto, using(crate::proofs::Serving::begins, crate::proofs::Serving::ends))]
    pub fn finish(&mut self, consumers: &mut Vec<Box<dyn Consumer>>)
        requires { length consumers.old.items ≤ length self.old.places }
        ensures finished { AreServed (IsFinished (seen (λ b. consumed b) (λ b. faults b) (λ b. wants b) (λ b. b.vtable))) consumers.old.items consumers.new.items self.old self.new }
        ensures passed { self.new.passed ≡ self.old.passed }
        ensures room { length consumers.new.items ≤ length self.new.places }
    {
        let mut index = 0;
        while index < consumers.len() {
            match end(&mut consumers[index]) {
                Ok(()) => index += 1,
                Err(ending) => self.drop_out(consumers, index, ending),
            }
        }
    }
}

/// Puts the numbers from `from` up to `to`, without `to`, last. There is room for them.
#[tactic(auto, using(crate::proofs::Serving::range_more))]
fn number(places: &mut Vec<usize>, from: usize, to: usize)
    requires order { from ≤ to }
    requires room { length places.old.items + (to - from) ≤ vec_capacity places.old }
    ensures { places.new.items ≡ places.old.items ++ range_with_len from (to - from) }
{
    for place in from..to {
        if places.push(place).is_err() {
            unreachable!()
        }
    }
}
