//! A consumer in memory, which tells what it took.
ghost use Rattle.std.specs.{Prelude.{◌≡◌, ◌++◌, ◌∷◌, ℕ, List, [], Some, false, IsOk, OnOk, OnErr, vec_len}, Option.{option_map}};
ghost use Rattle.hw_io.specs.{Faults.{HasCause, IsWantCounted, raised}, declared.outside.IoFault.TheVariants.{OutOfMemory}, Consumers.{Consumed, after_take, after_finish}};
ghost use Rattle.hw_doubles.specs.Memory.{fails_next, after_call, FailsAsPlanned, FailsForMemory};

use crate::plan::Plan;
use hw_io::{Consumer, IoFault};
use std::alloc::{AllocError, Global};
use std::marker::Model;

/// A block that a consumer took. Contracts see it as the pair of its height and its value.
#[derive(Drop)]
pub struct TakenBlock {
    height: u64,
    value: Vec<u8>,
}

impl Model for TakenBlock {
    ghost use Rattle.std.specs.Prelude.{ℕ, List};

    ghost Value = { ℕ × List ℕ };

    ghost view = { λ b. (b.height, b.value.items) };
}

impl TakenBlock {
    /// The height of the block.
    pub fn height(&self) -> u64
        ensures { result ≡ self.now.0 }
    {
        self.height
    }

    /// The value of the block.
    pub fn value(&self) -> &[u8]
        ensures { result.now ≡ self.now.1 }
    {
        self.value.as_slice()
    }
}

/// A consumer that keeps what it took. Each call counts, from 0, and those that are planned fail.
#[derive(Drop)]
pub struct ListConsumer {
    blocks: Vec<TakenBlock>,
    finishes: u64,
    /// The calls that are to fail.
    pub plan: Plan,
    faults: u64,
    wants: u64,
}

impl ListConsumer {
    ghost use Rattle.hw_doubles.specs.Memory.{list_consumed, list_planned, list_calls, list_faults, list_wants};

    /// Nothing was taken, and no call is to fail.
    pub fn new(alloc: Global) -> ListConsumer
        ensures consumed { list_consumed result ≡ record { pairs = []; finishes = 0 } }
        ensures planned { list_planned result ≡ [] }
        ensures calls { list_calls result ≡ 0 }
        ensures faults { list_faults result ≡ 0 }
        ensures wants { list_wants result ≡ 0 }
    {
        ListConsumer {
            blocks: Vec::new(alloc),
            finishes: 0,
            plan: Plan::new(alloc),
            faults: 0,
            wants: 0,
        }
    }

    /// The blocks taken, the last one last.
    pub fn blocks(&self) -> &[TakenBlock]
        ensures { result.now ≡ (list_consumed self.now).pairs }
    {
        self.blocks.as_slice()
    }

    /// How many calls of `finish` succeeded.
    pub fn finishes(&self) -> u64
        ensures { result ≡ (list_consumed self.now).finishes }
    {
        self.finishes
    }

    /// How many calls failed.
    pub fn faults(&self) -> u64
        ensures { result ≡ list_faults self.now }
    {
        self.faults
    }

    /// Counts a call. It is an error where the call is to fail, which is counted.
    fn next_call(&mut self) -> Result<(), IoFault>
        ensures planned { FailsAsPlanned (fails_next self.old.plan) result }
        ensures sure { fails_next self.old.plan ≡ false → IsOk result }
        ensures plan { self.new.plan ≡ after_call self.old.plan }
        ensures cause { HasCause self.old.faults self.new.faults result }
        ensures wants { self.new.wants ≡ self.old.wants }
        ensures blocks { self.new.blocks ≡ self.old.blocks }
        ensures finishes { self.new.finishes ≡ self.old.finishes }
    {
        if self.plan.next_call() {
            self.faults = self.faults.saturating_add(1);
            return Err(IoFault::Failed);
        }
        Ok(())
    }

    /// Keeps a block.
    fn keep(&mut self, height: u64, value: &[u8]) -> Result<(), AllocError>
        ensures ok { OnOk result (self.new.blocks.items ≡ self.old.blocks.items ++ (height, value.now) ∷ []) }
        ensures err { OnErr result (self.new.blocks.items ≡ self.old.blocks.items) }
        ensures finishes { self.new.finishes ≡ self.old.finishes }
        ensures faults { self.new.faults ≡ self.old.faults }
        ensures wants { self.new.wants ≡ self.old.wants }
        ensures plan { self.new.plan ≡ self.old.plan }
    {
        let value = Vec::from_slice(*self.blocks.allocator(), value)?;
        self.blocks.push(TakenBlock { height, value })?;
        Ok(())
    }

    /// Counts a call that found no memory.
    fn want_memory(&mut self) -> IoFault
        ensures fault { result ≡ OutOfMemory }
        ensures rest { self.new ≡ record self.old { wants = raised self.old.wants } }
    {
        self.wants = self.wants.saturating_add(1);
        IoFault::OutOfMemory
    }
}

impl Consumer for ListConsumer {
    ghost consumed = { λ consumer. Some (record { pairs = consumer.blocks.items; finishes = consumer.finishes }) };

    ghost faults = { λ consumer. consumer.faults };

    ghost wants = { λ consumer. consumer.wants };

    fn take(&mut self, height: u64, value: &[u8]) -> Result<(), IoFault>
        ensures planned { FailsAsPlanned (fails_next self.old.plan) result }
        ensures sure { FailsForMemory (fails_next self.old.plan) result }
        ensures plan { self.new.plan ≡ after_call self.old.plan }

        ensures consumed { Some (record { pairs = self.new.blocks.items; finishes = self.new.finishes }) ≡ option_map (after_take height value.now result) (Some (record { pairs = self.old.blocks.items; finishes = self.old.finishes })) }
        ensures cause { HasCause self.old.faults self.new.faults result }
        ensures want { IsWantCounted self.old.wants self.new.wants result }
    {
        self.next_call()?;
        match self.keep(height, value) {
            Ok(()) => Ok(()),
            Err(_) => Err(self.want_memory()),
        }
    }

    /// Where the number of finishes is at the end of a `u64` there is no memory for one more.
    fn finish(&mut self) -> Result<(), IoFault>
        ensures planned { FailsAsPlanned (fails_next self.old.plan) result }
        ensures sure { FailsForMemory (fails_next self.old.plan) result }
        ensures plan { self.new.plan ≡ after_call self.old.plan }

        ensures consumed { Some (record { pairs = self.new.blocks.items; finishes = self.new.finishes }) ≡ option_map (after_finish result) (Some (record { pairs = self.old.blocks.items; finishes = self.old.finishes })) }
        ensures cause { HasCause self.old.faults self.new.faults result }
        ensures want { IsWantCounted self.old.wants self.new.wants result }
    {
        self.next_call()?;
        match self.finishes.checked_add(1) {
            Some(finishes) => {
                self.finishes = finishes;
                Ok(())
            }
            None => Err(self.want_memory()),
        }
    }
}
