//! A consumer that takes the calls of its plan.

ghost use Rattle.std.specs.Prelude.{None};
ghost use Rattle.hw_io.specs.Faults.{HasCause, IsWantCounted};

use hw_io::{Consumer, IoFault};
use hw_types::OutOfMemory;
use std::alloc::Global;

/// A call that a consumer takes.
#[derive(Drop)]
enum Call {
    Take { height: u64, value: Vec<u8> },
    Finish,
}

/// A consumer that takes the calls of its plan, in order, and no other.
#[derive(Drop)]
pub struct Planned {
    calls: Vec<Call>,
    next: usize,
    /// Whether another call finds no memory.
    for_memory: bool,
    faults: u64,
    wants: u64,
}

/// The consumer of this plan.
pub fn consumer_of(alloc: Global, plan: &str) -> Result<Planned, OutOfMemory> {
    let mut calls = Vec::new(alloc);
    let mut for_memory = false;
    for word in plan.split(',') {
        if word == "finish" {
            calls.push(Call::Finish)?;
        } else if word == "memory" {
            for_memory = true;
        } else if let Some((height, value)) = word.split_once(':') {
            let Ok(value) = hex::decode(alloc, value) else {
                return Err(OutOfMemory);
            };
            let height = height.parse().unwrap_or(0);
            calls.push(Call::Take { height, value })?;
        }
    }
    Ok(Planned {
        calls,
        next: 0,
        for_memory,
        faults: 0,
        wants: 0,
    })
}

impl Planned {
    /// Takes a call, if it is the next one of the plan.
    fn answer(&mut self, is_next: bool) -> Result<(), IoFault>
        ensures cause { HasCause self.old.faults self.new.faults result }
        ensures want { IsWantCounted self.old.wants self.new.wants result }
    {
        if is_next {
            self.next = self.next.saturating_add(1);
            return Ok(());
        }
        if self.for_memory {
            self.wants = self.wants.saturating_add(1);
            return Err(IoFault::OutOfMemory);
        }
        self.faults = self.faults.saturating_add(1);
        Err(IoFault::Failed)
    }
}

impl Consumer for Planned {
    ghost consumed = { λ _. None };

    ghost faults = { λ consumer. consumer.faults };

    ghost wants = { λ consumer. consumer.wants };

    fn take(&mut self, height: u64, value: &[u8]) -> Result<(), IoFault> {
        let is_next = match self.calls.get(self.next) {
            Some(
                Call::Take {
                    height: planned,
                    value: bytes,
                },
            ) => *planned == height && bytes.as_slice() == value,
            Some(Call::Finish) | None => false,
        };
        self.answer(is_next)
    }

    fn finish(&mut self) -> Result<(), IoFault> {
        let is_next = match self.calls.get(self.next) {
            Some(Call::Finish) => true,
            Some(Call::Take { .. }) | None => false,
        };
        self.answer(is_next)
    }
}
