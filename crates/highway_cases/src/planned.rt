//! A consumer that takes the calls of its plan.

ghost use Rattle.std.specs.Prelude.{None};
ghost use Rattle.hw_io.specs.Faults.{HasCause, IsWantCounted};

use hw_case_words::Answer;
use hw_io::{Consumer, IoFault};

/// A consumer that takes the calls of its plan, in order, and at which each other call fails.
#[derive(Drop)]
pub struct Planned {
    plan: String,
    next: usize,
    faults: u64,
}

impl Planned {
    /// The consumer of this plan.
    pub fn new(answer: &mut Answer, plan: &str) -> Planned {
        Planned {
            plan: answer.copy(plan),
            next: 0,
            faults: 0,
        }
    }

    /// The next call of the plan, nothing after the last one.
    fn next_call(&self) -> &str {
        self.plan.as_str().split(',').nth(self.next).unwrap_or("")
    }

    /// Takes a call, if it is the next one of the plan.
    fn answer(&mut self, is_next: bool) -> Result<(), IoFault>
        ensures cause { HasCause self.old.faults self.new.faults result }
        ensures want { IsWantCounted 0 0 result }
    {
        if is_next {
            self.next = self.next.saturating_add(1);
            return Ok(());
        }
        self.faults = self.faults.saturating_add(1);
        Err(IoFault::Failed)
    }
}

impl Consumer for Planned {
    ghost consumed = { λ _. None };

    ghost faults = { λ consumer. consumer.faults };

    ghost wants = { λ _. 0 };

    fn take(&mut self, height: u64, value: &[u8]) -> Result<(), IoFault> {
        let is_next = is_take(self.next_call(), height, value);
        self.answer(is_next)
    }

    fn finish(&mut self) -> Result<(), IoFault> {
        let is_next = self.next_call() == "finish";
        self.answer(is_next)
    }
}

/// Whether the call of a plan gives the block of this height and value.
fn is_take(call: &str, height: u64, value: &[u8]) -> bool {
    match call.split_once(':') {
        Some((planned, bytes)) => planned.parse() == Ok(height) && bytes.as_bytes() == value,
        None => false,
    }
}
