//! The calls that are to fail.
ghost use Rattle.std.specs.Prelude.{◌≡◌, ◌++◌, ◌∷◌, [], OnOk, OnErr};
ghost use Rattle.hw_doubles.specs.Memory.{planned_calls, calls_made, fails_next, after_call};

use std::alloc::{AllocError, Global};

/// Which calls of an object in memory are to fail. It counts the calls, from 0.
#[derive(Drop)]
pub struct Plan {
    planned: Vec<u64>,
    calls: u64,
}

impl Plan {
    /// No call is to fail, and none was made.
    pub(crate) fn new(alloc: Global) -> Plan
        ensures planned { planned_calls result ≡ [] }
        ensures calls { calls_made result ≡ 0 }
    {
        Plan {
            planned: Vec::new(alloc),
            calls: 0,
        }
    }

    /// Plans that the call of this number fails.
    pub fn fail_at(&mut self, call: u64) -> Result<(), AllocError>
        ensures ok { OnOk result (planned_calls self.new ≡ planned_calls self.old ++ call ∷ []) }
        ensures err { OnErr result (planned_calls self.new ≡ planned_calls self.old) }
        ensures calls { calls_made self.new ≡ calls_made self.old }
    {
        self.planned.push(call)?;
        Ok(())
    }

    /// Counts a call, and answers whether it is to fail.
    pub(crate) fn next_call(&mut self) -> bool
        ensures planned { result ≡ fails_next self.old }
        ensures rest { self.new ≡ after_call self.old }
    {
        let call = self.calls;
        self.calls = call.saturating_add(1);
        self.planned.contains(&call)
    }
}
