//! A consumer whose failures are reported to a person.
ghost use Rattle.std.specs.Prelude.{◌≡◌};

use crate::complaints::Voice;
use hw_io::{Consumer, IoFault};

/// A consumer whose failures are reported on standard error, since it is dropped then. It is named by the number
/// that it has in reports.
#[derive(Drop)]
pub struct Announced<R, C> {
    runtime: R,
    number: u64,
    consumer: C,
}

impl<R: Voice, C: Consumer> Announced<R, C> {
    /// This consumer, which has this number.
    pub fn new(runtime: R, number: u64, consumer: C) -> Announced<R, C>
        ensures { result.consumer ≡ consumer }
    {
        Announced {
            runtime,
            number,
            consumer,
        }
    }
}

/// Why a consumer ends.
fn reason(fault: IoFault) -> &'static str {
    match fault {
        IoFault::Failed => "it failed",
        IoFault::OutOfMemory => "out of memory",
    }
}

impl<R: Voice, C: Consumer> Consumer for Announced<R, C> {
    ghost consumed = { λ announced. C.consumed announced.consumer };

    ghost faults = { λ announced. C.faults announced.consumer };

    ghost wants = { λ announced. C.wants announced.consumer };

    fn take(&mut self, height: u64, value: &[u8]) -> Result<(), IoFault> {
        let outcome = self.consumer.take(height, value);
        if let Err(fault) = outcome {
            let (number, reason) = (self.number, reason(fault));
            let _ = eprintln!(self.runtime;
                "highway: consumer {number}: {reason} at height {height}, and is given no block any more"
            );
        }
        outcome
    }

    fn finish(&mut self) -> Result<(), IoFault> {
        let outcome = self.consumer.finish();
        if let Err(fault) = outcome {
            let (number, reason) = (self.number, reason(fault));
            let _ = eprintln!(self.runtime; "highway: consumer {number}: {reason} at the end");
        }
        outcome
    }
}
