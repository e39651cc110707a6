//! How long the door waits after calls that failed.
ghost use Rattle.std.specs.Prelude.{◌≡◌};
ghost use Rattle.hw_host.specs.Failures.{pause_after};

use std::alloc::Global;

/// How many milliseconds it waits for each failure in a row.
const STEP_MILLISECONDS: u64 = 100;

/// How many milliseconds it waits at most.
const LONGEST_MILLISECONDS: u64 = 3_000;

/// How many milliseconds pass after so many failures in a row, until the next call.
pub(crate) fn pause_after(failures: u64) -> u64
    ensures { result ≡ pause_after failures }
{
    failures
        .saturating_mul(STEP_MILLISECONDS)
        .min(LONGEST_MILLISECONDS)
}

/// The failures since a peer was reached. They are counted in rounds: a round ends where the peer fails again that
/// failed first. So while one of several peers is reached, nobody waits.
#[derive(Drop)]
pub(crate) struct Failures {
    alloc: Global,
    first: Option<String>,
    rounds: u64,
}

impl Failures {
    /// None failed.
    pub(crate) fn new(alloc: Global) -> Failures {
        Failures {
            alloc,
            first: None,
            rounds: 0,
        }
    }

    /// A peer was reached.
    pub(crate) fn end(&mut self) {
        self.first = None;
        self.rounds = 0;
    }

    /// The peer at this address failed. How many milliseconds pass until the next call. Where there is no memory to
    /// keep the address, each failure ends a round.
    pub(crate) fn note(&mut self, address: &str) -> u64 {
        match &self.first {
            Some(first) if first.as_str() != address => 0,
            Some(_) => self.end_round(),
            None => match String::from_str(self.alloc, address) {
                Ok(first) => {
                    self.first = Some(first);
                    0
                }
                Err(_) => self.end_round(),
            },
        }
    }

    fn end_round(&mut self) -> u64 {
        self.rounds = self.rounds.saturating_add(1);
        pause_after(self.rounds)
    }
}
