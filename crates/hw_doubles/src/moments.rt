//! A clock whose moments are set beforehand.
ghost use Rattle.std.specs.Prelude.{◌≡◌, ℕ, ◌+◌, ◌^◌, ◌<◌, List, All};
ghost use Rattle.hw_io.specs.{Faults.{raised}, Moments.{GivesMoment}};
ghost use Rattle.hw_doubles.specs.SetMoments.{SetMoments, moment_at, moments_given};

use hw_io::Clock;
use std::marker::Model;

/// A clock that gives its moments in turn, then the last one again and again, and 0 where it has
/// none.
///
/// Contracts see it as the list of its moments and the number of calls so far. It tells the moments
/// that it gave until that number is at the end of a `u64`.
#[derive(Drop)]
pub struct SetClock {
    moments: Vec<u64>,
    calls: u64,
}

impl Model for SetClock {
    ghost Value = { SetMoments };

    ghost view = { λ c. record { moments = c.moments.items; calls = c.calls } };

    ghost invariant = { λ c. All (λ m. m < 2 ^ 63) c.moments.items };
}

impl SetClock {
    /// A clock that gives these moments, in milliseconds.
    pub fn new(moments: Vec<u64>) -> SetClock
        requires range { All (λ m. m < 2 ^ 63) moments.items }
        ensures moments { result ≡ record { moments = moments.items; calls = 0 } }
    {
        SetClock { moments, calls: 0 }
    }
}

impl Clock for SetClock {
    ghost given = { moments_given };

    #[tactic(auto, using(crate::proofs::Given::moment_found, crate::proofs::Given::gives_next))]
    fn now(&mut self) -> u64
        ensures range { result < 2 ^ 63 }
        ensures given { GivesMoment (moments_given self.old) (moments_given self.new) result }
        ensures moment { result ≡ moment_at self.old.moments self.old.calls }
        ensures rest { self.new ≡ record self.old { calls = raised self.old.calls } }
    {
        let moment = moment_of(self.moments.as_slice(), self.calls);
        self.calls = self.calls.saturating_add(1);
        moment
    }
}

/// The moment of the call of that number.
fn moment_of(moments: &[u64], call: u64) -> u64
    requires range { All (λ m. m < 2 ^ 63) moments.now }
    ensures range { result < 2 ^ 63 }
    ensures moment { result ≡ moment_at moments.now call }
{
    if moments.is_empty() {
        return 0;
    }
    let last = moments.len() - 1;
    if call < last as u64 {
        moments[call as usize]
    } else {
        moments[last]
    }
}
