//! How full the journal of a node is.
ghost use Rattle.std.specs.Prelude.{◌≡◌};
ghost use Rattle.hw_host.specs.Journal.{fill_of};

use std::time::{Duration, Instant};

/// How full a journal is, as far as it is reported.
#[derive(Clone, Copy, Debug, PartialEq, Eq, PartialOrd, Ord)]
pub(crate) enum Fill {
    /// A tenth is left, or more.
    Roomy,
    /// Less than a tenth is left, or just that.
    NineTenths,
    /// A hundredth is left, or less.
    NinetyNine,
    /// Nothing is left.
    Full,
}

/// How full a journal is that has so many of its entries.
fn fill_of(used: u64, limit: u64) -> Fill
    ensures { result ≡ fill_of used limit }
{
    let (used, limit) = (u128::from(used), u128::from(limit));
    if used >= limit {
        Fill::Full
    } else if used * 100 >= limit * 99 {
        Fill::NinetyNine
    } else if used * 10 >= limit * 9 {
        Fill::NineTenths
    } else {
        Fill::Roomy
    }
}

/// How many entries the log of a node has, how many it may have, and since when they are counted.
#[derive(Clone, Copy)]
pub(crate) struct Room {
    limit: u64,
    used: u64,
    at_first: u64,
    began: Instant,
    told: Fill,
}

/// What is said of a journal that is nearly full.
#[derive(Clone, Copy)]
pub(crate) struct Shortage {
    pub(crate) used: u64,
    pub(crate) limit: u64,
    pub(crate) left: u64,
    /// How many entries came in an hour, at the pace since the node began.
    pub(crate) hourly: u64,
    /// In how many minutes nothing is left at that pace, if any came.
    pub(crate) minutes: Option<u64>,
}

impl Room {
    /// A journal of so many entries at most, which has `used` of them now.
    pub(crate) fn new(limit: u64, used: u64, began: Instant) -> Room {
        Room {
            limit,
            used,
            at_first: used,
            began,
            told: Fill::Roomy,
        }
    }

    /// How many entries it has.
    pub(crate) fn used(&self) -> u64 {
        self.used
    }

    /// One entry came.
    pub(crate) fn take(&mut self) {
        self.used = self.used.saturating_add(1);
    }

    /// What is to be said now, if it is fuller than was said.
    pub(crate) fn news(&mut self, now: Instant) -> Option<Shortage> {
        let fill = fill_of(self.used, self.limit);
        if fill <= self.told {
            return None;
        }
        self.told = fill;
        Some(self.shortage(now.duration_since(self.began)))
    }

    /// What is left, and how long that lasts at the pace of this while.
    fn shortage(&self, while_taken: Duration) -> Shortage {
        let seconds = while_taken.as_secs().max(1);
        let came = self.used.saturating_sub(self.at_first);
        let left = self.limit.saturating_sub(self.used);
        Shortage {
            used: self.used,
            limit: self.limit,
            left,
            hourly: came.saturating_mul(3_600) / seconds,
            minutes: (left.saturating_mul(seconds) / 60).checked_div(came),
        }
    }
}
