//! The clock of the machine. It keeps no record of the moments that it gave.
ghost use Rattle.std.specs.Prelude.{◌^◌, ◌<◌, None};

use crate::log::LogFile;
use hw_io::Clock;
use hw_types::END_OF_TIME;
use std::time::{Duration, Instant, SystemTime, UNIX_EPOCH};
use std::{thread, time};

/// How many milliseconds pass at least between two moments that are given to the turns of a node.
const SHORTEST_PAUSE: u64 = 5;

/// How many milliseconds pass at most, however long a round is.
const LONGEST_PAUSE: u64 = 250;

/// How many times as long as the longest pause a round takes at least.
const PAUSES_A_ROUND: u64 = 8;

/// The clock of a runtime: milliseconds since the beginning of 1970.
///
/// The clock of a node's turns waits before it gives a moment, so that turns have a pace: 5 milliseconds pass at least
/// since the moment before. Where nothing new is in the node's log, twice as long as the last time, but no longer than
/// an eighth of a round, and 250 milliseconds.
#[derive(Drop)]
pub struct HostClock<'a, R: time::Clock> {
    runtime: R,
    turns: Option<Turns<'a>>,
}

/// The pace of the turns of a node: its log, how many entries it had, and when the last turn began.
#[derive(Drop)]
struct Turns<'a> {
    log: &'a LogFile,
    entries: u64,
    began: Option<Instant>,
    pause: u64,
    longest: u64,
}

impl<'a, R: time::Clock> HostClock<'a, R> {
    /// The clock, which doesn't wait.
    pub fn new(runtime: R) -> HostClock<'a, R> {
        HostClock {
            runtime,
            turns: None,
        }
    }

    /// The clock of the turns of the node that has this log, if there is one, and whose shortest round takes so many
    /// milliseconds.
    pub fn of_turns(runtime: R, log: Option<&'a LogFile>, round: u64) -> HostClock<'a, R> {
        let turns = match log {
            Some(log) => Some(Turns::new(log, round)),
            None => None,
        };
        HostClock { runtime, turns }
    }
}

impl<'a> Turns<'a> {
    fn new(log: &'a LogFile, round: u64) -> Turns<'a> {
        Turns {
            log,
            entries: 0,
            began: None,
            pause: SHORTEST_PAUSE,
            longest: (round / PAUSES_A_ROUND)
                .min(LONGEST_PAUSE)
                .max(SHORTEST_PAUSE),
        }
    }

    /// Waits until the next turn may begin. Where the clock fails it doesn't wait.
    fn wait(&mut self, clock: &impl time::Clock) {
        let entries = self.log.appended();
        self.pause = if entries == self.entries {
            self.pause.saturating_mul(2).min(self.longest)
        } else {
            SHORTEST_PAUSE
        };
        self.entries = entries;
        if let Some(began) = self.began {
            if let Ok(taken) = began.elapsed(clock) {
                let left = Duration::from_millis(self.pause).saturating_sub(taken);
                thread::sleep(clock, left);
            }
        }
        self.began = Instant::now(clock).ok();
    }
}

impl<'a, R: time::Clock> Clock for HostClock<'a, R> {
    ghost given = { λ _. None };

    /// The moment, or 0 where the machine's clock fails or is out of range.
    fn now(&mut self) -> u64 {
        if let Some(turns) = &mut self.turns {
            turns.wait(&self.runtime);
        }
        match SystemTime::now(&self.runtime) {
            Ok(time) => milliseconds(time),
            Err(_) => 0,
        }
    }
}

/// The milliseconds since the beginning of 1970, or 0 where they aren't below 2^63.
fn milliseconds(time: SystemTime) -> u64
    ensures { result < 2 ^ 63 }
{
    match time.duration_since(UNIX_EPOCH) {
        Ok(since) => match u64::try_from(since.as_millis()) {
            Ok(moment) if moment < END_OF_TIME => moment,
            _ => 0,
        },
        Err(_) => 0,
    }
}
