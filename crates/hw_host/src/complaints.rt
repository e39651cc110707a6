//! Reports to a person of what went wrong outside.

use std::alloc::AllocError;
use std::time::{Duration, Instant};
use std::{io, time};

/// How many seconds pass at least before a line is printed again.
const QUIET_SECONDS: u64 = 60;

/// How many lines are remembered at most. A run has 16 peers at most, and few other names.
const REMEMBERED: usize = 32;

/// A machine that can print a line to a person, and knows when it did.
pub trait Voice: time::Clock + Eprint + AllocGlobal + Copy {}

impl<R: time::Clock + Eprint + AllocGlobal + Copy> Voice for R {}

/// Reports on standard error what went wrong: `highway: NAME: REASON`, where NAME is that of a file or the
/// address of a peer, and REASON is the system's.
///
/// A line that comes again is printed once a minute at most, with the number of times that it came since.
#[derive(Drop)]
pub(crate) struct Complaints<R: Voice> {
    runtime: R,
    told: Vec<PrintedLine>,
}

/// A line that was printed, when it was printed last, and how often it came since.
#[derive(Drop)]
struct PrintedLine {
    line: String,
    at: Instant,
    more: u64,
}

impl<R: Voice> Complaints<R> {
    /// Nothing was printed yet.
    pub(crate) fn new(runtime: R) -> Complaints<R> {
        let told = Vec::new(runtime.alloc());
        Complaints { runtime, told }
    }

    /// Prints what the system says of this name, unless the line was printed in the last minute.
    pub(crate) fn tell(&mut self, name: &str, error: io::Error) {
        if self.try_tell(name, error).is_err() {
            let _ = eprintln!(self.runtime; "highway: {name}: {error}");
        }
    }

    /// Does so. It is an error where there is no memory or no clock to find out whether the line was printed before.
    fn try_tell(&mut self, name: &str, error: io::Error) -> io::Result<()> {
        let line = format!(in self.runtime.alloc(); "{name}: {error}")?;
        let now = Instant::now(&self.runtime)?;
        match place_of(self.told.as_slice(), line.as_str()) {
            Some(place) => {
                if let Some(told) = self.told.get_mut(place) {
                    tell_again(&self.runtime, told, now);
                }
                Ok(())
            }
            None => Ok(self.tell_first(line, now)?),
        }
    }

    /// Prints a line, and remembers it. Where there is no room, the one that was first printed longest ago is dropped.
    /// Where there is no memory for it, that is an error, and nothing is printed.
    fn tell_first(&mut self, line: String, now: Instant) -> Result<(), AllocError> {
        if self.told.len() >= REMEMBERED {
            self.told.remove(0);
        }
        self.told.reserve(1)?;
        let _ = eprintln!(self.runtime; "highway: {line}");
        self.told.push(PrintedLine {
            line,
            at: now,
            more: 0,
        })?;
        Ok(())
    }
}

/// Where this line is among those that were printed.
fn place_of(told: &[PrintedLine], line: &str) -> Option<usize> {
    for (place, told) in told.iter().enumerate() {
        if told.line.as_str() == line {
            return Some(place);
        }
    }
    None
}

/// Counts a line that came again, and prints it if it wasn't printed for a minute.
fn tell_again<R: Eprint>(runtime: &R, told: &mut PrintedLine, now: Instant) {
    told.more = told.more.saturating_add(1);
    if now.duration_since(told.at) >= Duration::from_secs(QUIET_SECONDS) {
        let (line, more) = (told.line.as_str(), told.more);
        let _ = eprintln!(runtime; "highway: {line} ({more} times more)");
        told.at = now;
        told.more = 0;
    }
}
