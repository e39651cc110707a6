//! Connections that came, and who of them is served next.
ghost use Rattle.std.specs.Prelude.{◌≡◌};
ghost use Rattle.hw_host.specs.Waiting.{first_known, first_speaking, first_suspect, next_of};

use crate::known::Known;
use crate::suspects::Suspects;
use std::alloc::{AllocError, Global};
use std::io::ErrorKind;
use std::net::{IpAddr, OpenStream};
use std::time::{Duration, Instant};

/// How many connections wait at most.
const ROOM: usize = 64;

/// How many seconds a connection may be silent.
const SILENT_SECONDS: u64 = 5;

/// Connections that came and weren't served yet, the first one first. They don't block.
#[derive(Drop)]
pub(crate) struct WaitingRoom<S> {
    visitors: Vec<Visitor<S>>,
}

/// A connection, from where and when it came, and its state.
#[derive(Drop)]
pub(crate) struct Visitor<S> {
    pub(crate) stream: S,
    pub(crate) address: IpAddr,
    since: Instant,
    standing: Standing,
}

/// The state of a connection when it was looked at last.
#[derive(Clone, Copy, PartialEq, Eq)]
enum Standing {
    /// It said nothing.
    Silent,
    /// It said a byte, or that it says nothing more, and isn't a stranger.
    Known,
    /// It did so, and is a stranger, or nobody is known.
    Speaking,
    /// It did so, and is a stranger, and none is served yet.
    Resting,
    /// It did so, and its address is suspect.
    Suspect,
    /// It isn't there any more, or was silent for too long.
    Gone,
}

impl Standing {
    ghost use Rattle.hw_host.specs.Waiting.{is_known, is_speaking, is_suspect};

    fn is_known(self) -> bool
        ensures { result ≡ is_known self }
    {
        matches!(self, Standing::Known)
    }

    fn is_speaking(self) -> bool
        ensures { result ≡ is_speaking self }
    {
        matches!(self, Standing::Speaking)
    }

    fn is_suspect(self) -> bool
        ensures { result ≡ is_suspect self }
    {
        matches!(self, Standing::Suspect)
    }

    fn is_there(self) -> bool {
        !matches!(self, Standing::Gone)
    }

    /// Whether one that was looked at is a stranger that waits, or one of whom nothing is known.
    fn is_strange(self) -> bool {
        matches!(self, Standing::Speaking | Standing::Resting)
    }
}

impl<S: OpenStream + Drop> WaitingRoom<S> {
    /// Nobody waits.
    pub(crate) fn new(alloc: Global) -> WaitingRoom<S> {
        WaitingRoom {
            visitors: Vec::new(alloc),
        }
    }

    pub(crate) fn is_empty(&self) -> bool {
        self.visitors.is_empty()
    }

    /// Lets one more wait, which came now. Where there is no room, the first one goes that was suspect when it was
    /// looked at last, or else the first one that was a stranger, or else the first one.
    pub(crate) fn admit(
        &mut self,
        stream: S,
        address: IpAddr,
        now: Instant,
    ) -> Result<(), AllocError> {
        if self.visitors.len() >= ROOM {
            self.crowd_out();
        }
        self.visitors.push(Visitor {
            stream,
            address,
            since: now,
            standing: Standing::Silent,
        })?;
        Ok(())
    }

    fn crowd_out(&mut self) {
        let place = match first_suspect(self.visitors.as_slice()) {
            Some(place) => place,
            None => first_strange(self.visitors.as_slice()).unwrap_or(0),
        };
        if place < self.visitors.len() {
            self.visitors.remove(place);
        }
    }

    /// The next one to be served. Those that are gone, or were silent for too long, are dropped.
    pub(crate) fn next(
        &mut self,
        now: Instant,
        suspects: &Suspects,
        known: &Known,
    ) -> Option<Visitor<S>> {
        for visitor in self.visitors.iter_mut() {
            visitor.standing = standing_of(visitor, now, suspects, known);
        }
        self.visitors.retain(|visitor| visitor.standing.is_there());
        let place = next_of(self.visitors.as_slice())?;
        if place < self.visitors.len() {
            Some(self.visitors.remove(place))
        } else {
            None
        }
    }
}

/// The place of who is served next.
fn next_of<S>(visitors: &[Visitor<S>]) -> Option<usize>
    ensures { result ≡ next_of visitors.now }
{
    match first_known(visitors) {
        Some(place) => Some(place),
        None => match first_speaking(visitors) {
            Some(place) => Some(place),
            None => first_suspect(visitors),
        },
    }
}

/// The place of the first one that said something and is known.
fn first_known<S>(visitors: &[Visitor<S>]) -> Option<usize>
    ensures { result ≡ first_known visitors.now }
{
    visitors
        .iter()
        .position(|visitor| visitor.standing.is_known())
}

/// The place of the first one that was a stranger.
fn first_strange<S>(visitors: &[Visitor<S>]) -> Option<usize> {
    visitors
        .iter()
        .position(|visitor| visitor.standing.is_strange())
}

/// The place of the first one that said something, isn't known and may be served.
fn first_speaking<S>(visitors: &[Visitor<S>]) -> Option<usize>
    ensures { result ≡ first_speaking visitors.now }
{
    visitors
        .iter()
        .position(|visitor| visitor.standing.is_speaking())
}

/// The place of the first suspect that said something.
fn first_suspect<S>(visitors: &[Visitor<S>]) -> Option<usize>
    ensures { result ≡ first_suspect visitors.now }
{
    visitors
        .iter()
        .position(|visitor| visitor.standing.is_suspect())
}

/// The state of a connection now.
fn standing_of<S: OpenStream>(
    visitor: &Visitor<S>,
    now: Instant,
    suspects: &Suspects,
    known: &Known,
) -> Standing {
    let mut first = [0];
    match visitor.stream.peek(&mut first) {
        Ok(_) if known.is_stranger(visitor.address) && known.is_resting(now) => Standing::Resting,
        Ok(_) if suspects.has(visitor.address, now) => Standing::Suspect,
        Ok(_) if known.has(visitor.address) => Standing::Known,
        Ok(_) => Standing::Speaking,
        Err(error) if error.kind() == ErrorKind::WouldBlock && is_patient(visitor.since, now) => {
            Standing::Silent
        }
        Err(_) => Standing::Gone,
    }
}

/// Whether one that came then may still be silent.
fn is_patient(since: Instant, now: Instant) -> bool {
    now.duration_since(since) < Duration::from_secs(SILENT_SECONDS)
}
