//! The addresses of the peers that are dialled, as their names were resolved last.

use std::alloc::{AllocError, Global};
use std::io;
use std::io::ErrorKind;
use std::net::{Net, SocketAddr, TcpStream, ToSocketAddrs};
use std::time::{Duration, Instant};

/// How many names are kept at most. A run has 16 peers at most.
const KEPT: usize = 64;

/// How many seconds pass at least until a name is resolved again whose addresses didn't answer.
const RESOLVED_SECONDS: u64 = 60;

/// The addresses of names, as they were resolved last.
#[derive(Drop)]
pub(crate) struct Addresses {
    alloc: Global,
    names: Vec<Resolved>,
}

/// A name, its addresses, and when they were found.
#[derive(Drop)]
struct Resolved {
    name: String,
    found: Vec<SocketAddr>,
    at: Instant,
    /// Whether one of them answered the last time.
    has_answered: bool,
}

impl Addresses {
    /// No name was resolved.
    pub(crate) fn new(alloc: Global) -> Addresses {
        Addresses {
            alloc,
            names: Vec::new(alloc),
        }
    }

    /// Resolves the name, unless its addresses are known and it isn't time to look again. Where it can't be resolved,
    /// what is known of it stays. It is an error where nothing is.
    pub(crate) fn resolve<R: Net>(
        &mut self,
        runtime: &R,
        name: &str,
        now: Instant,
    ) -> io::Result<()> {
        let place = place_of(self.names.as_slice(), name);
        if let Some(place) = place {
            if is_fresh(self.names.get(place), now) {
                return Ok(());
            }
        }
        match name.to_socket_addrs(runtime) {
            Ok(found) => {
                let mut addresses = Vec::new(self.alloc);
                for address in found {
                    addresses.push(address)?;
                }
                Ok(self.keep(place, name, addresses, now)?)
            }
            Err(error) => match place {
                Some(place) => {
                    self.look_later(place, now);
                    Ok(())
                }
                None => Err(error),
            },
        }
    }

    /// Keeps what was found. Where there is no room, what was kept first goes.
    fn keep(
        &mut self,
        place: Option<usize>,
        name: &str,
        found: Vec<SocketAddr>,
        at: Instant,
    ) -> Result<(), AllocError> {
        let resolved = Resolved {
            name: String::from_str(self.alloc, name)?,
            found,
            at,
            has_answered: true,
        };
        if let Some(place) = place {
            if place < self.names.len() {
                self.names.remove(place);
            }
        }
        if self.names.len() >= KEPT {
            self.names.remove(0);
        }
        self.names.push(resolved)?;
        Ok(())
    }

    fn look_later(&mut self, place: usize, now: Instant) {
        if let Some(resolved) = self.names.get_mut(place) {
            resolved.at = now;
        }
    }

    /// A stream to the peer of this name: the first of its addresses that answers in this while each.
    pub(crate) fn dial<R: Net>(
        &mut self,
        runtime: &R,
        name: &str,
        wait: Duration,
    ) -> io::Result<R::Stream> {
        let Some(place) = place_of(self.names.as_slice(), name) else {
            return Err(ErrorKind::AddrNotAvailable.into());
        };
        let Some(resolved) = self.names.get_mut(place) else {
            return Err(ErrorKind::AddrNotAvailable.into());
        };
        let outcome = first_that_answers(runtime, resolved.found.as_slice(), wait);
        resolved.has_answered = outcome.is_ok();
        outcome
    }
}

/// Where this name is among those that were resolved.
fn place_of(names: &[Resolved], name: &str) -> Option<usize> {
    for (place, resolved) in names.iter().enumerate() {
        if resolved.name.as_str() == name {
            return Some(place);
        }
    }
    None
}

/// Whether a name isn't to be resolved yet.
fn is_fresh(resolved: Option<&Resolved>, now: Instant) -> bool {
    match resolved {
        Some(resolved) => resolved.has_answered
            || now.duration_since(resolved.at) < Duration::from_secs(RESOLVED_SECONDS),
        None => false,
    }
}

/// The stream to the first of these addresses that answers.
fn first_that_answers<R: Net>(
    runtime: &R,
    addresses: &[SocketAddr],
    wait: Duration,
) -> io::Result<R::Stream> {
    let mut outcome = Err(ErrorKind::AddrNotAvailable.into());
    for address in addresses.iter() {
        outcome = TcpStream::connect_timeout(runtime, address, wait);
        if outcome.is_ok() {
            break;
        }
    }
    outcome
}
