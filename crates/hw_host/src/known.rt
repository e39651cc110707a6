//! From where vertices came that the node hadn't, and how long all others are let wait.
ghost use Rattle.std.specs.{Prelude.{◌≡◌, ◌+◌, ◌*◌, IfSome}, Duration.{as_nanos}, Time.{instant_nanos}};

use crate::networks::network_of;
use std::alloc::Global;
use std::net::IpAddr;
use std::time::{Duration, Instant};

/// How many networks are kept at most. A journal has 1,024 validators at most.
const KEPT: usize = 1_024;

/// How often the time that a stranger's session took must pass until the next one. So all strangers together take a
/// tenth of the node's time.
const REST: u32 = 9;

/// The networks from which vertices came that the node hadn't. All others are strangers.
#[derive(Drop)]
pub(crate) struct Known {
    networks: Vec<IpAddr>,
    strangers_rest_until: Option<Instant>,
}

impl Known {
    /// No vertex came.
    pub(crate) fn new(alloc: Global) -> Known {
        Known {
            networks: Vec::new(alloc),
            strangers_rest_until: None,
        }
    }

    /// Whether a vertex came from there that the node hadn't.
    pub(crate) fn has(&self, address: IpAddr) -> bool {
        place_of(self.networks.as_slice(), network_of(address)).is_some()
    }

    /// Whether one who comes from there is a stranger. Where nobody is known, nobody is.
    pub(crate) fn is_stranger(&self, address: IpAddr) -> bool {
        !self.networks.is_empty() && !self.has(address)
    }

    /// Whether no stranger is served yet.
    pub(crate) fn is_resting(&self, now: Instant) -> bool {
        match self.strangers_rest_until {
            Some(until) => now < until,
            None => false,
        }
    }

    /// Keeps that a session took this long until now with a peer that came from there, and whether it brought a vertex
    /// that the node hadn't. Where there is no memory for it, that is forgotten.
    pub(crate) fn note(&mut self, address: IpAddr, now: Instant, taken: Duration, is_new: bool) {
        if is_new {
            self.keep(network_of(address));
        } else if self.is_stranger(address) {
            self.strangers_rest_until = rested_after(now, taken);
        }
    }

    /// Keeps a network. Where there is no room, the one that was kept first goes.
    fn keep(&mut self, network: IpAddr) {
        if place_of(self.networks.as_slice(), network).is_some() {
            return;
        }
        if self.networks.len() >= KEPT {
            self.networks.remove(0);
        }
        let _ = self.networks.push(network);
    }
}

/// Where this network is among those that are known.
fn place_of(networks: &[IpAddr], network: IpAddr) -> Option<usize> {
    networks.iter().position(|known| *known == network)
}

/// When the next stranger is served after one whose session took this long until now.
fn rested_after(now: Instant, taken: Duration) -> Option<Instant>
    ensures { IfSome result (λ after. instant_nanos after ≡ instant_nanos now + as_nanos taken * 9) }
{
    now.checked_add(taken.checked_mul(REST)?)
}
