//! Networks from which peers came that hung.
ghost use Rattle.std.specs.{Prelude.{◌≡◌, ◌↔◌, ◌+◌, ◌*◌, max, IsTrue, IfSome}, Duration.{as_nanos}, Time.{instant_nanos}};
ghost use Rattle.hw_host.specs.Patience.{OwesTooMuch};

use crate::networks::network_of;
use std::alloc::Global;
use std::net::IpAddr;
use std::time::{Duration, Instant};

/// How many networks are kept at most. Where one more comes, the one that was kept first goes.
const KEPT: usize = 64;

/// How often the time for which a peer blocked the node must pass until that is paid. So peers of one network that
/// always hang take a twentieth of the node's time, and the short sessions of suspects.
const REST: u32 = 19;

/// How much a network may owe before it is suspect, in milliseconds: what a second of hanging costs. A peer hangs
/// for a moment now and then where the machine, and not the peer, is slow; who means to hang has that second once.
const GRACE_MILLISECONDS: u64 = 19_000;

/// The networks from which peers came that hung.
#[derive(Drop)]
pub(crate) struct Suspects {
    suspects: Vec<Suspect>,
}

/// A network, and when all that its peers blocked is paid.
#[derive(Clone, Copy)]
struct Suspect {
    network: IpAddr,
    paid: Instant,
}

impl Suspects {
    /// No network is suspect.
    pub(crate) fn new(alloc: Global) -> Suspects {
        Suspects {
            suspects: Vec::new(alloc),
        }
    }

    /// Whether the network of this address is suspect now.
    pub(crate) fn has(&self, address: IpAddr, now: Instant) -> bool {
        is_suspect(now, self.paid(network_of(address), now))
    }

    /// When the network owes nothing any more.
    fn paid(&self, network: IpAddr, now: Instant) -> Instant {
        match place_of(self.suspects.as_slice(), network) {
            Some(place) => match self.suspects.get(place) {
                Some(suspect) => suspect.paid,
                None => now,
            },
            None => now,
        }
    }

    /// Keeps that a peer from this address hung, on which the node was blocked for this long until now. Where there
    /// is no memory for it, that is forgotten.
    pub(crate) fn note(&mut self, address: IpAddr, now: Instant, blocked: Duration) {
        let network = network_of(address);
        let Some(paid) = paid_after(now, self.paid(network, now), blocked) else {
            return
        };
        match place_of(self.suspects.as_slice(), network) {
            Some(place) => self.prolong(place, paid),
            None => self.keep(Suspect { network, paid }),
        }
    }

    fn prolong(&mut self, place: usize, paid: Instant) {
        if let Some(suspect) = self.suspects.get_mut(place) {
            suspect.paid = paid;
        }
    }

    fn keep(&mut self, suspect: Suspect) {
        if self.suspects.len() >= KEPT {
            self.suspects.remove(0);
        }
        let _ = self.suspects.push(suspect);
    }
}

/// Where this network is among those that were kept.
fn place_of(suspects: &[Suspect], network: IpAddr) -> Option<usize> {
    for (place, suspect) in suspects.iter().enumerate() {
        if suspect.network == network {
            return Some(place);
        }
    }
    None
}

/// Whether a network is suspect that owes nothing from `paid` on.
fn is_suspect(now: Instant, paid: Instant) -> bool
    ensures { IsTrue result ↔ OwesTooMuch (instant_nanos now) (instant_nanos paid) }
{
    paid.duration_since(now) > Duration::from_millis(GRACE_MILLISECONDS)
}

/// When a network owes nothing any more that would have owed nothing from `paid` on, and on whose peer the node was
/// blocked for this long until now.
fn paid_after(now: Instant, paid: Instant, blocked: Duration) -> Option<Instant>
    ensures { IfSome result (λ after. instant_nanos after ≡ max (instant_nanos now) (instant_nanos paid) + as_nanos blocked * 19) }
{
    let from = if now < paid { paid } else { now };
    from.checked_add(blocked.checked_mul(REST)?)
}
