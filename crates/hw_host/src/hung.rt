//! Peers that hung when they were dialled.

use crate::patience::Patience;
use std::alloc::Global;
use std::time::{Duration, Instant};

/// How many addresses are kept at most. A run has 16 peers at most.
const KEPT: usize = 64;

/// How often the time that a peer took must pass, where it hung again, before it is dialled again. So a peer
/// that always hangs takes a twentieth of the time in which others could be dialled.
const REST: u32 = 19;

/// The peers that hung the last time that they were dialled.
#[derive(Drop)]
pub(crate) struct HungPeers {
    peers: Vec<HungPeer>,
}

/// A peer that hung: its address, and until when it isn't dialled, if it hung again.
#[derive(Drop)]
struct HungPeer {
    address: String,
    rests_until: Option<Instant>,
}

impl HungPeers {
    /// No peer hung.
    pub(crate) fn new(alloc: Global) -> HungPeers {
        HungPeers {
            peers: Vec::new(alloc),
        }
    }

    /// How much time the peer at this address is given now, or none where it isn't to be dialled yet.
    pub(crate) fn patience(&self, address: &str, now: Instant) -> Option<Patience> {
        match place_of(self.peers.as_slice(), address) {
            Some(place) if is_resting(self.peers.get(place), now) => None,
            Some(_) => Some(Patience::Tenth),
            None => Some(Patience::Full),
        }
    }

    /// Keeps that the peer at this address hung, and took this much time until now. Where there is no memory or
    /// no room for it, that is forgotten.
    pub(crate) fn note(&mut self, address: &str, now: Instant, taken: Duration) {
        match place_of(self.peers.as_slice(), address) {
            Some(place) => self.let_rest(place, now, taken),
            None => self.keep(address),
        }
    }

    fn let_rest(&mut self, place: usize, now: Instant, taken: Duration) {
        if let Some(peer) = self.peers.get_mut(place) {
            peer.rests_until = match taken.checked_mul(REST) {
                Some(rest) => now.checked_add(rest),
                None => None,
            };
        }
    }

    fn keep(&mut self, address: &str) {
        if self.peers.len() >= KEPT {
            return;
        }
        let alloc = *self.peers.allocator();
        if let Ok(address) = String::from_str(alloc, address) {
            let _ = self.peers.push(HungPeer {
                address,
                rests_until: None,
            });
        }
    }

    /// Keeps that a session with the peer at this address ended well.
    pub(crate) fn forgive(&mut self, address: &str) {
        if let Some(place) = place_of(self.peers.as_slice(), address) {
            if place < self.peers.len() {
                self.peers.remove(place);
            }
        }
    }
}

/// Where the peer at this address is among those that hung.
fn place_of(peers: &[HungPeer], address: &str) -> Option<usize> {
    for (place, peer) in peers.iter().enumerate() {
        if peer.address.as_str() == address {
            return Some(place);
        }
    }
    None
}

/// Whether a peer isn't to be dialled yet.
fn is_resting(peer: Option<&HungPeer>, now: Instant) -> bool {
    match peer {
        Some(peer) => match peer.rests_until {
            Some(until) => now < until,
            None => false,
        },
        None => false,
    }
}
