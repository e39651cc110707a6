//! A peer that a node dials.

ghost use Rattle.std.specs.Prelude.{◌≡◌, IfOk, string_bytes};

use hw_session::PeerMark;
use hw_types::OutOfMemory;
use std::alloc::Global;

/// A peer that is dialled in each turn.
#[derive(Drop)]
pub struct Peer {
    /// Where it is dialled.
    pub address: String,
    /// How far the node and the peer have sent each other their journals.
    pub mark: PeerMark,
}

impl Peer {
    /// A peer at this address, which has sent nothing and was sent nothing.
    pub fn new(alloc: Global, address: &str) -> Result<Peer, OutOfMemory>
        ensures { IfOk result (λ peer. (string_bytes peer.address ≡ address.now) × (peer.mark ≡ record { pushed = 0; pulled = 0 })) }
    {
        Ok(Peer {
            address: String::from_str(alloc, address)?,
            mark: PeerMark {
                pushed: 0,
                pulled: 0,
            },
        })
    }
}
