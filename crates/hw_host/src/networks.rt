//! From where a peer came.

use std::net::{IpAddr, Ipv6Addr};

/// The network of an address: all who come from it are one to the node. It is an IPv4 address as it is, also one that
/// is written as an IPv6 address, and of an IPv6 address the first 64 bits, since one host may have all the others.
pub(crate) fn network_of(address: IpAddr) -> IpAddr {
    match address.to_canonical() {
        IpAddr::V4(address) => IpAddr::V4(address),
        IpAddr::V6(address) => {
            let [a, b, c, d, ..] = address.segments();
            IpAddr::V6(Ipv6Addr::new(a, b, c, d, 0, 0, 0, 0))
        }
    }
}
