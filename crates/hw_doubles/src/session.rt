//! A session in memory.
ghost use Rattle.std.specs.{Prelude.{◌≡◌, ◌≤◌, ◌++◌, length, max, take, string_bytes, IfErr}, Option.{option_map, option_copied}};
ghost use Rattle.hw_io.specs.{Sinks.{TakesSome}, Doors.{Session, fresh_session, with_failure, after_write}};

use crate::shelf::{copy_front, rest_of};
use hw_io::IoFault;
use std::alloc::Global;
use std::marker::Model;

/// A session of a door in memory.
///
/// Contracts see it as the address dialled, if any, the bytes read and the bytes written in it, and
/// whether a call failed in it.
#[derive(Drop)]
pub struct MemSession {
    address: Option<String>,
    said: Vec<u8>,
    given: usize,
    written: Vec<u8>,
    failed: bool,
}

impl Model for MemSession {
    ghost Value = { Session };

    ghost view = { λ s. record { address = option_map string_bytes s.address; read = take s.given s.said.items; written = s.written.items; failed = s.failed } };

    ghost invariant = { λ s. s.given ≤ length s.said.items };
}

impl MemSession {
    /// A session that begins, in which the peer says these bytes.
    pub(crate) fn new(alloc: Global, address: Option<String>, said: Vec<u8>) -> MemSession
        ensures { result ≡ fresh_session (option_map string_bytes address) }
    {
        MemSession {
            address,
            said,
            given: 0,
            written: Vec::new(alloc),
            failed: false,
        }
    }

    /// The address that was dialled, or none where the peer came.
    pub fn address(&self) -> Option<&str>
        ensures { option_copied result ≡ self.now.address }
    {
        match &self.address {
            Some(address) => Some(address.as_str()),
            None => None,
        }
    }

    /// The bytes that were read.
    pub fn heard(&self) -> &[u8]
        ensures { result.now ≡ self.now.read }
    {
        let given = self.given;
        &self.said.as_slice()[..given]
    }

    /// The bytes that were written.
    pub fn written(&self) -> &[u8]
        ensures { result.now ≡ self.now.written }
    {
        self.written.as_slice()
    }

    /// Whether a call failed in it.
    pub fn has_failed(&self) -> bool
        ensures { result ≡ self.now.failed }
    {
        self.failed
    }

    /// Reads the next bytes that the peer says, at most `piece` of them, or one where that is 0.
    pub(crate) fn hear(&mut self, buf: &mut [u8], piece: usize) -> usize
        ensures bound { result ≤ length buf.new }
        ensures piece { result ≤ max piece 1 }
        ensures heard { self.new ≡ record self.old { read = self.old.read ++ take result buf.new } }
    {
        let rest = rest_of(self.said.as_slice(), self.given);
        let count = rest.len().min(buf.len()).min(piece.max(1));
        copy_front(rest, buf, count);
        self.given += count;
        count
    }

    /// Takes the first bytes, at most `piece` of them, or one where that is 0. It is an error only for
    /// want of memory.
    pub(crate) fn tell(&mut self, bytes: &[u8], piece: usize) -> Result<usize, IoFault>
        ensures some { TakesSome result bytes.now }
        ensures told { self.new ≡ after_write result bytes.now self.old }
        ensures cause { IfErr result (λ fault. fault ≡ IoFault.OutOfMemory) }
    {
        let count = bytes.len().min(piece.max(1));
        match self.written.extend_from_slice(&bytes[..count]) {
            Ok(()) => Ok(count),
            Err(_) => Err(IoFault::OutOfMemory),
        }
    }

    /// Keeps that a call failed in it.
    pub(crate) fn fail(&mut self)
        ensures { self.new ≡ with_failure self.old }
    {
        self.failed = true;
    }
}
