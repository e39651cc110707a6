//! A door in memory that tells each call of `read`.
ghost use Rattle.std.specs.Prelude.{◌≡◌, [], Some, IfOk};
ghost use Rattle.hw_io.specs.Doors.{Ask, ask_in, IsAskedNow, AsksMore};

use crate::door::MemDoor;
use crate::session::MemSession;
use hw_io::{Door, DoorNumbers, IoFault};
use std::alloc::{AllocError, Global};
use std::marker::Model;

/// What had been read of a session when `read` was called, and what had been written.
///
/// Contracts see it as these bytes.
#[derive(Drop)]
pub struct MemAsk {
    heard: Vec<u8>,
    said: Vec<u8>,
}

impl Model for MemAsk {
    ghost Value = { Ask };

    ghost view = { λ ask. record { heard = ask.heard.items; said = ask.said.items } };
}

impl MemAsk {
    /// A call that is made in this session as it stands.
    fn of(alloc: Global, session: &MemSession) -> Result<MemAsk, AllocError>
        ensures { IfOk result (λ ask. ask ≡ ask_in session.now) }
    {
        let heard = Vec::from_slice(alloc, session.heard())?;
        let said = Vec::from_slice(alloc, session.written())?;
        Ok(MemAsk { heard, said })
    }

    /// The bytes that had been read.
    pub fn heard(&self) -> &[u8]
        ensures { result.now ≡ self.now.heard }
    {
        self.heard.as_slice()
    }

    /// The bytes that had been written.
    pub fn said(&self) -> &[u8]
        ensures { result.now ≡ self.now.said }
    {
        self.said.as_slice()
    }
}

/// A `MemDoor` that tells the calls of `read` in the last session too. It keeps copies of the bytes, and leaves out
/// a call for which there was no memory.
#[derive(Drop)]
pub struct WatchedDoor {
    door: MemDoor,
    alloc: Global,
    asks: Vec<MemAsk>,
}

impl WatchedDoor {
    ghost use Rattle.hw_doubles.specs.Memory.{door_sessions, watched_sessions, watched_asks};

    /// The door, of which no call of `read` is told yet.
    pub fn new(alloc: Global, door: MemDoor) -> WatchedDoor
        ensures sessions { watched_sessions result ≡ door_sessions door }
        ensures asks { watched_asks result ≡ [] }
    {
        WatchedDoor {
            door,
            alloc,
            asks: Vec::new(alloc),
        }
    }

    /// The sessions so far, the last one last.
    pub fn sessions(&self) -> &[MemSession]
        ensures { result.now ≡ watched_sessions self.now }
    {
        self.door.sessions()
    }

    /// The calls of `read` in the last session, as far as they are kept.
    pub fn asks(&self) -> &[MemAsk]
        ensures { result.now ≡ watched_asks self.now }
    {
        self.asks.as_slice()
    }

    /// Keeps that `read` is called, if there is memory for it.
    fn keep_ask(&mut self)
        ensures asks { AsksMore (IsAskedNow (Some (watched_sessions self.old))) (watched_asks self.old) (watched_asks self.new) }
        ensures rest { self.new.door ≡ self.old.door }
    {
        let count = self.door.sessions().len();
        if count == 0 {
            return;
        }
        if let Ok(ask) = MemAsk::of(self.alloc, &self.door.sessions()[count - 1]) {
            let _kept = self.asks.push(ask);
        }
    }
}

impl Door for WatchedDoor {
    ghost use Rattle.hw_doubles.specs.Memory.{watched_sessions, watched_asks, door_is_open, door_numbers};

    ghost sessions = { λ door. Some (watched_sessions door) };

    ghost asks = { watched_asks };

    ghost is_open = { λ door. door_is_open door.door };

    ghost accepts = { λ door. (door_numbers door.door).accepts };

    ghost dials = { λ door. (door_numbers door.door).dials };

    ghost ends = { λ door. (door_numbers door.door).ends };

    ghost faults = { λ door. (door_numbers door.door).faults };

    fn accept(&mut self) -> Result<(), IoFault> {
        self.asks.clear();
        self.door.accept()
    }

    fn dial(&mut self, address: &str) -> Result<(), IoFault> {
        self.asks.clear();
        self.door.dial(address)
    }

    fn read(&mut self, buf: &mut [u8]) -> Result<usize, IoFault> {
        self.keep_ask();
        self.door.read(buf)
    }

    fn write(&mut self, bytes: &[u8]) -> Result<usize, IoFault> {
        self.door.write(bytes)
    }

    fn hang_up(&mut self) {
        self.door.hang_up();
    }
}
