//! A door in memory whose peer waits for what is written to it.
ghost use Rattle.std.specs.Prelude.{◌≡◌, ◌<◌, ◌≤◌, ◌++◌, ◌∷◌, [], Some, None, true, false, IfOk, IsErr, IsOk, OnErr, OnOk, is_ok};
ghost use Rattle.std.specs.Io.{ReadsAtMost};
ghost use Rattle.std.specs.Option.{option_map};
ghost use Rattle.hw_io.specs.{Faults.{HasCause, raised}, Sinks.{TakesSome}, Doors.{sessions_after, in_session, after_read, after_write, ends_after}};
ghost use Rattle.hw_doubles.specs.Memory.{fails_next, free_behind};

use crate::door::MemDoor;
use hw_io::{Door, IoFault};
use std::alloc::{AllocError, Global};

/// What a peer holds back until enough was written to it.
#[derive(Clone, Copy)]
pub(crate) struct Hold {
    /// How many bytes it says before.
    said: usize,
    /// How many bytes are to be written first.
    written: usize,
}

/// A `MemDoor` whose peers hold back some of their bytes until so many were written in the session.
///
/// A read gives no byte that is held back. Where the next one is, the read fails: so a link ends on which both
/// sides wait, each for the other. It fails at once, since nothing is written while it waits.
#[derive(Drop)]
pub struct PacedDoor {
    /// The door, whose peers are told of and whose calls are planned as ever.
    pub door: MemDoor,
    holds: Vec<Hold>,
    /// The most bytes that a read gives and a write takes, where no fewer are free.
    piece: usize,
}

impl PacedDoor {
    ghost use Rattle.hw_doubles.specs.Memory.{door_piece, paced_holds, paced_piece, paced_free};

    /// The door, of which nothing is held back.
    pub fn new(alloc: Global, door: MemDoor) -> PacedDoor
        ensures door { result.door ≡ door }
        ensures holds { paced_holds result ≡ [] }
        ensures piece { paced_piece result ≡ door_piece door }
    {
        let piece = door.piece();
        PacedDoor {
            door,
            holds: Vec::new(alloc),
            piece,
        }
    }

    /// In each session the bytes behind the first `said` ones, and the end behind the last, are held back until
    /// `written` bytes were written in it.
    pub fn hold(&mut self, said: usize, written: usize) -> Result<(), AllocError>
        ensures ok { OnOk result (paced_holds self.new ≡ paced_holds self.old ++ record { said = said; written = written } ∷ []) }
        ensures err { OnErr result (paced_holds self.new ≡ paced_holds self.old) }
        ensures door { self.new.door ≡ self.old.door }
        ensures piece { paced_piece self.new ≡ paced_piece self.old }
    {
        self.holds.push(Hold { said, written })?;
        Ok(())
    }

    /// How many of the next bytes aren't held back in the last session.
    fn free(&self) -> usize
        ensures { result ≡ paced_free self.now }
    {
        let count = self.door.sessions().len();
        if count == 0 {
            return usize::MAX;
        }
        let session = &self.door.sessions()[count - 1];
        let (heard, written) = (session.heard().len(), session.written().len());
        free_behind(self.holds.as_slice(), heard, written)
    }
}

/// How many of the next bytes of a session are held back by none of these, after so many that were read and written.
fn free_behind(holds: &[Hold], heard: usize, written: usize) -> usize
    ensures { result ≡ free_behind holds.now heard written }
{
    match holds {
        [hold, rest @ ..] => {
            let free = free_behind(rest, heard, written);
            if written < hold.written {
                free.min(hold.said.saturating_sub(heard))
            } else {
                free
            }
        }
        [] => usize::MAX,
    }
}

impl Door for PacedDoor {
    ghost use Rattle.hw_doubles.specs.Memory.{door_sessions, door_is_open, door_numbers, paced_holds, paced_piece, paced_free};

    ghost sessions = { λ door. Some (door_sessions door.door) };

    ghost asks = { λ _. [] };

    ghost is_open = { λ door. door_is_open door.door };

    ghost accepts = { λ door. (door_numbers door.door).accepts };

    ghost dials = { λ door. (door_numbers door.door).dials };

    ghost ends = { λ door. (door_numbers door.door).ends };

    ghost faults = { λ door. (door_numbers door.door).faults };

    fn accept(&mut self) -> Result<(), IoFault>
        ensures holds { paced_holds self.new ≡ paced_holds self.old }
        ensures piece { paced_piece self.new ≡ paced_piece self.old }

        ensures sessions { Some (door_sessions self.new.door) ≡ option_map (sessions_after None result) (Some (door_sessions self.old.door)) }
        ensures session { door_is_open self.new.door ≡ is_ok result }
        ensures accepts { (door_numbers self.new.door).accepts ≡ raised (door_numbers self.old.door).accepts }
        ensures cause { HasCause (door_numbers self.old.door).faults (door_numbers self.new.door).faults result }
        ensures dials { (door_numbers self.new.door).dials ≡ (door_numbers self.old.door).dials }
        ensures ends { (door_numbers self.new.door).ends ≡ (door_numbers self.old.door).ends }
    {
        self.door.accept()
    }

    fn dial(&mut self, address: &str) -> Result<(), IoFault>
        ensures holds { paced_holds self.new ≡ paced_holds self.old }
        ensures piece { paced_piece self.new ≡ paced_piece self.old }

        ensures sessions { Some (door_sessions self.new.door) ≡ option_map (sessions_after (Some address.now) result) (Some (door_sessions self.old.door)) }
        ensures session { door_is_open self.new.door ≡ is_ok result }
        ensures dials { (door_numbers self.new.door).dials ≡ raised (door_numbers self.old.door).dials }
        ensures cause { HasCause (door_numbers self.old.door).faults (door_numbers self.new.door).faults result }
        ensures accepts { (door_numbers self.new.door).accepts ≡ (door_numbers self.old.door).accepts }
        ensures ends { (door_numbers self.new.door).ends ≡ (door_numbers self.old.door).ends }
    {
        self.door.dial(address)
    }

    fn read(&mut self, buf: &mut [u8]) -> Result<usize, IoFault>
        ensures held { paced_free self.old ≡ 0 → IsErr result }
        ensures free { IfOk result (λ count. count ≤ paced_free self.old) }
        ensures sure { 0 < paced_free self.old → fails_next self.old.door.plan ≡ false → door_is_open self.old.door ≡ true → IsOk result }
        ensures holds { paced_holds self.new ≡ paced_holds self.old }
        ensures piece { paced_piece self.new ≡ paced_piece self.old }

        ensures bound { ReadsAtMost result buf.new }
        ensures sessions { Some (door_sessions self.new.door) ≡ option_map (in_session (door_is_open self.old.door) (after_read result buf.new)) (Some (door_sessions self.old.door)) }
        ensures none { door_is_open self.old.door ≡ false → IsErr result }
        ensures ends { (door_numbers self.new.door).ends ≡ ends_after (door_numbers self.old.door).ends result buf.new }
        ensures cause { HasCause (door_numbers self.old.door).faults (door_numbers self.new.door).faults result }
        ensures session { door_is_open self.new.door ≡ door_is_open self.old.door }
        ensures accepts { (door_numbers self.new.door).accepts ≡ (door_numbers self.old.door).accepts }
        ensures dials { (door_numbers self.new.door).dials ≡ (door_numbers self.old.door).dials }
    {
        let free = self.free();
        if free == 0 {
            self.door.stall();
            return Err(IoFault::Failed);
        }
        self.door.set_piece(self.piece.min(free));
        self.door.read(buf)
    }

    fn write(&mut self, bytes: &[u8]) -> Result<usize, IoFault>
        ensures holds { paced_holds self.new ≡ paced_holds self.old }
        ensures piece { paced_piece self.new ≡ paced_piece self.old }

        ensures some { TakesSome result bytes.now }
        ensures sessions { Some (door_sessions self.new.door) ≡ option_map (in_session (door_is_open self.old.door) (after_write result bytes.now)) (Some (door_sessions self.old.door)) }
        ensures none { door_is_open self.old.door ≡ false → IsErr result }
        ensures cause { HasCause (door_numbers self.old.door).faults (door_numbers self.new.door).faults result }
        ensures session { door_is_open self.new.door ≡ door_is_open self.old.door }
        ensures accepts { (door_numbers self.new.door).accepts ≡ (door_numbers self.old.door).accepts }
        ensures dials { (door_numbers self.new.door).dials ≡ (door_numbers self.old.door).dials }
        ensures ends { (door_numbers self.new.door).ends ≡ (door_numbers self.old.door).ends }
    {
        self.door.set_piece(self.piece);
        self.door.write(bytes)
    }

    fn hang_up(&mut self)
        ensures holds { paced_holds self.new ≡ paced_holds self.old }
        ensures piece { paced_piece self.new ≡ paced_piece self.old }
        ensures plan { self.new.door.plan ≡ self.old.door.plan }

        ensures session { door_is_open self.new.door ≡ false }
        ensures sessions { Some (door_sessions self.new.door) ≡ Some (door_sessions self.old.door) }
        ensures faults { (door_numbers self.new.door).faults ≡ (door_numbers self.old.door).faults }
        ensures accepts { (door_numbers self.new.door).accepts ≡ (door_numbers self.old.door).accepts }
        ensures dials { (door_numbers self.new.door).dials ≡ (door_numbers self.old.door).dials }
        ensures ends { (door_numbers self.new.door).ends ≡ (door_numbers self.old.door).ends }
    {
        self.door.hang_up();
    }
}
