//! The numbers of a door.
ghost use Rattle.std.specs.Prelude.{◌≡◌};
ghost use Rattle.hw_io.specs.{Faults.{HasCause, raised}, Doors.{ends_after}};

use crate::outside::IoFault;

/// What a door counts.
#[derive(Clone, Copy, Debug, PartialEq, Eq)]
pub struct DoorNumbers {
    /// How many calls of `accept` there were.
    pub accepts: u64,
    /// How many calls of `dial` there were.
    pub dials: u64,
    /// How many calls of `read` answered 0 for a `buf` that isn't empty.
    pub ends: u64,
    /// How many calls failed.
    pub faults: u64,
}

impl DoorNumbers {
    pub fn new() -> DoorNumbers
        ensures { result ≡ record { accepts = 0; dials = 0; ends = 0; faults = 0 } }
    {
        DoorNumbers {
            accepts: 0,
            dials: 0,
            ends: 0,
            faults: 0,
        }
    }

    pub fn count_accept(&mut self)
        ensures { self.new ≡ record self.old { accepts = raised self.old.accepts } }
    {
        self.accepts = self.accepts.saturating_add(1);
    }

    pub fn count_dial(&mut self)
        ensures { self.new ≡ record self.old { dials = raised self.old.dials } }
    {
        self.dials = self.dials.saturating_add(1);
    }

    /// Counts a failure, if the call failed.
    pub fn count_failure<T>(&mut self, outcome: &Result<T, IoFault>)
        ensures cause { HasCause self.old.faults self.new.faults outcome.now }
        ensures rest { self.new ≡ record self.old { faults = self.new.faults } }
    {
        match outcome {
            Err(IoFault::Failed) => self.faults = self.faults.saturating_add(1),
            _ => {}
        }
    }

    /// Counts an end, if the read gave nothing for a buffer with room.
    pub fn count_end(&mut self, outcome: &Result<usize, IoFault>, buf: &[u8])
        ensures { self.new ≡ record self.old { ends = ends_after self.old.ends outcome.now buf.now } }
    {
        match outcome {
            Ok(0) if !buf.is_empty() => self.ends = self.ends.saturating_add(1),
            _ => {}
        }
    }
}
