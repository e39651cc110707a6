//! Doors in memory, which tell their sessions.
ghost use Rattle.std.specs.Prelude.{◌≡◌, ◌≤◌, ℕ, [], Some, None, true, false, max, IfErr, IfOk, IsErr, IsOk, IsSome, length, is_ok};
ghost use Rattle.std.specs.Io.{ReadsAtMost};
ghost use Rattle.std.specs.Option.{option_map};
ghost use Rattle.hw_io.specs.{Faults.{HasCause, raised}, Sinks.{TakesSome}, Doors.{Session, sessions_after, after_read, after_write, in_session, with_failure, ends_after}};
ghost use Rattle.hw_doubles.specs.Memory.{fails_next, after_call, FailsAsPlanned, FailsForMemory, CountsFailure};

use crate::book::SessionBook;
use crate::plan::Plan;
use crate::session::MemSession;
use hw_io::{Door, DoorNumbers, IoFault};
use std::alloc::{AllocError, Global};

/// A door in memory. Each call of `accept`, `dial`, `read` and `write` counts, from 0, and those that
/// are planned fail.
///
/// Peers come in the order in which they were told of. Each says its bytes and then ends. A peer that
/// nobody told of says nothing. A call that fails as planned uses up no peer.
#[derive(Drop)]
pub struct MemDoor {
    book: SessionBook,
    /// The calls that are to fail.
    pub plan: Plan,
    numbers: DoorNumbers,
    piece: usize,
}

impl MemDoor {
    ghost use Rattle.hw_doubles.specs.Memory.{door_sessions, door_is_open, door_numbers, door_planned, door_calls};

    /// No session, no peer was told of, and no call is to fail.
    pub fn new(alloc: Global) -> MemDoor
        ensures sessions { door_sessions result ≡ [] }
        ensures open { door_is_open result ≡ false }
        ensures planned { door_planned result ≡ [] }
        ensures calls { door_calls result ≡ 0 }
        ensures numbers { door_numbers result ≡ record { accepts = 0; dials = 0; ends = 0; faults = 0 } }
    {
        MemDoor::in_pieces(alloc, usize::MAX)
    }

    /// The same, and a read gives and a write takes at most `piece` bytes, or one where that is 0.
    pub fn in_pieces(alloc: Global, piece: usize) -> MemDoor
        ensures sessions { door_sessions result ≡ [] }
        ensures open { door_is_open result ≡ false }
        ensures planned { door_planned result ≡ [] }
        ensures calls { door_calls result ≡ 0 }
        ensures numbers { door_numbers result ≡ record { accepts = 0; dials = 0; ends = 0; faults = 0 } }
    {
        MemDoor {
            book: SessionBook::new(alloc),
            plan: Plan::new(alloc),
            numbers: DoorNumbers::new(),
            piece,
        }
    }

    /// Tells of one more peer, which says these bytes and then ends.
    pub fn expect(&mut self, said: &[u8]) -> Result<(), AllocError>
        ensures sessions { door_sessions self.new ≡ door_sessions self.old }
        ensures open { door_is_open self.new ≡ door_is_open self.old }
        ensures planned { door_planned self.new ≡ door_planned self.old }
        ensures calls { door_calls self.new ≡ door_calls self.old }
        ensures numbers { door_numbers self.new ≡ door_numbers self.old }
    {
        self.book.expect(said)
    }

    /// The sessions so far, the last one last.
    pub fn sessions(&self) -> &[MemSession]
        ensures { result.now ≡ door_sessions self.now }
    {
        self.book.sessions.as_slice()
    }

    /// The numbers so far.
    pub fn numbers(&self) -> DoorNumbers
        ensures { result ≡ door_numbers self.now }
    {
        self.numbers
    }

    /// The most bytes that a read gives and a write takes.
    pub(crate) fn piece(&self) -> usize
        ensures { result ≡ self.now.piece }
    {
        self.piece
    }

    /// From now on a read gives and a write takes at most `piece` bytes, or one where that is 0.
    pub(crate) fn set_piece(&mut self, piece: usize)
        ensures { self.new ≡ record self.old { piece = piece } }
    {
        self.piece = piece;
    }

    /// Keeps and counts that a read failed which isn't planned to. It uses up no call of the plan.
    pub(crate) fn stall(&mut self)
        ensures sessions { door_sessions self.new ≡ in_session (door_is_open self.old) with_failure (door_sessions self.old) }
        ensures open { door_is_open self.new ≡ door_is_open self.old }
        ensures planned { door_planned self.new ≡ door_planned self.old }
        ensures calls { door_calls self.new ≡ door_calls self.old }
        ensures cause { CountsFailure (door_numbers self.old).faults (door_numbers self.new).faults }
        ensures accepts { (door_numbers self.new).accepts ≡ (door_numbers self.old).accepts }
        ensures dials { (door_numbers self.new).dials ≡ (door_numbers self.old).dials }
        ensures ends { (door_numbers self.new).ends ≡ (door_numbers self.old).ends }
    {
        let outcome: Result<usize, IoFault> = Err(IoFault::Failed);
        self.book.fail();
        self.numbers.count_failure(&outcome);
    }

    /// Accepts, or fails as planned.
    fn welcome(&mut self) -> Result<(), IoFault>
        ensures planned { fails_next self.old.plan ≡ true → IsErr result }
        ensures sure { FailsForMemory (fails_next self.old.plan) result }
        ensures plan { self.new.plan ≡ after_call self.old.plan }
        ensures sessions { self.new.book.sessions.items ≡ sessions_after None result self.old.book.sessions.items }
        ensures open { self.new.book.is_open ≡ is_ok result }
        ensures numbers { self.new.numbers ≡ self.old.numbers }
    {
        if self.plan.next_call() {
            self.book.refuse_accept()?;
            return Err(IoFault::Failed);
        }
        self.book.accept()?;
        Ok(())
    }

    /// Dials, or fails as planned.
    fn call(&mut self, address: &str) -> Result<(), IoFault>
        ensures planned { fails_next self.old.plan ≡ true → IsErr result }
        ensures sure { FailsForMemory (fails_next self.old.plan) result }
        ensures plan { self.new.plan ≡ after_call self.old.plan }
        ensures sessions { self.new.book.sessions.items ≡ sessions_after (Some address.now) result self.old.book.sessions.items }
        ensures open { self.new.book.is_open ≡ is_ok result }
        ensures numbers { self.new.numbers ≡ self.old.numbers }
    {
        if self.plan.next_call() {
            self.book.refuse_dial(address)?;
            return Err(IoFault::Failed);
        }
        self.book.dial(address)?;
        Ok(())
    }

    /// Reads, or fails as planned.
    fn hear(&mut self, buf: &mut [u8]) -> Result<usize, IoFault>
        ensures planned { FailsAsPlanned (fails_next self.old.plan) result }
        ensures sure { fails_next self.old.plan ≡ false → self.old.book.is_open ≡ true → IsOk result }
        ensures plan { self.new.plan ≡ after_call self.old.plan }
        ensures piece { IfOk result (λ count. count ≤ max self.old.piece 1) }
        ensures bound { ReadsAtMost result buf.new }
        ensures sessions { self.new.book.sessions.items ≡ in_session self.old.book.is_open (after_read result buf.new) self.old.book.sessions.items }
        ensures none { self.old.book.is_open ≡ false → IsErr result }
        ensures open { self.new.book.is_open ≡ self.old.book.is_open }
        ensures numbers { self.new.numbers ≡ self.old.numbers }
    {
        if self.plan.next_call() {
            self.book.fail();
            return Err(IoFault::Failed);
        }
        self.book.read(buf, self.piece)
    }

    /// Writes, or fails as planned.
    fn tell(&mut self, bytes: &[u8]) -> Result<usize, IoFault>
        ensures planned { FailsAsPlanned (fails_next self.old.plan) result }
        ensures sure { self.old.book.is_open ≡ true → FailsForMemory (fails_next self.old.plan) result }
        ensures plan { self.new.plan ≡ after_call self.old.plan }
        ensures some { TakesSome result bytes.now }
        ensures sessions { self.new.book.sessions.items ≡ in_session self.old.book.is_open (after_write result bytes.now) self.old.book.sessions.items }
        ensures none { self.old.book.is_open ≡ false → IsErr result }
        ensures open { self.new.book.is_open ≡ self.old.book.is_open }
        ensures numbers { self.new.numbers ≡ self.old.numbers }
    {
        if self.plan.next_call() {
            self.book.fail();
            return Err(IoFault::Failed);
        }
        self.book.write(bytes, self.piece)
    }
}

impl Door for MemDoor {
    ghost sessions = { λ door. Some door.book.sessions.items };

    ghost asks = { λ _. [] };

    ghost is_open = { λ door. door.book.is_open };

    ghost accepts = { λ door. door.numbers.accepts };

    ghost dials = { λ door. door.numbers.dials };

    ghost ends = { λ door. door.numbers.ends };

    ghost faults = { λ door. door.numbers.faults };

    fn accept(&mut self) -> Result<(), IoFault>
        ensures planned { fails_next self.old.plan ≡ true → IsErr result }
        ensures sure { FailsForMemory (fails_next self.old.plan) result }
        ensures plan { self.new.plan ≡ after_call self.old.plan }

        ensures sessions { Some self.new.book.sessions.items ≡ option_map (sessions_after None result) (Some self.old.book.sessions.items) }
        ensures session { self.new.book.is_open ≡ is_ok result }
        ensures accepts { self.new.numbers.accepts ≡ raised self.old.numbers.accepts }
        ensures cause { HasCause self.old.numbers.faults self.new.numbers.faults result }
        ensures dials { self.new.numbers.dials ≡ self.old.numbers.dials }
        ensures ends { self.new.numbers.ends ≡ self.old.numbers.ends }
    {
        let outcome = self.welcome();
        self.numbers.count_accept();
        self.numbers.count_failure(&outcome);
        outcome
    }

    fn dial(&mut self, address: &str) -> Result<(), IoFault>
        ensures planned { fails_next self.old.plan ≡ true → IsErr result }
        ensures sure { FailsForMemory (fails_next self.old.plan) result }
        ensures plan { self.new.plan ≡ after_call self.old.plan }

        ensures sessions { Some self.new.book.sessions.items ≡ option_map (sessions_after (Some address.now) result) (Some self.old.book.sessions.items) }
        ensures session { self.new.book.is_open ≡ is_ok result }
        ensures dials { self.new.numbers.dials ≡ raised self.old.numbers.dials }
        ensures cause { HasCause self.old.numbers.faults self.new.numbers.faults result }
        ensures accepts { self.new.numbers.accepts ≡ self.old.numbers.accepts }
        ensures ends { self.new.numbers.ends ≡ self.old.numbers.ends }
    {
        let outcome = self.call(address);
        self.numbers.count_dial();
        self.numbers.count_failure(&outcome);
        outcome
    }

    fn read(&mut self, buf: &mut [u8]) -> Result<usize, IoFault>
        ensures planned { FailsAsPlanned (fails_next self.old.plan) result }
        ensures sure { fails_next self.old.plan ≡ false → self.old.book.is_open ≡ true → IsOk result }
        ensures plan { self.new.plan ≡ after_call self.old.plan }
        ensures piece { IfOk result (λ count. count ≤ max self.old.piece 1) }

        ensures bound { ReadsAtMost result buf.new }
        ensures sessions { Some self.new.book.sessions.items ≡ option_map (in_session self.old.book.is_open (after_read result buf.new)) (Some self.old.book.sessions.items) }
        ensures none { self.old.book.is_open ≡ false → IsErr result }
        ensures ends { self.new.numbers.ends ≡ ends_after self.old.numbers.ends result buf.new }
        ensures cause { HasCause self.old.numbers.faults self.new.numbers.faults result }
        ensures session { self.new.book.is_open ≡ self.old.book.is_open }
        ensures accepts { self.new.numbers.accepts ≡ self.old.numbers.accepts }
        ensures dials { self.new.numbers.dials ≡ self.old.numbers.dials }
    {
        let outcome = self.hear(buf);
        self.numbers.count_end(&outcome, buf);
        self.numbers.count_failure(&outcome);
        outcome
    }

    fn write(&mut self, bytes: &[u8]) -> Result<usize, IoFault>
        ensures planned { FailsAsPlanned (fails_next self.old.plan) result }
        ensures sure { self.old.book.is_open ≡ true → FailsForMemory (fails_next self.old.plan) result }
        ensures plan { self.new.plan ≡ after_call self.old.plan }

        ensures some { TakesSome result bytes.now }
        ensures sessions { Some self.new.book.sessions.items ≡ option_map (in_session self.old.book.is_open (after_write result bytes.now)) (Some self.old.book.sessions.items) }
        ensures none { self.old.book.is_open ≡ false → IsErr result }
        ensures cause { HasCause self.old.numbers.faults self.new.numbers.faults result }
        ensures session { self.new.book.is_open ≡ self.old.book.is_open }
        ensures accepts { self.new.numbers.accepts ≡ self.old.numbers.accepts }
        ensures dials { self.new.numbers.dials ≡ self.old.numbers.dials }
        ensures ends { self.new.numbers.ends ≡ self.old.numbers.ends }
    {
        let outcome = self.tell(bytes);
        self.numbers.count_failure(&outcome);
        outcome
    }

    fn hang_up(&mut self)
        ensures plan { self.new.plan ≡ self.old.plan }

        ensures session { self.new.book.is_open ≡ false }
        ensures sessions { Some self.new.book.sessions.items ≡ Some self.old.book.sessions.items }
        ensures faults { self.new.numbers.faults ≡ self.old.numbers.faults }
        ensures accepts { self.new.numbers.accepts ≡ self.old.numbers.accepts }
        ensures dials { self.new.numbers.dials ≡ self.old.numbers.dials }
        ensures ends { self.new.numbers.ends ≡ self.old.numbers.ends }
    {
        self.book.hang_up();
    }
}
