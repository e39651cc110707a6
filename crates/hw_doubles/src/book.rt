//! The sessions of a door in memory, of which the last one may be there still. It fails only where the rules of `Door`
//! say so.
ghost use Rattle.std.specs.Prelude.{◌≡◌, ◌++◌, ◌∷◌, ◌<◌, ◌≤◌, [], Some, None, true, false, max, IfErr, IfOk, IsOk, IsErr, OnOk, OnErr, is_ok, string_bytes, vec_len};
ghost use Rattle.std.specs.Io.{ReadsAtMost};
ghost use Rattle.std.specs.Option.{option_map};
ghost use Rattle.hw_io.specs.{Sinks.{TakesSome}, Doors.{Session, sessions_after, fresh_session, with_failure, with_last, after_read, after_write, in_session}};

use crate::session::MemSession;
use hw_io::IoFault;
use std::alloc::{AllocError, Global};
use std::collections::VecDeque;

/// The sessions so far, and what the peers to come say.
#[derive(Drop)]
pub(crate) struct SessionBook {
    pub(crate) sessions: Vec<MemSession>,
    pub(crate) is_open: bool,
    coming: VecDeque<Vec<u8>>,
    ghost there: { is_open ≡ true → 0 < vec_len sessions },
}

impl SessionBook {
    pub(crate) fn new(alloc: Global) -> SessionBook
        ensures sessions { result.sessions.items ≡ [] }
        ensures open { result.is_open ≡ false }
    {
        SessionBook {
            sessions: Vec::new(alloc),
            is_open: false,
            coming: VecDeque::new(alloc),
        }
    }

    /// Of the peers that nobody told of, the next one says these bytes.
    pub(crate) fn expect(&mut self, said: &[u8]) -> Result<(), AllocError>
        ensures sessions { self.new.sessions ≡ self.old.sessions }
        ensures open { self.new.is_open ≡ self.old.is_open }
    {
        let said = Vec::from_slice(*self.sessions.allocator(), said)?;
        self.coming.push_back(said)?;
        Ok(())
    }

    /// Ends the session that is there, and begins one with a peer that comes.
    pub(crate) fn accept(&mut self) -> Result<(), AllocError>
        ensures ok { OnOk result (self.new.sessions.items ≡ self.old.sessions.items ++ fresh_session None ∷ []) }
        ensures err { OnErr result (self.new.sessions.items ≡ self.old.sessions.items) }
        ensures open { self.new.is_open ≡ is_ok result }
    {
        self.enter(None)
    }

    /// Ends the session that is there, and begins one with the peer that is dialled.
    pub(crate) fn dial(&mut self, address: &str) -> Result<(), AllocError>
        ensures ok { OnOk result (self.new.sessions.items ≡ self.old.sessions.items ++ fresh_session (Some address.now) ∷ []) }
        ensures err { OnErr result (self.new.sessions.items ≡ self.old.sessions.items) }
        ensures open { self.new.is_open ≡ is_ok result }
    {
        match address.to_string(*self.sessions.allocator()) {
            Ok(address) => self.enter(Some(address)),
            Err(error) => {
                self.hang_up();
                Err(error)
            }
        }
    }

    /// Ends the session that is there, and adds one in which `accept` failed.
    pub(crate) fn refuse_accept(&mut self) -> Result<(), AllocError>
        ensures ok { OnOk result (self.new.sessions.items ≡ self.old.sessions.items ++ with_failure (fresh_session None) ∷ []) }
        ensures err { OnErr result (self.new.sessions.items ≡ self.old.sessions.items) }
        ensures open { self.new.is_open ≡ false }
    {
        self.hang_up();
        self.add_failed(None)
    }

    /// Ends the session that is there, and adds one in which `dial` failed.
    pub(crate) fn refuse_dial(&mut self, address: &str) -> Result<(), AllocError>
        ensures ok { OnOk result (self.new.sessions.items ≡ self.old.sessions.items ++ with_failure (fresh_session (Some address.now)) ∷ []) }
        ensures err { OnErr result (self.new.sessions.items ≡ self.old.sessions.items) }
        ensures open { self.new.is_open ≡ false }
    {
        self.hang_up();
        let address = address.to_string(*self.sessions.allocator())?;
        self.add_failed(Some(address))
    }

    /// Reads the next bytes that the peer says, at most `piece` of them, or one where that is 0. It fails only
    /// where no session is there.
    pub(crate) fn read(&mut self, buf: &mut [u8], piece: usize) -> Result<usize, IoFault>
        ensures bound { ReadsAtMost result buf.new }
        ensures piece { IfOk result (λ count. count ≤ max piece 1) }
        ensures sessions { self.new.sessions.items ≡ in_session self.old.is_open (after_read result buf.new) self.old.sessions.items }
        ensures none { self.old.is_open ≡ false → IsErr result }
        ensures sure { self.old.is_open ≡ true → IsOk result }
        ensures cause { IfErr result (λ fault. fault ≡ IoFault.Failed) }
        ensures open { self.new.is_open ≡ self.old.is_open }
    {
        let count = self.sessions.len();
        if self.is_open && count > 0 {
            return Ok(self.sessions[count - 1].hear(buf, piece));
        }
        Err(IoFault::Failed)
    }

    /// Takes the first of the bytes, at most `piece` of them, or one where that is 0. It fails only where no
    /// session is there.
    pub(crate) fn write(&mut self, bytes: &[u8], piece: usize) -> Result<usize, IoFault>
        ensures some { TakesSome result bytes.now }
        ensures sessions { self.new.sessions.items ≡ in_session self.old.is_open (after_write result bytes.now) self.old.sessions.items }
        ensures none { self.old.is_open ≡ false → IsErr result }
        ensures sure { self.old.is_open ≡ true → IfErr result (λ fault. fault ≡ IoFault.OutOfMemory) }
        ensures open { self.new.is_open ≡ self.old.is_open }
    {
        let count = self.sessions.len();
        if self.is_open && count > 0 {
            return self.sessions[count - 1].tell(bytes, piece);
        }
        Err(IoFault::Failed)
    }

    /// Keeps that a call failed in the session that is there, if one is.
    pub(crate) fn fail(&mut self)
        ensures sessions { self.new.sessions.items ≡ in_session self.old.is_open with_failure self.old.sessions.items }
        ensures open { self.new.is_open ≡ self.old.is_open }
    {
        let count = self.sessions.len();
        if self.is_open && count > 0 {
            self.sessions[count - 1].fail();
        }
    }

    /// Ends the session, if one is there.
    pub(crate) fn hang_up(&mut self)
        ensures sessions { self.new.sessions ≡ self.old.sessions }
        ensures open { self.new.is_open ≡ false }
    {
        self.is_open = false;
    }

    /// Begins a session with the next peer.
    fn enter(&mut self, address: Option<String>) -> Result<(), AllocError>
        ensures ok { OnOk result (self.new.sessions.items ≡ self.old.sessions.items ++ fresh_session (option_map string_bytes address) ∷ []) }
        ensures err { OnErr result (self.new.sessions.items ≡ self.old.sessions.items) }
        ensures open { self.new.is_open ≡ is_ok result }
    {
        self.hang_up();
        self.sessions.reserve(1)?;
        let alloc = *self.sessions.allocator();
        let said = self.next_said();
        self.sessions.push(MemSession::new(alloc, address, said))?;
        self.is_open = true;
        Ok(())
    }

    /// What the next peer says: nothing, where nobody told of it.
    fn next_said(&mut self) -> Vec<u8>
        ensures sessions { self.new.sessions ≡ self.old.sessions }
        ensures open { self.new.is_open ≡ self.old.is_open }
    {
        match self.coming.pop_front() {
            Some(said) => said,
            None => Vec::new(*self.sessions.allocator()),
        }
    }

    /// Adds a session in which the call failed that was to begin it.
    fn add_failed(&mut self, address: Option<String>) -> Result<(), AllocError>
        ensures ok { OnOk result (self.new.sessions.items ≡ self.old.sessions.items ++ with_failure (fresh_session (option_map string_bytes address)) ∷ []) }
        ensures err { OnErr result (self.new.sessions.items ≡ self.old.sessions.items) }
        ensures open { self.new.is_open ≡ self.old.is_open }
    {
        let alloc = *self.sessions.allocator();
        let mut session = MemSession::new(alloc, address, Vec::new(alloc));
        session.fail();
        self.sessions.push(session)?;
        Ok(())
    }
}
