//! The traits of the outside.
ghost use Rattle.std.specs.Prelude.{◌≡◌, ◌≢◌, ℕ, ◌^◌, ◌<◌, ◌≤◌, List, [], Option, Bool, false, is_ok, length, IsTrue, IsNone, IsSome, IsErr, OnOk, OnErr, IfOk};
ghost use Rattle.std.specs.Io.KnownBytes.{WriteAppends, ReadConsumes};
ghost use Rattle.std.specs.Option.{option_map};
ghost use Rattle.std.specs.Io.{ReadsAtMost};
ghost use Rattle.hw_io.specs.Faults.{HasCause, subject_of, IsCountedAbout, OnlyAbout, IsWantCounted, raised};
ghost use Rattle.hw_io.specs.Files.{SameFiles, IsAnswer, Begins, Appended, Spends};
ghost use Rattle.hw_io.specs.Sinks.{TakesSome};
ghost use Rattle.hw_io.specs.Moments.{GivesMoment};
ghost use Rattle.hw_io.specs.Doors.{Session, Ask, sessions_after, after_read, after_write, in_session, ends_after, IsAskedNow, AsksMore};
ghost use Rattle.hw_io.specs.Consumers.{Consumed, after_take, after_finish};

use std::alloc::AllocError;

/// How many bytes an implementation of `Files` gives of a file that was begun: 2^62.
pub const READ_LIMIT: usize = 4_611_686_018_427_387_904;

/// Why a call of the outside failed.
#[derive(Clone, Copy, Debug, PartialEq, Eq)]
pub enum IoFault {
    /// The outside failed, and its count of faults rose.
    Failed,
    /// There was no memory for the call. This is no fault of the outside.
    OutOfMemory,
}

impl From<AllocError> for IoFault {
    ghost use Rattle.hw_io.specs.declared.outside.IoFault.TheVariants.{OutOfMemory};

    ghost from_gives = { λ _ fault. fault ≡ OutOfMemory };

    fn from(_error: AllocError) -> IoFault {
        IoFault::OutOfMemory
    }
}

/// Files by name, of which one at a time is read.
///
/// The read count is raised by `exists`, `begin` and `read`, the append count by `append`. Neither
/// ever falls. What a call isn't said to change stays.
pub trait Files {
    /// Whether the two meanings of bytes, `held` and `unread`, are told.
    ghost tells: { Bool };

    /// The bytes under a name, or none where there is no such file.
    ghost held: { Self → List ℕ → Option (List ℕ) };

    /// The name of the file that was begun. Each implementation tells whether there is one.
    ghost begun: { Self → Option (List ℕ) };

    /// The bytes of that file that are not yet read.
    ghost unread: { Self → List ℕ };

    /// How many bytes reads of that file may still give.
    ghost allowance: { Self → ℕ };

    ghost read_faults: { Self → ℕ };

    ghost append_faults: { Self → ℕ };

    /// How many failed calls of `exists`, `begin` and `read` were about the file of a name. `exists`
    /// is about the name that it is handed. So is `begin`, but about no file where files are told and
    /// there is none of that name. `read` is about the file that was begun, and about no file where
    /// none was.
    ghost faults_about: { Self → List ℕ → ℕ };

    /// Whether there is a file of that name.
    fn exists(&mut self, name: &str) -> Result<bool, IoFault>
        ensures answer { IsTrue tells → IfOk result (IsAnswer (held self.old name.now)) }
        ensures cause { HasCause (read_faults self.old) (read_faults self.new) result }
        ensures about { IsCountedAbout (Some name.now) (faults_about self.old) (faults_about self.new) result }
        ensures others { IsTrue tells → OnlyAbout (Some name.now) (faults_about self.old) (faults_about self.new) }

        ensures files { SameFiles (held self.old) (held self.new) }
        ensures begun { begun self.new ≡ begun self.old }
        ensures unread { unread self.new ≡ unread self.old }
        ensures allowance { allowance self.new ≡ allowance self.old }
        ensures appends { append_faults self.new ≡ append_faults self.old };

    /// Begins to read the file of that name from its first byte, in place of the one that was begun
    /// before. A name that isn't there is an error, which is counted for no file. After each error no
    /// file is begun.
    ///
    /// Reads give at most 2^62 bytes of a file, and fail then, so that a file without an end is a
    /// fault.
    fn begin(&mut self, name: &str) -> Result<(), IoFault>
        ensures whole { IsTrue tells → OnOk result (Begins (held self.old name.now) name.now (begun self.new) (unread self.new)) }
        ensures none { OnErr result (begun self.new ≡ None) }
        ensures allowance { OnOk result (allowance self.new ≤ 2 ^ 62) }
        ensures cause { HasCause (read_faults self.old) (read_faults self.new) result }
        ensures about { IsTrue tells → IsCountedAbout (subject_of (held self.old name.now) name.now) (faults_about self.old) (faults_about self.new) result }
        ensures untold { tells ≡ false → IsCountedAbout (Some name.now) (faults_about self.old) (faults_about self.new) result }
        ensures others { IsTrue tells → OnlyAbout (subject_of (held self.old name.now) name.now) (faults_about self.old) (faults_about self.new) }

        ensures files { SameFiles (held self.old) (held self.new) }
        ensures appends { append_faults self.new ≡ append_faults self.old };

    /// Reads the next bytes of the file that was begun into the front of `buf`, and answers how
    /// many. That is 0 only at the end of the file or for an empty `buf`. Where no file is begun it
    /// is an error. An error leaves the file where it was.
    fn read(&mut self, buf: &mut [u8]) -> Result<usize, IoFault>
        ensures bound { ReadsAtMost result buf.new }
        ensures bytes { IsTrue tells → ReadConsumes (Some (unread self.old)) (Some (unread self.new)) result buf.new }
        ensures none { IsNone (begun self.old) → IsErr result }
        ensures allowance { Spends (allowance self.old) (allowance self.new) result }
        ensures cause { HasCause (read_faults self.old) (read_faults self.new) result }
        ensures about { IsCountedAbout (begun self.old) (faults_about self.old) (faults_about self.new) result }
        ensures others { IsTrue tells → OnlyAbout (begun self.old) (faults_about self.old) (faults_about self.new) }

        ensures files { SameFiles (held self.old) (held self.new) }
        ensures begun { begun self.new ≡ begun self.old }
        ensures appends { append_faults self.new ≡ append_faults self.old };

    /// Puts the bytes at the end of the file of that name, and makes the file where it is missing.
    /// After an error the file holds what it held and a prefix of the bytes.
    ///
    /// What is unread of this same file is not known afterwards.
    fn append(&mut self, name: &str, bytes: &[u8]) -> Result<(), IoFault>
        ensures bytes { IsTrue tells → Appended (held self.old) (held self.new) name.now bytes.now result }
        ensures cause { HasCause (append_faults self.old) (append_faults self.new) result }

        ensures begun { begun self.new ≡ begun self.old }
        ensures unread { IsTrue tells → begun self.old ≢ Some name.now → unread self.new ≡ unread self.old }
        ensures allowance { allowance self.new ≡ allowance self.old }
        ensures reads { read_faults self.new ≡ read_faults self.old }
        ensures about { faults_about self.new ≡ faults_about self.old };
}

/// What takes bytes, as standard output does.
pub trait Sink {
    /// The bytes taken so far, where they are told.
    ghost taken: { Self → Option (List ℕ) };

    ghost faults: { Self → ℕ };

    /// How many writes found no memory.
    ghost wants: { Self → ℕ };

    /// Takes the first bytes of the piece, and answers how many. That is at least 1 unless the
    /// piece is empty. After an error nothing of the piece is taken.
    fn write(&mut self, bytes: &[u8]) -> Result<usize, IoFault>
        ensures bytes { WriteAppends (taken self.old) (taken self.new) result bytes.now }
        ensures some { TakesSome result bytes.now }
        ensures cause { HasCause (faults self.old) (faults self.new) result }
        ensures want { IsWantCounted (wants self.old) (wants self.new) result };
}

/// What tells the time. It can't fail.
pub trait Clock {
    /// The moments given so far, where they are told.
    ghost given: { Self → Option (List ℕ) };

    /// The moment, in milliseconds, below 2^63.
    fn now(&mut self) -> u64
        ensures range { result < 2 ^ 63 }
        ensures given { GivesMoment (given self.old) (given self.new) result };
}

/// A link to one peer at a time, by which sessions come and go.
///
/// It always tells whether a session is there, and three numbers, which stop at the end of a `u64`:
/// the calls of `accept`, those of `dial`, and the ends, which are the calls of `read` that answered
/// 0 for a `buf` that isn't empty.
pub trait Door {
    /// The sessions so far, where they are told. The last one is the one that is there, if one is.
    ghost sessions: { Self → Option (List Session) };

    /// The calls of `read` in that session, each by what had been read in it and what had been written when
    /// it was made. A door may leave out some of them, or all.
    ghost asks: { Self → List Ask };

    ghost is_open: { Self → Bool };

    ghost accepts: { Self → ℕ };

    ghost dials: { Self → ℕ };

    ghost ends: { Self → ℕ };

    ghost faults: { Self → ℕ };

    /// Ends the session that is still there, and waits for a peer. After an error no session is
    /// there. A call that failed adds a session without bytes, and want of memory adds none.
    fn accept(&mut self) -> Result<(), IoFault>
        ensures sessions { sessions self.new ≡ option_map (sessions_after None result) (sessions self.old) }
        ensures asks { asks self.new ≡ [] }
        ensures session { is_open self.new ≡ is_ok result }
        ensures accepts { accepts self.new ≡ raised (accepts self.old) }
        ensures cause { HasCause (faults self.old) (faults self.new) result }

        ensures dials { dials self.new ≡ dials self.old }
        ensures ends { ends self.new ≡ ends self.old };

    /// Ends the session that is still there, and calls the peer at this address. After an error no
    /// session is there. A call that failed adds a session without bytes, and want of memory adds
    /// none.
    fn dial(&mut self, address: &str) -> Result<(), IoFault>
        ensures sessions { sessions self.new ≡ option_map (sessions_after (Some address.now) result) (sessions self.old) }
        ensures asks { asks self.new ≡ [] }
        ensures session { is_open self.new ≡ is_ok result }
        ensures dials { dials self.new ≡ raised (dials self.old) }
        ensures cause { HasCause (faults self.old) (faults self.new) result }

        ensures accepts { accepts self.new ≡ accepts self.old }
        ensures ends { ends self.new ≡ ends self.old };

    /// Reads the peer's next bytes into the front of `buf`, and answers how many. That is 0 only at
    /// the peer's end or for an empty `buf`. Where no session is there it is an error.
    fn read(&mut self, buf: &mut [u8]) -> Result<usize, IoFault>
        ensures bound { ReadsAtMost result buf.new }
        ensures sessions { sessions self.new ≡ option_map (in_session (is_open self.old) (after_read result buf.new)) (sessions self.old) }
        ensures asks { AsksMore (IsAskedNow (sessions self.old)) (asks self.old) (asks self.new) }
        ensures none { is_open self.old ≡ false → IsErr result }
        ensures ends { ends self.new ≡ ends_after (ends self.old) result buf.new }
        ensures cause { HasCause (faults self.old) (faults self.new) result }

        ensures session { is_open self.new ≡ is_open self.old }
        ensures accepts { accepts self.new ≡ accepts self.old }
        ensures dials { dials self.new ≡ dials self.old };

    /// Sends the first bytes of the piece, and answers how many. That is at least 1 unless the piece
    /// is empty. Where no session is there it is an error. After an error nothing of the piece is
    /// sent.
    fn write(&mut self, bytes: &[u8]) -> Result<usize, IoFault>
        ensures some { TakesSome result bytes.now }
        ensures sessions { sessions self.new ≡ option_map (in_session (is_open self.old) (after_write result bytes.now)) (sessions self.old) }
        ensures none { is_open self.old ≡ false → IsErr result }
        ensures cause { HasCause (faults self.old) (faults self.new) result }

        ensures asks { asks self.new ≡ asks self.old }
        ensures session { is_open self.new ≡ is_open self.old }
        ensures accepts { accepts self.new ≡ accepts self.old }
        ensures dials { dials self.new ≡ dials self.old }
        ensures ends { ends self.new ≡ ends self.old };

    /// Ends the session, if one is there.
    fn hang_up(&mut self)
        ensures session { is_open self.new ≡ false }
        ensures sessions { sessions self.new ≡ sessions self.old }
        ensures faults { faults self.new ≡ faults self.old }

        ensures asks { asks self.new ≡ asks self.old }
        ensures accepts { accepts self.new ≡ accepts self.old }
        ensures dials { dials self.new ≡ dials self.old }
        ensures ends { ends self.new ≡ ends self.old };
}

/// What takes the decided blocks, in order.
pub trait Consumer: Drop {
    /// The blocks taken so far and how often it was finished, where that is told.
    ghost consumed: { Self → Option Consumed };

    ghost faults: { Self → ℕ };

    /// How many calls found no memory.
    ghost wants: { Self → ℕ };

    /// Takes the value of the decided block at this height. After an error it is not taken.
    fn take(&mut self, height: u64, value: &[u8]) -> Result<(), IoFault>
        ensures consumed { consumed self.new ≡ option_map (after_take height value.now result) (consumed self.old) }
        ensures cause { HasCause (faults self.old) (faults self.new) result }
        ensures want { IsWantCounted (wants self.old) (wants self.new) result };

    /// Is told that no block follows.
    fn finish(&mut self) -> Result<(), IoFault>
        ensures consumed { consumed self.new ≡ option_map (after_finish result) (consumed self.old) }
        ensures cause { HasCause (faults self.old) (faults self.new) result }
        ensures want { IsWantCounted (wants self.old) (wants self.new) result };
}
