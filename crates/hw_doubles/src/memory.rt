//! The outside in memory, which tells its content and fails at the calls that it is told.
ghost use Rattle.std.specs.Prelude.{◌≡◌, ◌≢◌, ◌↔◌, ◌^◌, ◌≤◌, ◌⊎◌, ℕ, List, [], ◌∷◌, ◌++◌, true, false, Some, None, IsOk, IsErr, IsSome, IsNone, IfSome, OnOk, OnErr, IfOk, IfErr};
ghost use Rattle.std.specs.Option.{option_copied};
ghost use Rattle.std.specs.Io.KnownBytes.{WriteAppends, ReadConsumes};
ghost use Rattle.std.specs.Io.{ReadsAtMost};
ghost use Rattle.hw_io.specs.Faults.{HasCause, subject_of, IsCountedAbout, OnlyAbout, IsWantCounted, raised};
ghost use Rattle.hw_io.specs.Files.{SameFiles, IsAnswer, Begins, Appended, Spends};
ghost use Rattle.hw_io.specs.Sinks.{TakesSome};
ghost use Rattle.hw_doubles.specs.Memory.{mem_held, mem_begun, mem_unread, mem_allowance, mem_read_faults, mem_append_faults, mem_faults_about, mem_planned, mem_calls, mem_next, mem_taken, mem_faults, mem_wants, sink_planned, sink_calls, planned_at, planned_calls, fails_next, after_call, SameCounts, CountsCall, CutAt, FailsAsPlanned, FailsForMemory};

use crate::plan::Plan;
use crate::shelf::Shelf;
use hw_io::{Files, IoFault, Sink};
use std::alloc::{AllocError, Global};

/// A call that is to fail: its number among the calls of the object, from 0, and how many of the
/// bytes are written where it is an append.
#[derive(Clone, Copy, Debug, PartialEq, Eq)]
pub struct Planned {
    pub call: u64,
    pub written: usize,
}

/// Files in memory. Each call of `Files` counts, from 0, and those that are planned fail.
#[derive(Drop)]
pub struct MemFiles {
    shelf: Shelf,
    planned: Vec<Planned>,
    calls: u64,
    read_faults: u64,
    append_faults: u64,
}

impl MemFiles {
    /// No files, and no call is to fail.
    pub fn new(alloc: Global) -> MemFiles
        ensures files { (name : List ℕ) → mem_held result name ≡ None }
        ensures begun { mem_begun result ≡ None }
        ensures planned { mem_planned result ≡ [] }
        ensures calls { mem_calls result ≡ 0 }
        ensures read_faults { mem_read_faults result ≡ 0 }
        ensures append_faults { mem_append_faults result ≡ 0 }
        ensures faults_about { (name : List ℕ) → mem_faults_about result name ≡ 0 }
    {
        MemFiles::in_pieces(alloc, usize::MAX)
    }

    /// The same, and a read gives at most `piece` bytes, or one where that is 0.
    pub fn in_pieces(alloc: Global, piece: usize) -> MemFiles
        ensures files { (name : List ℕ) → mem_held result name ≡ None }
        ensures begun { mem_begun result ≡ None }
        ensures planned { mem_planned result ≡ [] }
        ensures calls { mem_calls result ≡ 0 }
        ensures read_faults { mem_read_faults result ≡ 0 }
        ensures append_faults { mem_append_faults result ≡ 0 }
        ensures faults_about { (name : List ℕ) → mem_faults_about result name ≡ 0 }
    {
        MemFiles {
            shelf: Shelf::new(alloc, piece),
            planned: Vec::new(alloc),
            calls: 0,
            read_faults: 0,
            append_faults: 0,
        }
    }

    /// Plans that the call of this number fails, and that it writes so many bytes if it is an append.
    pub fn fail_at(&mut self, call: u64, written: usize) -> Result<(), AllocError>
        ensures ok { OnOk result (mem_planned self.new ≡ mem_planned self.old ++ record { call = call; written = written } ∷ []) }
        ensures err { OnErr result (mem_planned self.new ≡ mem_planned self.old) }
        ensures files { SameFiles (mem_held self.old) (mem_held self.new) }
        ensures begun { mem_begun self.new ≡ mem_begun self.old }
        ensures unread { mem_unread self.new ≡ mem_unread self.old }
        ensures counts { SameCounts self.old self.new }
    {
        self.planned.push(Planned { call, written })?;
        Ok(())
    }

    /// Puts the bytes at the end of a file, as an append that succeeds, without a call of `Files`.
    pub fn put(&mut self, name: &str, bytes: &[u8]) -> Result<(), AllocError>
        ensures bytes { Appended (mem_held self.old) (mem_held self.new) name.now bytes.now result }
        ensures begun { mem_begun self.new ≡ mem_begun self.old }
        ensures unread { mem_begun self.old ≢ Some name.now → mem_unread self.new ≡ mem_unread self.old }
        ensures planned { mem_planned self.new ≡ mem_planned self.old }
        ensures counts { SameCounts self.old self.new }
    {
        self.shelf.append(name, bytes)
    }

    /// The bytes under this name.
    pub fn file(&self, name: &str) -> Option<&[u8]>
        ensures bytes { option_copied result ≡ mem_held self.now name.now }
    {
        self.shelf.file(name)
    }

    /// How many calls were made.
    pub fn calls(&self) -> u64
        ensures { result ≡ mem_calls self.now }
    {
        self.calls
    }

    /// How often a read failed, or `exists` or `begin`.
    pub fn read_faults(&self) -> u64
        ensures { result ≡ mem_read_faults self.now }
    {
        self.read_faults
    }

    /// How often an append failed.
    pub fn append_faults(&self) -> u64
        ensures { result ≡ mem_append_faults self.now }
    {
        self.append_faults
    }

    /// Counts a call. Where it is to fail, the answer is how much an append writes.
    fn next_call(&mut self) -> Option<usize>
        ensures planned { result ≡ planned_at self.old.planned.items self.old.calls }
        ensures rest { self.new ≡ record self.old { calls = raised self.old.calls } }
    {
        let call = self.calls;
        self.calls = call.saturating_add(1);
        let mut planned = self.planned.iter();
        match planned.find(|planned| planned.call == call) {
            Some(planned) => Some(planned.written),
            None => None,
        }
    }

    fn count_read_fault(&mut self)
        ensures later { self.old.read_faults ≤ self.new.read_faults }
        ensures raised { self.new ≡ record self.old { read_faults = raised self.old.read_faults } }
    {
        self.read_faults = self.read_faults.saturating_add(1);
    }

    fn count_append_fault(&mut self)
        ensures later { self.old.append_faults ≤ self.new.append_faults }
        ensures raised { self.new ≡ record self.old { append_faults = raised self.old.append_faults } }
    {
        self.append_faults = self.append_faults.saturating_add(1);
    }

    /// Fails a call about the file of this name, and counts it where there is memory to keep the name.
    fn fail_about<T>(&mut self, name: &str) -> Result<T, IoFault>
        ensures fails { IsErr result }
        ensures cause { HasCause (mem_read_faults self.old) (mem_read_faults self.new) result }
        ensures about { IsCountedAbout (Some name.now) (mem_faults_about self.old) (mem_faults_about self.new) result }
        ensures others { OnlyAbout (Some name.now) (mem_faults_about self.old) (mem_faults_about self.new) }
        ensures files { self.new.shelf.files ≡ self.old.shelf.files }
        ensures reading { self.new.shelf.reading ≡ self.old.shelf.reading }
        ensures rest { self.new ≡ record self.old { shelf = self.new.shelf; read_faults = self.new.read_faults } }
    {
        self.shelf.blame(name)?;
        self.count_read_fault();
        Err(IoFault::Failed)
    }

    /// Fails a call about the file that was begun, and counts it where there is memory to keep the name. Where
    /// none was, it is about no file.
    fn fail_begun<T>(&mut self) -> Result<T, IoFault>
        ensures fails { IsErr result }
        ensures cause { HasCause (mem_read_faults self.old) (mem_read_faults self.new) result }
        ensures about { IsCountedAbout (mem_begun self.old) (mem_faults_about self.old) (mem_faults_about self.new) result }
        ensures others { OnlyAbout (mem_begun self.old) (mem_faults_about self.old) (mem_faults_about self.new) }
        ensures files { self.new.shelf.files ≡ self.old.shelf.files }
        ensures reading { self.new.shelf.reading ≡ self.old.shelf.reading }
        ensures rest { self.new ≡ record self.old { shelf = self.new.shelf; read_faults = self.new.read_faults } }
    {
        self.shelf.blame_begun()?;
        self.count_read_fault();
        Err(IoFault::Failed)
    }

    /// Puts only the first bytes at the end of the file, and counts that as an append that failed.
    fn fail_append(&mut self, name: &str, bytes: &[u8], written: usize) -> Result<(), IoFault>
        ensures fails { IsErr result }
        ensures cut { CutAt written (mem_held self.old name.now) (mem_held self.new name.now) bytes.now result }
        ensures bytes { Appended (mem_held self.old) (mem_held self.new) name.now bytes.now result }
        ensures cause { HasCause (mem_append_faults self.old) (mem_append_faults self.new) result }
        ensures begun { mem_begun self.new ≡ mem_begun self.old }
        ensures unread { mem_begun self.old ≢ Some name.now → mem_unread self.new ≡ mem_unread self.old }
        ensures reading { self.new.shelf.reading ≡ self.old.shelf.reading }
        ensures blamed { self.new.shelf.blamed ≡ self.old.shelf.blamed }
        ensures calls { self.new.calls ≡ self.old.calls }
        ensures planned { self.new.planned ≡ self.old.planned }
        ensures reads { self.new.read_faults ≡ self.old.read_faults }
    {
        let written = written.min(bytes.len());
        self.shelf.append(name, &bytes[..written])?;
        self.count_append_fault();
        Err(IoFault::Failed)
    }
}

impl Files for MemFiles {
    ghost tells = { true };

    ghost held = { mem_held };

    ghost begun = { mem_begun };

    ghost unread = { mem_unread };

    ghost allowance = { mem_allowance };

    ghost read_faults = { mem_read_faults };

    ghost append_faults = { mem_append_faults };

    ghost faults_about = { mem_faults_about };

    fn exists(&mut self, name: &str) -> Result<bool, IoFault>
        ensures planned { IsErr result ↔ IsSome (mem_next self.old) }
        ensures counted { CountsCall self.old self.new }

        ensures answer { IfOk result (IsAnswer (mem_held self.old name.now)) }
        ensures cause { HasCause (mem_read_faults self.old) (mem_read_faults self.new) result }
        ensures about { IsCountedAbout (Some name.now) (mem_faults_about self.old) (mem_faults_about self.new) result }
        ensures others { OnlyAbout (Some name.now) (mem_faults_about self.old) (mem_faults_about self.new) }
        ensures files { SameFiles (mem_held self.old) (mem_held self.new) }
        ensures begun { mem_begun self.new ≡ mem_begun self.old }
        ensures unread { mem_unread self.new ≡ mem_unread self.old }
        ensures allowance { mem_allowance self.new ≡ mem_allowance self.old }
        ensures appends { mem_append_faults self.new ≡ mem_append_faults self.old }
    {
        if self.next_call().is_some() {
            return self.fail_about(name);
        }
        Ok(self.shelf.has(name))
    }

    fn begin(&mut self, name: &str) -> Result<(), IoFault>
        ensures planned { IsSome (mem_next self.old) → IsErr result }
        ensures sure { IsNone (mem_next self.old) → (IsOk result ↔ IsSome (mem_held self.old name.now)) }
        ensures counted { CountsCall self.old self.new }

        ensures whole { OnOk result (Begins (mem_held self.old name.now) name.now (mem_begun self.new) (mem_unread self.new)) }
        ensures none { OnErr result (mem_begun self.new ≡ None) }
        ensures allowance { OnOk result (mem_allowance self.new ≤ 2 ^ 62) }
        ensures cause { HasCause (mem_read_faults self.old) (mem_read_faults self.new) result }
        ensures about { IsCountedAbout (subject_of (mem_held self.old name.now) name.now) (mem_faults_about self.old) (mem_faults_about self.new) result }
        ensures others { OnlyAbout (subject_of (mem_held self.old name.now) name.now) (mem_faults_about self.old) (mem_faults_about self.new) }
        ensures files { SameFiles (mem_held self.old) (mem_held self.new) }
        ensures appends { mem_append_faults self.new ≡ mem_append_faults self.old }
    {
        let planned = self.next_call().is_some();
        if !self.shelf.begin(name) {
            return self.fail_begun();
        }
        if planned {
            // The file is begun only so that the failure is counted for it.
            let failed = self.fail_begun();
            self.shelf.close();
            return failed;
        }
        Ok(())
    }

    fn read(&mut self, buf: &mut [u8]) -> Result<usize, IoFault>
        ensures planned { IsSome (mem_next self.old) → IsErr result }
        ensures sure { IsNone (mem_next self.old) → OnErr result ((mem_begun self.old ≡ None) ⊎ (mem_allowance self.old ≡ 0)) }
        ensures counted { CountsCall self.old self.new }

        ensures bound { ReadsAtMost result buf.new }
        ensures bytes { ReadConsumes (Some (mem_unread self.old)) (Some (mem_unread self.new)) result buf.new }
        ensures none { IsNone (mem_begun self.old) → IsErr result }
        ensures allowance { Spends (mem_allowance self.old) (mem_allowance self.new) result }
        ensures cause { HasCause (mem_read_faults self.old) (mem_read_faults self.new) result }
        ensures about { IsCountedAbout (mem_begun self.old) (mem_faults_about self.old) (mem_faults_about self.new) result }
        ensures others { OnlyAbout (mem_begun self.old) (mem_faults_about self.old) (mem_faults_about self.new) }
        ensures files { SameFiles (mem_held self.old) (mem_held self.new) }
        ensures begun { mem_begun self.new ≡ mem_begun self.old }
        ensures appends { mem_append_faults self.new ≡ mem_append_faults self.old }
    {
        if self.next_call().is_some() {
            return self.fail_begun();
        }
        match self.shelf.read(buf) {
            Ok(count) => Ok(count),
            Err(_) => self.fail_begun(),
        }
    }

    fn append(&mut self, name: &str, bytes: &[u8]) -> Result<(), IoFault>
        ensures planned { IsSome (mem_next self.old) → IsErr result }
        ensures cut { IfSome (mem_next self.old) (λ written. CutAt written (mem_held self.old name.now) (mem_held self.new name.now) bytes.now result) }
        ensures sure { IsNone (mem_next self.old) → IfErr result (λ fault. fault ≡ IoFault.OutOfMemory) }
        ensures counted { CountsCall self.old self.new }

        ensures bytes { Appended (mem_held self.old) (mem_held self.new) name.now bytes.now result }
        ensures cause { HasCause (mem_append_faults self.old) (mem_append_faults self.new) result }
        ensures begun { mem_begun self.new ≡ mem_begun self.old }
        ensures unread { mem_begun self.old ≢ Some name.now → mem_unread self.new ≡ mem_unread self.old }
        ensures allowance { mem_allowance self.new ≡ mem_allowance self.old }
        ensures reads { mem_read_faults self.new ≡ mem_read_faults self.old }
        ensures about { mem_faults_about self.new ≡ mem_faults_about self.old }
    {
        match self.next_call() {
            Some(written) => self.fail_append(name, bytes, written),
            None => {
                self.shelf.append(name, bytes)?;
                Ok(())
            }
        }
    }
}

/// A sink in memory. Each call of `write` counts, from 0, and those that are planned fail.
#[derive(Drop)]
pub struct MemSink {
    bytes: Vec<u8>,
    /// The calls that are to fail.
    pub plan: Plan,
    /// The calls that are to find no memory.
    pub memory: Plan,
    faults: u64,
    wants: u64,
    piece: usize,
}

impl MemSink {
    /// Nothing is taken, and no call is to fail.
    pub fn new(alloc: Global) -> MemSink
        ensures taken { mem_taken result ≡ Some [] }
        ensures planned { sink_planned result ≡ [] }
        ensures calls { sink_calls result ≡ 0 }
        ensures faults { mem_faults result ≡ 0 }
        ensures wants { mem_wants result ≡ 0 }
        ensures memory { planned_calls result.memory ≡ [] }
    {
        MemSink::in_pieces(alloc, usize::MAX)
    }

    /// The same, and a write takes at most `piece` bytes, or one where that is 0.
    pub fn in_pieces(alloc: Global, piece: usize) -> MemSink
        ensures taken { mem_taken result ≡ Some [] }
        ensures planned { sink_planned result ≡ [] }
        ensures calls { sink_calls result ≡ 0 }
        ensures faults { mem_faults result ≡ 0 }
        ensures wants { mem_wants result ≡ 0 }
        ensures memory { planned_calls result.memory ≡ [] }
    {
        MemSink {
            bytes: Vec::new(alloc),
            plan: Plan::new(alloc),
            memory: Plan::new(alloc),
            faults: 0,
            wants: 0,
            piece,
        }
    }

    /// The bytes taken.
    pub fn taken(&self) -> &[u8]
        ensures { Some result.now ≡ mem_taken self.now }
    {
        self.bytes.as_slice()
    }

    /// How often a write failed.
    pub fn faults(&self) -> u64
        ensures { result ≡ mem_faults self.now }
    {
        self.faults
    }
}

impl Sink for MemSink {
    ghost taken = { mem_taken };

    ghost faults = { mem_faults };

    ghost wants = { mem_wants };

    fn write(&mut self, bytes: &[u8]) -> Result<usize, IoFault>
        ensures planned { FailsAsPlanned (fails_next self.old.plan) result }
        ensures sure { FailsForMemory (fails_next self.old.plan) result }
        ensures plan { self.new.plan ≡ after_call self.old.plan }
        ensures lacking { fails_next self.old.memory ≡ true → IsErr result }
        ensures memory { self.new.memory ≡ after_call self.old.memory }

        ensures bytes { WriteAppends (mem_taken self.old) (mem_taken self.new) result bytes.now }
        ensures some { TakesSome result bytes.now }
        ensures cause { HasCause (mem_faults self.old) (mem_faults self.new) result }
        ensures want { IsWantCounted (mem_wants self.old) (mem_wants self.new) result }
    {
        let is_lacking = self.memory.next_call();
        if self.plan.next_call() {
            self.faults = self.faults.saturating_add(1);
            return Err(IoFault::Failed);
        }
        let count = bytes.len().min(self.piece.max(1));
        if !is_lacking {
            if let Ok(()) = self.bytes.extend_from_slice(&bytes[..count]) {
                return Ok(count);
            }
        }
        self.wants = self.wants.saturating_add(1);
        Err(IoFault::OutOfMemory)
    }
}
