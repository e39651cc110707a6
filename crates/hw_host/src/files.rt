//! The real file system and standard output. Nothing is promised of their content, and each error is counted.
ghost use Rattle.std.specs.{Prelude.{◌≡◌, ◌≤◌, ◌^◌, ℕ, [], false, None, Some, IfErr, OnOk, OnErr}, Option.{option_map}};
ghost use Rattle.hw_io.specs.Faults.{HasCause, raised};

use crate::appended::{Appended, append_to};
use hw_io::{Files, IoFault, READ_LIMIT, Sink};
use std::io::{Read, Write};
use std::{fs, io, rt};

/// The files of a runtime. A name is a path, as the system reads it. Failures are counted for all
/// names together, and a read where no file is begun for none.
///
/// The file that was appended to last stays open, and the next append to the same name goes on with
/// it, where the name has at most 64 bytes. So where somebody removes or renames that file meanwhile,
/// later bytes go into the file that was removed or renamed, until an append fails or is to another
/// name.
///
/// The system's reason why the last call failed is kept.
#[derive(Drop)]
pub struct HostFiles<R: rt::Files> {
    runtime: R,
    file: Option<R::File>,
    appended: Option<Appended<R::File>>,
    error: Option<io::Error>,
    allowance: usize,
    read_faults: u64,
    faults_about: u64,
    append_faults: u64,
}

impl<R: rt::Files> HostFiles<R> {
    /// No file is begun, and each of the three counts is 0.
    pub fn new(runtime: R) -> HostFiles<R>
        ensures begun { result.file ≡ None }
        ensures read_faults { result.read_faults ≡ 0 }
        ensures faults_about { result.faults_about ≡ 0 }
        ensures append_faults { result.append_faults ≡ 0 }
    {
        HostFiles {
            runtime,
            file: None,
            appended: None,
            error: None,
            allowance: 0,
            read_faults: 0,
            faults_about: 0,
            append_faults: 0,
        }
    }

    /// The error of the last call that failed, if one did. A read where no file is begun has none.
    pub(crate) fn error(&self) -> Option<io::Error> {
        self.error
    }

    /// How many bytes were given of the file that is begun.
    pub(crate) fn given(&self) -> u64 {
        READ_LIMIT.saturating_sub(self.allowance) as u64
    }

    /// Gives at most this many bytes more of the file that is begun.
    pub(crate) fn restrict(&mut self, limit: usize)
        ensures fewer { self.new.allowance ≤ self.old.allowance }
        ensures rest { self.new ≡ record self.old { allowance = self.new.allowance } }
    {
        self.allowance = self.allowance.min(limit);
    }

    /// Leaves the file that is begun.
    pub(crate) fn leave(&mut self)
        ensures { self.new ≡ record self.old { file = None } }
    {
        self.file = None;
    }

    /// Whether there is a file of that name.
    pub(crate) fn look_for(&mut self, name: &str) -> Result<bool, IoFault>
        ensures same { OnOk result (self.new ≡ self.old) }
        ensures failed { IfErr result (λ fault. fault ≡ IoFault.Failed) }
        ensures later { self.old.read_faults ≤ self.new.read_faults }
        ensures raised { OnErr result (self.new ≡ record self.old { error = self.new.error; read_faults = raised self.old.read_faults; faults_about = raised self.old.faults_about }) }
    {
        match fs::exists(&self.runtime, name) {
            Ok(there) => Ok(there),
            Err(error) => {
                self.count_read_fault(error);
                Err(IoFault::Failed)
            }
        }
    }

    /// Begins the file of that name, of which at most 2^62 bytes are given.
    pub(crate) fn open(&mut self, name: &str) -> Result<(), IoFault>
        ensures begun { OnOk result (self.new ≡ record self.old { file = self.new.file; allowance = 2 ^ 62 }) }
        ensures failed { IfErr result (λ fault. fault ≡ IoFault.Failed) }
        ensures later { self.old.read_faults ≤ self.new.read_faults }
        ensures raised { OnErr result (self.new ≡ record self.old { file = None; error = self.new.error; read_faults = raised self.old.read_faults; faults_about = raised self.old.faults_about }) }
    {
        match fs::open(&self.runtime, name) {
            Ok(file) => {
                self.file = Some(file);
                self.allowance = READ_LIMIT;
                Ok(())
            }
            Err(error) => {
                self.file = None;
                self.count_read_fault(error);
                Err(IoFault::Failed)
            }
        }
    }

    /// Puts the bytes at the end of the file of that name.
    pub(crate) fn put(&mut self, name: &str, bytes: &[u8]) -> Result<(), IoFault>
        ensures cause { HasCause self.old.append_faults self.new.append_faults result }
        ensures rest { self.new ≡ record self.old { appended = self.new.appended; error = self.new.error; append_faults = self.new.append_faults } }
    {
        match append_to(&self.runtime, &mut self.appended, name, bytes) {
            Ok(()) => Ok(()),
            Err(error) => {
                self.count_append_fault(error);
                Err(IoFault::Failed)
            }
        }
    }

    /// Counts a read that failed, and keeps its error.
    pub(crate) fn count_read_fault(&mut self, error: io::Error)
        ensures later { self.old.read_faults ≤ self.new.read_faults }
        ensures raised { self.new ≡ record self.old { error = Some error; read_faults = raised self.old.read_faults; faults_about = raised self.old.faults_about } }
    {
        self.error = Some(error);
        self.read_faults = self.read_faults.saturating_add(1);
        self.faults_about = self.faults_about.saturating_add(1);
    }

    /// Counts a read where no file is begun, which is about no file.
    fn count_stray_read(&mut self)
        ensures later { self.old.read_faults ≤ self.new.read_faults }
        ensures raised { self.new ≡ record self.old { error = None; read_faults = raised self.old.read_faults } }
    {
        self.error = None;
        self.read_faults = self.read_faults.saturating_add(1);
    }

    /// Counts an append that failed, and keeps its error.
    pub(crate) fn count_append_fault(&mut self, error: io::Error)
        ensures later { self.old.append_faults ≤ self.new.append_faults }
        ensures raised { self.new ≡ record self.old { error = Some error; append_faults = raised self.old.append_faults } }
    {
        self.error = Some(error);
        self.append_faults = self.append_faults.saturating_add(1);
    }
}

impl<R: rt::Files> Files for HostFiles<R> {
    ghost tells = { false };

    ghost held = { λ _ _. None };

    ghost begun = { λ files. option_map (λ _. []) files.file };

    ghost unread = { λ _. [] };

    ghost allowance = { λ files. files.allowance };

    ghost read_faults = { λ files. files.read_faults };

    ghost append_faults = { λ files. files.append_faults };

    ghost faults_about = { λ files _. files.faults_about };

    fn exists(&mut self, name: &str) -> Result<bool, IoFault> {
        self.look_for(name)
    }

    fn begin(&mut self, name: &str) -> Result<(), IoFault> {
        self.open(name)
    }

    fn read(&mut self, buf: &mut [u8]) -> Result<usize, IoFault> {
        let most = buf.len().min(self.allowance);
        let Some(file) = &mut self.file else {
            self.count_stray_read();
            return Err(IoFault::Failed);
        };
        let outcome = if most > 0 || buf.is_empty() {
            file.read(&mut buf[..most])
        } else {
            Err(io::ErrorKind::FileTooLarge.into())
        };
        match outcome {
            Ok(count) => {
                self.allowance -= count;
                Ok(count)
            }
            Err(error) => {
                self.count_read_fault(error);
                Err(IoFault::Failed)
            }
        }
    }

    fn append(&mut self, name: &str, bytes: &[u8]) -> Result<(), IoFault> {
        self.put(name, bytes)
    }
}

/// Standard output, or any other writer. The system's reason why the last write failed is kept.
#[derive(Drop)]
pub struct HostSink<W: Write> {
    out: W,
    error: Option<io::Error>,
    faults: u64,
}

impl<W: Write> HostSink<W> {
    /// The count of faults is 0.
    pub fn new(out: W) -> HostSink<W>
        ensures faults { result.faults ≡ 0 }
    {
        HostSink {
            out,
            error: None,
            faults: 0,
        }
    }

    /// Why the last write failed, if one did.
    pub fn error(&self) -> Option<io::Error> {
        self.error
    }

    /// Counts a write that failed, and keeps its error.
    fn count_fault(&mut self, error: io::Error)
        ensures later { self.old.faults ≤ self.new.faults }
        ensures raised { self.new ≡ record self.old { error = Some error; faults = raised self.old.faults } }
    {
        self.error = Some(error);
        self.faults = self.faults.saturating_add(1);
    }
}

impl<W: Write> Sink for HostSink<W> {
    ghost taken = { λ _. None };

    ghost faults = { λ sink. sink.faults };

    ghost wants = { λ _. 0 };

    fn write(&mut self, bytes: &[u8]) -> Result<usize, IoFault> {
        match self.out.write(bytes) {
            Ok(count) if count > 0 || bytes.is_empty() => Ok(count),
            Ok(_) => {
                self.count_fault(io::ErrorKind::WriteZero.into());
                Err(IoFault::Failed)
            }
            Err(error) => {
                self.count_fault(error);
                Err(IoFault::Failed)
            }
        }
    }
}
