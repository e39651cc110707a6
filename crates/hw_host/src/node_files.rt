//! The files of a node that runs: its log is safe, and each failure is reported to a person.
ghost use Rattle.std.specs.{Prelude.{◌≡◌, ◌≤◌, ◌^◌, [], false, None, IfErr, OnOk, OnErr}, Option.{option_map}};
ghost use Rattle.hw_io.specs.Faults.{HasCause, raised};

use crate::complaints::{Complaints, Voice};
use crate::files::HostFiles;
use crate::log::LogFile;
use crate::values::is_values_file;
use hw_io::{Files, IoFault, READ_LIMIT};
use std::fs::File;
use std::io::ErrorKind;
use std::{io, rt};

/// As many bytes as are given of any file.
pub const NO_LIMIT: usize = READ_LIMIT;

/// The files of a runtime, as `HostFiles` has them, of which one may be the log of a node. That one is
/// appended to as `LogFile` says, and where another process has it, it can't be read either.
///
/// Each failure is reported on standard error, with the file's name and the system's reason. The file of the values of
/// blocks is none of them: to look for it and to begin it fails, so that nothing else is written into it.
///
/// Files may have a limit, so that one that is read at once, and has no end, is a read fault and doesn't run the
/// program out of memory.
#[derive(Drop)]
pub struct NodeFiles<'a, R: rt::Files<File = File> + Voice> {
    runtime: R,
    files: HostFiles<R>,
    log: Option<&'a LogFile>,
    limit: usize,
    unlimited: Option<&'a str>,
    begun: Begun<'a>,
    complaints: Complaints<R>,
}

/// What the file that is begun is called, if there was memory for it, and the log, if it is that.
#[derive(Drop)]
struct Begun<'a> {
    name: Option<String>,
    log: Option<&'a LogFile>,
}

impl<'a, R: rt::Files<File = File> + Voice> NodeFiles<'a, R> {
    /// No file is begun, and no call failed.
    pub fn new(runtime: R, log: Option<&'a LogFile>) -> NodeFiles<'a, R>
        ensures begun { result.files.file ≡ None }
        ensures read_faults { result.files.read_faults ≡ 0 }
        ensures faults_about { result.files.faults_about ≡ 0 }
        ensures append_faults { result.files.append_faults ≡ 0 }
    {
        NodeFiles {
            runtime,
            files: HostFiles::new(runtime),
            log,
            limit: NO_LIMIT,
            unlimited: None,
            begun: Begun {
                name: None,
                log: None,
            },
            complaints: Complaints::new(runtime),
        }
    }

    /// The same files, which give at most `limit` bytes of each file but the one named `unlimited`.
    pub fn within(self, limit: usize, unlimited: Option<&'a str>) -> NodeFiles<'a, R>
        ensures { result ≡ record self.entry { limit = limit; unlimited = result.unlimited } }
    {
        NodeFiles {
            limit,
            unlimited,
            ..self
        }
    }

    /// How many bytes of the file of that name are given at most.
    fn limit_of(&self, name: &str) -> usize {
        match self.unlimited {
            Some(unlimited) if unlimited == name => NO_LIMIT,
            _ => self.limit,
        }
    }

    /// The log, if it is that of this name.
    fn log_of(&self, name: &str) -> Option<&'a LogFile> {
        match self.log {
            Some(log) if log.is(name) => Some(log),
            _ => None,
        }
    }

    /// Takes the log for this process, if it is that of this name. It is an error, which is counted as one
    /// of a read, where another process has it, and where the values of blocks go into the file of this name.
    fn take_log(&mut self, name: &str) -> Result<(), IoFault>
        ensures same { OnOk result (self.new ≡ self.old) }
        ensures failed { IfErr result (λ fault. fault ≡ IoFault.Failed) }
        ensures later { self.old.files.read_faults ≤ self.new.files.read_faults }
        ensures raised { OnErr result (self.new.files ≡ record self.old.files { error = self.new.files.error; read_faults = raised self.old.files.read_faults; faults_about = raised self.old.files.faults_about }) }
    {
        let outcome = match self.log_of(name) {
            _ if is_values_file(&self.runtime, name) => Err(io::Error::new(
                ErrorKind::InvalidInput,
                "the values of final blocks go into this file, so it is no other",
            )),
            Some(log) => log.take(&self.runtime),
            None => Ok(()),
        };
        match outcome {
            Ok(()) => Ok(()),
            Err(error) => {
                self.complaints.tell(name, error);
                self.files.count_read_fault(error);
                Err(IoFault::Failed)
            }
        }
    }

    /// Whether there is a file of that name. That there is no log is kept.
    fn look_for(&mut self, name: &str) -> Result<bool, IoFault>
        ensures same { OnOk result (self.new.files ≡ self.old.files) }
        ensures failed { IfErr result (λ fault. fault ≡ IoFault.Failed) }
        ensures later { self.old.files.read_faults ≤ self.new.files.read_faults }
        ensures raised { OnErr result (self.new.files ≡ record self.old.files { error = self.new.files.error; read_faults = raised self.old.files.read_faults; faults_about = raised self.old.files.faults_about }) }
    {
        match self.files.look_for(name) {
            Ok(is_there) => {
                self.note_look(name, is_there);
                Ok(is_there)
            }
            Err(fault) => {
                self.tell(name);
                Err(fault)
            }
        }
    }

    /// Begins the file of that name. At most its limit of bytes is given.
    fn open(&mut self, name: &str) -> Result<(), IoFault>
        ensures begun { OnOk result (self.new.files ≡ record self.old.files { file = self.new.files.file; allowance = self.new.files.allowance }) }
        ensures allowance { OnOk result (self.new.files.allowance ≤ 2 ^ 62) }
        ensures failed { IfErr result (λ fault. fault ≡ IoFault.Failed) }
        ensures later { self.old.files.read_faults ≤ self.new.files.read_faults }
        ensures raised { OnErr result (self.new.files ≡ record self.old.files { file = None; error = self.new.files.error; read_faults = raised self.old.files.read_faults; faults_about = raised self.old.files.faults_about }) }
    {
        match self.files.open(name) {
            Ok(()) => {
                let limit = self.limit_of(name);
                self.files.restrict(limit);
                self.note_begin(name);
                Ok(())
            }
            Err(fault) => {
                self.tell(name);
                Err(fault)
            }
        }
    }

    /// Reports why the last call failed, which was about this name.
    fn tell(&mut self, name: &str)
        ensures { self.new ≡ record self.old { complaints = self.new.complaints } }
    {
        if let Some(error) = self.files.error() {
            self.complaints.tell(name, error);
        }
    }

    /// Puts the bytes at the end of a file that isn't the log.
    fn put(&mut self, name: &str, bytes: &[u8]) -> Result<(), IoFault>
        ensures cause { HasCause self.old.files.append_faults self.new.files.append_faults result }
        ensures rest { self.new.files ≡ record self.old.files { appended = self.new.files.appended; error = self.new.files.error; append_faults = self.new.files.append_faults } }
    {
        let outcome = self.files.put(name, bytes);
        if outcome.is_err() {
            self.tell(name);
        }
        outcome
    }

    /// Puts the bytes at the end of the log.
    fn put_log(&mut self, log: &LogFile, bytes: &[u8]) -> Result<(), IoFault>
        ensures cause { HasCause self.old.files.append_faults self.new.files.append_faults result }
        ensures rest { self.new.files ≡ record self.old.files { error = self.new.files.error; append_faults = self.new.files.append_faults } }
    {
        match log.append(&self.runtime, bytes) {
            Ok(()) => {
                log.report(&self.runtime);
                Ok(())
            }
            Err(error) => {
                self.files.count_append_fault(error);
                self.tell(log.blamed(error));
                Err(IoFault::Failed)
            }
        }
    }

    /// Keeps that there is no log, where it was looked for and isn't there.
    fn note_look(&self, name: &str, is_there: bool) {
        match self.log_of(name) {
            Some(log) if !is_there => log.found(0),
            _ => {}
        }
    }

    /// Keeps which file is begun.
    fn note_begin(&mut self, name: &str)
        ensures { self.new ≡ record self.old { begun = self.new.begun } }
    {
        let kept = String::from_str(self.runtime.alloc(), name);
        self.begun = Begun {
            name: kept.ok(),
            log: self.log_of(name),
        };
    }
}

impl<'a> Begun<'a> {
    fn called(&self) -> &str {
        match &self.name {
            Some(name) => name.as_str(),
            None => "a file",
        }
    }

    /// Keeps how long the log is, where this is the log and all of it was read.
    fn note_end(&self, length: u64) {
        if let Some(log) = self.log {
            log.found(length);
        }
    }
}

/// Keeps that a read of at most `asked` bytes came to the end of the file, or reports why it failed.
fn note_read<R: rt::Files<File = File> + Voice>(
    complaints: &mut Complaints<R>,
    begun: &Begun,
    files: &HostFiles<R>,
    outcome: Result<usize, IoFault>,
    asked: usize,
) {
    match outcome {
        Ok(count) if count == 0 && asked > 0 => begun.note_end(files.given()),
        Ok(_) => {}
        Err(_) => {
            if let Some(error) = files.error() {
                complaints.tell(begun.called(), error);
            }
        }
    }
}

impl<'a, R: rt::Files<File = File> + Voice> Files for NodeFiles<'a, R> {
    ghost tells = { false };

    ghost held = { λ _ _. None };

    ghost begun = { λ files. option_map (λ _. []) files.files.file };

    ghost unread = { λ _. [] };

    ghost allowance = { λ files. files.files.allowance };

    ghost read_faults = { λ files. files.files.read_faults };

    ghost append_faults = { λ files. files.files.append_faults };

    ghost faults_about = { λ files _. files.files.faults_about };

    fn exists(&mut self, name: &str) -> Result<bool, IoFault> {
        self.take_log(name)?;
        self.look_for(name)
    }

    fn begin(&mut self, name: &str) -> Result<(), IoFault> {
        match self.take_log(name) {
            Ok(()) => self.open(name),
            Err(fault) => {
                self.files.leave();
                Err(fault)
            }
        }
    }

    fn read(&mut self, buf: &mut [u8]) -> Result<usize, IoFault> {
        let outcome = self.files.read(buf);
        note_read(
            &mut self.complaints,
            &self.begun,
            &self.files,
            outcome,
            buf.len(),
        );
        outcome
    }

    fn append(&mut self, name: &str, bytes: &[u8]) -> Result<(), IoFault> {
        match self.log_of(name) {
            Some(log) => self.put_log(log, bytes),
            None => self.put(name, bytes),
        }
    }
}
