//! Files that report on standard error why a call failed.
ghost use Rattle.std.specs.{Prelude.{◌≡◌, [], false, None}, Option.{option_map}};

use crate::files::HostFiles;
use hw_io::{Files, IoFault};
use std::rt;

/// The files of a runtime, as `HostFiles` has them, for a consumer. Each failure is reported on standard error, with
/// the file's name and the system's reason. A consumer that fails is dropped, so there is no need to count them.
///
/// It isn't `NodeFiles` without a log, since a consumer is a trait object, which can't hold what has a lifetime.
#[derive(Drop)]
pub struct ToldFiles<R: rt::Files + Eprint + Copy> {
    runtime: R,
    files: HostFiles<R>,
}

impl<R: rt::Files + Eprint + Copy> ToldFiles<R> {
    /// No file is begun, and no call failed.
    pub fn new(runtime: R) -> ToldFiles<R>
        ensures begun { result.files.file ≡ None }
        ensures read_faults { result.files.read_faults ≡ 0 }
        ensures faults_about { result.files.faults_about ≡ 0 }
        ensures append_faults { result.files.append_faults ≡ 0 }
    {
        ToldFiles {
            runtime,
            files: HostFiles::new(runtime),
        }
    }

    /// Reports why the last call failed, if it did.
    fn tell(&self, name: &str, has_failed: bool) {
        match self.files.error() {
            Some(error) if has_failed => {
                let _ = eprintln!(self.runtime; "highway: {name}: {error}");
            }
            _ => {}
        }
    }
}

impl<R: rt::Files + Eprint + Copy> Files for ToldFiles<R> {
    ghost tells = { false };

    ghost held = { λ _ _. None };

    ghost begun = { λ files. option_map (λ _. []) files.files.file };

    ghost unread = { λ _. [] };

    ghost allowance = { λ files. files.files.allowance };

    ghost read_faults = { λ files. files.files.read_faults };

    ghost append_faults = { λ files. files.files.append_faults };

    ghost faults_about = { λ files _. files.files.faults_about };

    fn exists(&mut self, name: &str) -> Result<bool, IoFault> {
        let outcome = self.files.exists(name);
        self.tell(name, outcome.is_err());
        outcome
    }

    fn begin(&mut self, name: &str) -> Result<(), IoFault> {
        let outcome = self.files.begin(name);
        self.tell(name, outcome.is_err());
        outcome
    }

    fn read(&mut self, buf: &mut [u8]) -> Result<usize, IoFault> {
        let outcome = self.files.read(buf);
        self.tell("a file", outcome.is_err());
        outcome
    }

    fn append(&mut self, name: &str, bytes: &[u8]) -> Result<(), IoFault> {
        let outcome = self.files.append(name, bytes);
        self.tell(name, outcome.is_err());
        outcome
    }
}
