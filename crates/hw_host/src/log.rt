//! The log of a node, as one process has it.
ghost use Rattle.std.specs.Prelude.{◌≡◌, ◌++◌, string_bytes, IfOk, None};

use crate::complaints::Voice;
use crate::journal::{Room, Shortage};
use std::alloc::{AllocError, Global};
use std::cell::RefCell;
use std::fs::{File, OpenFile, TryLockError};
use std::io::{ErrorKind, Write};
use std::os::unix::fs::MetadataExt;
use std::path::Path;
use std::time::Instant;
use std::{fs, io, rt};

/// The name of a log's lock is that of the log with this after it.
const LOCK_SUFFIX: &str = ".lock";

/// The name of the file that becomes the log is that of the log with this after it.
const PART_SUFFIX: &str = ".part";

/// The log that a node appends to. One process has it at a time, nobody else appends to it, and what was
/// appended is on the disk before anything is sent.
///
/// The process has the log while it has an advisory lock of the system on the file `LOG.lock` beside it.
/// It takes that before it reads the log for the first time. The system frees the lock when the process
/// ends, however it ends. The file stays, and is empty. From its first append on the process also has such
/// a lock on the log itself, so that the log is safe under its other names too.
///
/// Where there is no log, the first append writes the file `LOG.part`, puts it on the disk and gives it the
/// log's name. So a log is there with all of that append, or isn't there. It is in its folder after a crash of
/// the machine too, where the folder can be synced.
///
/// An append fails where another process has the log, where the file isn't as long as this process found it or left
/// it, and where it hasn't the log's name any more. After an append or a sync that failed, each later append fails. What
/// an append wrote that failed is cut off again, if the system does it.
///
/// That a new log is made is reported on standard error, and that the journal is nearly full.
#[derive(Drop)]
pub struct LogFile {
    name: String,
    lock_name: String,
    part_name: String,
    state: RefCell<LogState>,
}

impl LogFile {
    /// The log of that name. No file was opened yet.
    pub fn new(alloc: Global, name: &str) -> Result<LogFile, AllocError>
        ensures name { IfOk result (λ log. string_bytes log.name ≡ name.now) }
    {
        let lock_name = beside(alloc, name, LOCK_SUFFIX)?;
        let part_name = beside(alloc, name, PART_SUFFIX)?;
        let name = String::from_str(alloc, name)?;
        Ok(LogFile {
            name,
            lock_name,
            part_name,
            state: RefCell::new(LogState::new()),
        })
    }

    /// Takes the log for this process, as the first read of it does, for who reads it before the node does. It is an
    /// error where another process has it.
    pub fn hold<R: rt::Files<File = File>>(&self, runtime: &R) -> io::Result<()> {
        self.take(runtime)
    }

    /// Refuses the log from now on, as if another process had it. The reason is told where it is looked for.
    pub fn refuse(&self, reason: &'static str) {
        if let Ok(mut state) = self.state.try_borrow_mut() {
            state.lost = Some(io::Error::new(ErrorKind::ResourceBusy, reason));
        }
    }

    /// Counts the entries of the log, which may have `limit` of them and has `used` now, and says on standard error
    /// when it is nearly full.
    pub fn count_entries<R: Voice>(&self, runtime: &R, limit: u64, used: u64) {
        let Ok(now) = Instant::now(runtime) else {
            return
        };
        if let Ok(mut state) = self.state.try_borrow_mut() {
            let mut room = Room::new(limit, used, now);
            if let Some(shortage) = room.news(now) {
                tell_shortage(runtime, self.name.as_str(), shortage);
            }
            state.room = Some(room);
        }
    }

    /// How many entries this process appended.
    pub(crate) fn appended(&self) -> u64 {
        match self.state.try_borrow() {
            Ok(state) => state.appended,
            Err(_) => 0,
        }
    }

    /// Reports what the last append makes worth a report: that the log is new, or that it is nearly full.
    pub(crate) fn report<R: rt::Files<File = File> + Voice>(&self, runtime: &R) {
        let Ok(mut state) = self.state.try_borrow_mut() else {
            return
        };
        if state.is_new {
            state.is_new = false;
            tell_new(runtime, self.name.as_str());
        }
        if let Some(shortage) = state.shortage(runtime) {
            tell_shortage(runtime, self.name.as_str(), shortage);
        }
    }

    /// Whether it is the log of that name.
    pub(crate) fn is(&self, name: &str) -> bool {
        self.name.as_str() == name
    }

    /// The name of the log.
    pub(crate) fn name(&self) -> &str {
        self.name.as_str()
    }

    /// The file to blame for this error of an append: the lock, where it can't be made or taken.
    pub(crate) fn blamed(&self, error: io::Error) -> &str {
        match self.state.try_borrow() {
            Ok(state) if state.lock.is_none() && error.kind() != ErrorKind::ResourceBusy => {
                self.lock_name.as_str()
            }
            _ => self.name.as_str(),
        }
    }

    /// Takes the log for this process, unless it has it already. It is an error only where another process
    /// has it: where the lock can't be made or taken, appends fail and the log can still be read.
    pub(crate) fn take<R: rt::Files<File = File>>(&self, runtime: &R) -> io::Result<()> {
        let mut state = self.state.try_borrow_mut()?;
        match state.take(runtime, self.lock_name.as_str()) {
            Err(error) if error.kind() == ErrorKind::ResourceBusy => Err(error),
            _ => Ok(()),
        }
    }

    /// Keeps how long the log was found, where it wasn't found before.
    pub(crate) fn found(&self, length: u64) {
        if let Ok(mut state) = self.state.try_borrow_mut() {
            state.found(length);
        }
    }

    /// Puts the bytes at the end of the log, and makes it where it is missing.
    pub(crate) fn append<R: rt::Files<File = File>>(
        &self,
        runtime: &R,
        bytes: &[u8],
    ) -> io::Result<()> {
        let mut state = self.state.try_borrow_mut()?;
        state.take(runtime, self.lock_name.as_str())?;
        let (name, part_name) = (self.name.as_str(), self.part_name.as_str());
        let outcome = if state.has_none(runtime, name) {
            state.make(runtime, name, part_name, bytes)
        } else {
            state.put(runtime, name, bytes)
        };
        state.lose_on(outcome)
    }

    /// Puts on the disk what was appended since the last call. After an error each later call fails too.
    pub(crate) fn sync(&self) -> io::Result<()> {
        let mut state = self.state.try_borrow_mut()?;
        state.sync()
    }
}

/// What the process knows of the log, and the files that it has open for it.
#[derive(Drop)]
struct LogState {
    /// The lock, once it is taken.
    lock: Option<File>,
    /// The log, open to append to it.
    file: Option<File>,
    /// The folder of the log, where this process made the log and that isn't on the disk.
    folder: Option<File>,
    /// How long the log is for this process.
    length: Option<u64>,
    /// Whether something was appended that isn't on the disk.
    unsynced: bool,
    /// Why nothing can be appended any more.
    lost: Option<io::Error>,
    /// Whether this process made the log, which isn't reported.
    is_new: bool,
    /// How many entries this process appended.
    appended: u64,
    /// How full it is, if its entries are counted.
    room: Option<Room>,
}

impl LogState {
    fn new() -> LogState {
        LogState {
            lock: None,
            file: None,
            folder: None,
            length: None,
            unsynced: false,
            lost: None,
            is_new: false,
            appended: 0,
            room: None,
        }
    }

    /// What is to be said of a journal that is nearly full, if it wasn't said.
    fn shortage<R: Voice>(&mut self, runtime: &R) -> Option<Shortage> {
        let room = self.room.as_mut()?;
        room.news(Instant::now(runtime).ok()?)
    }

    /// Counts an entry.
    fn count(&mut self) {
        self.appended = self.appended.saturating_add(1);
        if let Some(room) = &mut self.room {
            room.take();
        }
    }

    fn found(&mut self, length: u64) {
        if self.length.is_none() {
            self.length = Some(length);
        }
    }

    /// Takes the lock, unless it was taken, or was refused before.
    fn take<R: rt::Files<File = File>>(&mut self, runtime: &R, lock_name: &str) -> io::Result<()> {
        if let Some(error) = self.lost {
            return Err(error);
        }
        if self.lock.is_some() {
            return Ok(());
        }
        match opened_alone(runtime, lock_name) {
            Ok(lock) => {
                self.lock = Some(lock);
                Ok(())
            }
            Err(error) => self.lose_on(Err(error)),
        }
    }

    /// Hands the outcome on, and keeps its error as what later appends answer.
    fn lose_on(&mut self, outcome: io::Result<()>) -> io::Result<()> {
        if let Err(error) = outcome {
            self.lost = Some(error);
        }
        outcome
    }

    /// Whether there is no log, and this process found none.
    fn has_none<R: rt::Files<File = File>>(&self, runtime: &R, name: &str) -> bool {
        if self.file.is_some() || matches!(self.length, Some(known) if known > 0) {
            return false;
        }
        // A link that leads nowhere is there: what it names is made in its place.
        match fs::symlink_metadata(runtime, name) {
            Ok(_) => false,
            Err(error) => error.kind() == ErrorKind::NotFound,
        }
    }

    /// Makes the log with these bytes.
    fn make<R: rt::Files<File = File>>(
        &mut self,
        runtime: &R,
        name: &str,
        part_name: &str,
        bytes: &[u8],
    ) -> io::Result<()> {
        // A process that was killed may have left one.
        let _ = fs::remove_file(runtime, part_name);
        let mut file = opened_alone(runtime, part_name)?;
        file.write_all(bytes)?;
        file.sync_data()?;
        fs::rename(runtime, part_name, name)?;
        self.folder = folder_of(runtime, name).ok();
        self.unsynced = true;
        self.length = Some(bytes.len() as u64);
        self.file = Some(file);
        self.is_new = true;
        Ok(())
    }

    /// Appends where the log is as long as this process found it or left it, and has its name.
    fn put<R: rt::Files<File = File>>(
        &mut self,
        runtime: &R,
        name: &str,
        bytes: &[u8],
    ) -> io::Result<()> {
        let mut file = match self.file.take() {
            Some(file) => file,
            None => opened_alone(runtime, name)?,
        };
        let length = length_of(runtime, name, &file)?;
        if length == 0 {
            self.folder = folder_of(runtime, name).ok();
        }
        if matches!(self.length, Some(known) if known != length) {
            return Err(io::Error::other("another process wrote to it"));
        }
        self.unsynced = true;
        if let Err(error) = file.write_all(bytes) {
            // Half an entry would have to be cut by a person.
            let _ = file.set_len(length);
            return Err(error);
        }
        self.length = length.checked_add(bytes.len() as u64);
        self.file = Some(file);
        self.count();
        Ok(())
    }

    fn sync(&mut self) -> io::Result<()> {
        if !self.unsynced {
            return Ok(());
        }
        if let Some(error) = self.lost {
            return Err(error);
        }
        let outcome = match &self.file {
            Some(file) => file.sync_data(),
            None => Ok(()),
        };
        // A folder that can't be synced is no fault of the log.
        if let Some(folder) = self.folder.take() {
            let _ = folder.sync_all();
        }
        self.unsynced = outcome.is_err();
        self.lose_on(outcome)
    }
}

/// How long this file is. It is an error where another file has its name, or none.
fn length_of<R: rt::Files<File = File>>(runtime: &R, name: &str, file: &File) -> io::Result<u64> {
    let open = file.metadata()?;
    let named = match fs::metadata(runtime, name) {
        Err(error) if error.kind() == ErrorKind::NotFound => {
            return Err(io::Error::other("it was renamed or removed"));
        }
        outcome => outcome?,
    };
    if open.dev() != named.dev() || open.ino() != named.ino() {
        return Err(io::Error::other("another file has its name"));
    }
    Ok(open.len())
}

/// Says where a new log was made.
fn tell_new<R: rt::Files + Voice>(runtime: &R, name: &str) {
    let _ = match fs::canonicalize(runtime, name) {
        Ok(whole) => {
            let whole = whole.as_str();
            eprintln!(runtime; "highway: {name}: makes a new log: {whole}")
        }
        Err(_) => eprintln!(runtime; "highway: {name}: makes a new log"),
    };
}

/// Says how full a journal is.
fn tell_shortage<R: Voice>(runtime: &R, name: &str, shortage: Shortage) {
    let Shortage {
        used,
        limit,
        left,
        hourly,
        minutes,
    } = shortage;
    let _ = match minutes {
        _ if left == 0 => eprintln!(runtime;
            "highway: {name}: all {limit} entries are used: nothing more comes in, and nothing more becomes final"
        ),
        Some(minutes) => eprintln!(runtime;
            "highway: {name}: {used} of {limit} entries are used; {left} are left, for {minutes} minutes at {hourly} an hour"
        ),
        None => eprintln!(runtime;
            "highway: {name}: {used} of {limit} entries are used; {left} are left"
        ),
    };
}

/// The name of a file beside the log of that name.
fn beside(alloc: Global, name: &str, suffix: &str) -> Result<String, AllocError> {
    format!(in alloc; "{name}{suffix}")
}

/// The file of that name, open to append to it, and made where it is missing. This process alone has it.
fn opened_alone<R: rt::Files<File = File>>(runtime: &R, name: &str) -> io::Result<File> {
    let file = fs::OpenOptions::new()
        .append(true)
        .create(true)
        .open(runtime, name)?;
    match file.try_lock() {
        Ok(()) => Ok(file),
        Err(TryLockError::WouldBlock) => Err(io::Error::new(
            ErrorKind::ResourceBusy,
            "another process has it",
        )),
        Err(TryLockError::Error(error)) => Err(error),
    }
}

/// The folder of this file, open to put on the disk which files it has.
fn folder_of<R: rt::Files<File = File>>(runtime: &R, name: &str) -> io::Result<File> {
    let folder = match Path::new(name).parent() {
        Some(folder) if !folder.as_str().is_empty() => folder,
        _ => Path::new("."),
    };
    fs::open(runtime, folder)
}
