//! Files in memory, of which one at a time is read. It fails only where the rules of `Files` say so.
ghost use Rattle.std.specs.Prelude.{◌≡◌, ◌≢◌, ◌↔◌, ◌+◌, ◌-◌, ◌^◌, ◌<◌, ◌≤◌, ◌⊎◌, [], ◌++◌, Some, None, IfSome, IfNone, length, take, drop, vec_len, IsTrue, IsSome, IsNone, IsErr, OnErr, OnOk, IfOk, IfErr};
ghost use Rattle.std.specs.Bool.{OnTrue, OnFalse};
ghost use Rattle.std.specs.Option.{ForSome, option_copied};
ghost use Rattle.std.specs.Io.KnownBytes.{ReadConsumes};
ghost use Rattle.std.specs.Io.{ReadsAtMost};
ghost use Rattle.hw_io.specs.{Files.{Begins, Appended, Spends}, Faults.{subject_of, FailsAbout, OnlyAbout}};
ghost use Rattle.hw_doubles.specs.Shelves.{place_in, held_in, begun_in, unread_in, allowance_of, faults_in, AddsFile};

use hw_io::{IoFault, READ_LIMIT};
use std::alloc::{AllocError, Global};

/// A file under its name.
#[derive(Drop)]
pub(crate) struct StoredFile {
    name: Vec<u8>,
    bytes: Vec<u8>,
}

/// The place of the file that is read, and how many of its bytes were given.
#[derive(Clone, Copy)]
pub(crate) struct Reading {
    place: usize,
    given: usize,
}

/// Files in memory, the one that was begun, and the names of the files about which calls failed. Reads
/// give at most `piece` bytes at once.
#[derive(Drop)]
pub(crate) struct Shelf {
    pub(crate) files: Vec<StoredFile>,
    pub(crate) reading: Option<Reading>,
    pub(crate) blamed: Vec<Vec<u8>>,
    piece: usize,
    ghost within: { ForSome reading (λ r. r.place < vec_len files) },
}

impl Shelf {
    pub(crate) fn new(alloc: Global, piece: usize) -> Shelf
        ensures files { result.files.items ≡ [] }
        ensures begun { result.reading ≡ None }
        ensures blamed { result.blamed.items ≡ [] }
    {
        Shelf {
            files: Vec::new(alloc),
            reading: None,
            blamed: Vec::new(alloc),
            piece,
        }
    }

    fn place_of(&self, name: &str) -> Option<usize>
        ensures { result ≡ place_in self.now.files.items name.now }
    {
        self.files
            .iter()
            .position(|file| file.name.as_slice() == name.as_bytes())
    }

    pub(crate) fn has(&self, name: &str) -> bool
        ensures { IsTrue result ↔ IsSome (held_in self.now.files.items name.now) }
    {
        self.place_of(name).is_some()
    }

    pub(crate) fn file(&self, name: &str) -> Option<&[u8]>
        ensures { option_copied result ≡ held_in self.now.files.items name.now }
    {
        match self.place_of(name) {
            Some(place) => Some(self.files[place].bytes.as_slice()),
            None => None,
        }
    }

    /// Begins the file of that name, or none where there is none.
    pub(crate) fn begin(&mut self, name: &str) -> bool
        ensures there { IsTrue result ↔ IsSome (held_in self.old.files.items name.now) }
        ensures begun { OnTrue result (Begins (held_in self.old.files.items name.now) name.now
            (begun_in self.new.files.items self.new.reading) (unread_in self.new.files.items self.new.reading)) }
        ensures subject { begun_in self.new.files.items self.new.reading ≡ subject_of (held_in self.old.files.items name.now) name.now }
        ensures none { OnFalse result (self.new.reading ≡ None) }
        ensures allowance { allowance_of self.new.reading ≤ 2 ^ 62 }
        ensures files { self.new.files ≡ self.old.files }
        ensures blamed { self.new.blamed ≡ self.old.blamed }
    {
        match self.place_of(name) {
            Some(place) => {
                self.reading = Some(Reading { place, given: 0 });
                true
            }
            None => {
                self.reading = None;
                false
            }
        }
    }

    /// Begins no file.
    pub(crate) fn close(&mut self)
        ensures none { self.new.reading ≡ None }
        ensures files { self.new.files ≡ self.old.files }
        ensures blamed { self.new.blamed ≡ self.old.blamed }
    {
        self.reading = None;
    }

    /// Keeps that a call about the file of this name failed.
    pub(crate) fn blame(&mut self, name: &str) -> Result<(), AllocError>
        ensures ok { OnOk result (FailsAbout (Some name.now) (faults_in self.old.blamed.items) (faults_in self.new.blamed.items)) }
        ensures only { OnlyAbout (Some name.now) (faults_in self.old.blamed.items) (faults_in self.new.blamed.items) }
        ensures err { OnErr result (self.new.blamed.items ≡ self.old.blamed.items) }
        ensures files { self.new.files ≡ self.old.files }
        ensures reading { self.new.reading ≡ self.old.reading }
    {
        let name = Vec::from_slice(*self.files.allocator(), name.as_bytes())?;
        self.keep_blame(name)
    }

    /// Keeps that a call about the file that was begun failed. Where none was, it was about no file.
    pub(crate) fn blame_begun(&mut self) -> Result<(), AllocError>
        ensures ok { OnOk result (FailsAbout (begun_in self.old.files.items self.old.reading) (faults_in self.old.blamed.items) (faults_in self.new.blamed.items)) }
        ensures only { OnlyAbout (begun_in self.old.files.items self.old.reading) (faults_in self.old.blamed.items) (faults_in self.new.blamed.items) }
        ensures err { OnErr result (self.new.blamed.items ≡ self.old.blamed.items) }
        ensures files { self.new.files ≡ self.old.files }
        ensures reading { self.new.reading ≡ self.old.reading }
    {
        let alloc = *self.files.allocator();
        match self.begun_name() {
            Some(name) => {
                let name = Vec::from_slice(alloc, name)?;
                self.keep_blame(name)
            }
            None => Ok(()),
        }
    }

    /// The name of the file that was begun.
    fn begun_name(&self) -> Option<&[u8]>
        ensures { option_copied result ≡ begun_in self.now.files.items self.now.reading }
    {
        let reading = self.reading?;
        match self.files.get(reading.place) {
            Some(file) => Some(file.name.as_slice()),
            None => None,
        }
    }

    /// Keeps one more name of a file about which a call failed.
    fn keep_blame(&mut self, name: Vec<u8>) -> Result<(), AllocError>
        ensures ok { OnOk result (FailsAbout (Some name.items) (faults_in self.old.blamed.items) (faults_in self.new.blamed.items)) }
        ensures only { OnlyAbout (Some name.items) (faults_in self.old.blamed.items) (faults_in self.new.blamed.items) }
        ensures err { OnErr result (self.new.blamed.items ≡ self.old.blamed.items) }
        ensures files { self.new.files ≡ self.old.files }
        ensures reading { self.new.reading ≡ self.old.reading }
    {
        self.blamed.push(name)?;
        Ok(())
    }

    /// Reads the next bytes. It fails only where no file is begun or 2^62 bytes were given.
    pub(crate) fn read(&mut self, buf: &mut [u8]) -> Result<usize, IoFault>
        ensures bound { ReadsAtMost result buf.new }
        ensures bytes { ReadConsumes (Some (unread_in self.old.files.items self.old.reading)) (Some (unread_in self.new.files.items self.new.reading)) result buf.new }
        ensures none { IsNone (begun_in self.old.files.items self.old.reading) → IsErr result }
        ensures allowance { Spends (allowance_of self.old.reading) (allowance_of self.new.reading) result }
        ensures cause { IfErr result (λ fault. (fault ≡ IoFault.Failed) × ((self.old.reading ≡ None) ⊎ (allowance_of self.old.reading ≡ 0))) }

        ensures files { self.new.files ≡ self.old.files }
        ensures begun { begun_in self.new.files.items self.new.reading ≡ begun_in self.old.files.items self.old.reading }
        ensures blamed { self.new.blamed ≡ self.old.blamed }
    {
        let Some(reading) = self.reading else {
            return Err(IoFault::Failed);
        };
        let bytes = self.files[reading.place].bytes.as_slice();
        let Some(count) = give(bytes, reading.given, self.piece, buf) else {
            return Err(IoFault::Failed);
        };
        self.reading = Some(Reading {
            place: reading.place,
            given: reading.given + count,
        });
        Ok(count)
    }

    /// Puts the bytes at the end of the file, which is made where it is missing. Where memory is
    /// wanting nothing changes.
    pub(crate) fn append(&mut self, name: &str, bytes: &[u8]) -> Result<(), AllocError>
        ensures bytes { Appended (held_in self.old.files.items) (held_in self.new.files.items) name.now bytes.now result }
        ensures reading { self.new.reading ≡ self.old.reading }
        ensures blamed { self.new.blamed ≡ self.old.blamed }
        ensures begun { begun_in self.new.files.items self.new.reading ≡ begun_in self.old.files.items self.old.reading }
        ensures unread { begun_in self.old.files.items self.old.reading ≢ Some name.now →
            unread_in self.new.files.items self.new.reading ≡ unread_in self.old.files.items self.old.reading }
    {
        match self.place_of(name) {
            Some(place) => self.files[place].bytes.extend_from_slice(bytes),
            None => self.add(name, bytes),
        }
    }

    /// Adds a file behind the others.
    fn add(&mut self, name: &str, bytes: &[u8]) -> Result<(), AllocError>
        ensures ok { OnOk result (AddsFile self.old.files.items self.new.files.items name.now bytes.now) }
        ensures err { OnErr result (self.new.files.items ≡ self.old.files.items) }
        ensures reading { self.new.reading ≡ self.old.reading }
        ensures blamed { self.new.blamed ≡ self.old.blamed }
    {
        let file = stored(*self.files.allocator(), name, bytes)?;
        self.files.push(file)?;
        Ok(())
    }
}

/// A file of this name with these bytes.
fn stored(alloc: Global, name: &str, bytes: &[u8]) -> Result<StoredFile, AllocError>
    ensures named { IfOk result (λ file. file.name.items ≡ name.now) }
    ensures holds { IfOk result (λ file. file.bytes.items ≡ bytes.now) }
{
    let name = Vec::from_slice(alloc, name.as_bytes())?;
    let bytes = Vec::from_slice(alloc, bytes)?;
    Ok(StoredFile { name, bytes })
}

/// Copies the bytes behind those that were given, at most `piece` of them, and answers how many.
/// Where more are left and the limit is reached it is `None`.
fn give(bytes: &[u8], given: usize, piece: usize, buf: &mut [u8]) -> Option<usize>
    ensures bound { IfSome result (λ count. count ≤ length buf.new) }
    ensures bytes { IfSome result (λ count. drop given bytes.now ≡ take count buf.new ++ drop (given + count) bytes.now) }
    ensures end { IfSome result (λ count. count ≡ 0 → 0 < length buf.new → drop (given + count) bytes.now ≡ []) }
    ensures allowance { IfSome result (λ count. (2 ^ 62 - (given + count)) + count ≡ 2 ^ 62 - given) }
    ensures limit { IfNone result (2 ^ 62 ≤ given) }
{
    let rest = rest_of(bytes, given);
    let most = rest.len().min(buf.len()).min(piece.max(1));
    let allowance = READ_LIMIT.saturating_sub(given);
    if most > 0 && allowance == 0 {
        return None;
    }
    let count = most.min(allowance);
    copy_front(rest, buf, count);
    Some(count)
}

/// The bytes behind those that were given.
pub(crate) fn rest_of(bytes: &[u8], given: usize) -> &[u8]
    ensures { result.now ≡ drop given bytes.now }
{
    if given < bytes.len() {
        &bytes[given..]
    } else {
        &bytes[bytes.len()..]
    }
}

/// Copies the first `count` bytes.
pub(crate) fn copy_front(from: &[u8], to: &mut [u8], count: usize)
    requires in_from { count ≤ length from.now }
    requires in_to { count ≤ length to.old }
    ensures { take count to.new ≡ take count from.now }
{
    to[..count].copy_from_slice(&from[..count]);
}
