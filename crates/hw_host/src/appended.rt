//! Appends to the files of a runtime. The file that was appended to last stays open.
ghost use Rattle.std.specs.Prelude.{◌≡◌, ◌<◌, ◌↔◌, length, IsTrue, MatchOption, IsSomeAnd, Some, None, IfOk, OnOk, OnErr};

use std::io::Write;
use std::marker::Model;
use std::{fs, io, rt};

/// How many bytes a name has at most that is kept with its file.
const NAME_LIMIT: usize = 64;

/// A name of at most 64 bytes, held in place, so that it needs no memory of its own.
#[derive(Drop)]
struct ShortName {
    bytes: [u8; NAME_LIMIT],
    length: usize,
}

impl Model for ShortName {
    ghost use Rattle.std.specs.Prelude.{ℕ, ◌≤◌, List, take};

    ghost Value = { List ℕ };

    ghost view = { λ name. take name.length name.bytes };

    ghost invariant = { λ name. name.length ≤ 64 };
}

impl ShortName {
    /// The name, or none where it is longer than 64 bytes.
    fn new(name: &str) -> Option<ShortName>
        ensures { MatchOption result (64 < length name.now) (λ short. short ≡ name.now) }
    {
        let length = name.len();
        if length > NAME_LIMIT {
            return None;
        }
        let mut bytes = [0; NAME_LIMIT];
        bytes[..length].copy_from_slice(name.as_bytes());
        Some(ShortName { bytes, length })
    }

    fn is(&self, name: &str) -> bool
        ensures { IsTrue result ↔ (self.now ≡ name.now) }
    {
        &self.bytes[..self.length] == name.as_bytes()
    }
}

/// A file that is open to append to it, and the name that it was opened by, if that is short.
#[derive(Drop)]
pub(crate) struct Appended<F> {
    name: Option<ShortName>,
    file: F,
}

impl<F> Appended<F> {
    /// Whether the file was opened by this name. For a name longer than 64 bytes that isn't known, and
    /// the answer is no.
    fn is(&self, name: &str) -> bool
        ensures { IsTrue result ↔ (self.now.name ≡ Some name.now) }
    {
        match &self.name {
            Some(short) => short.is(name),
            None => false,
        }
    }

    /// Writes all of the bytes, by one write where the system takes them all.
    fn write(&mut self, bytes: &[u8]) -> io::Result<()>
    where
        F: Write,
        ensures { self.new.name ≡ self.old.name }
    {
        self.file.write_all(bytes)?;
        self.file.flush()
    }
}

/// Opens the file of that name to append to it, and makes it where it is missing.
fn open<R: rt::Files>(runtime: &R, name: &str) -> io::Result<Appended<R::File>>
    ensures { IfOk result (λ appended. MatchOption appended.name (64 < length name.now) (λ short. short ≡ name.now)) }
{
    let file = fs::OpenOptions::new()
        .append(true)
        .create(true)
        .open(runtime, name)?;
    Ok(Appended {
        name: ShortName::new(name),
        file,
    })
}

/// Puts the bytes at the end of the file of that name, and keeps the file. Where the file that was kept
/// has that name, it goes on with that one, and otherwise it opens the file. After an error none is kept.
pub(crate) fn append_to<R: rt::Files>(
    runtime: &R,
    kept: &mut Option<Appended<R::File>>,
    name: &str,
    bytes: &[u8],
) -> io::Result<()>
    ensures kept { OnOk result (IsSomeAnd kept.new (λ appended. MatchOption appended.name (64 < length name.now) (λ short. short ≡ name.now))) }
    ensures closed { OnErr result (kept.new ≡ None) }
{
    let mut appended = match kept.take() {
        Some(appended) if appended.is(name) => appended,
        _ => open(runtime, name)?,
    };
    appended.write(bytes)?;
    *kept = Some(appended);
    Ok(())
}
