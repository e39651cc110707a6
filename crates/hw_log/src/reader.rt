//! The reader of a log.

ghost use Rattle.std.specs.Prelude.{◌≡◌, ℕ, ◌+◌, ◌≤◌, ◌<◌, ◌^◌, ◌==◌, Some, None, ◌++◌, length, take, drop, IsTrue, IfOk, IfErr, IfSome, OnOk, OnErr, box_value};
ghost use Rattle.hw_io.specs.{Faults.{subject_of}, Files.{SameFiles, Begins}};
ghost use Rattle.hw_types.specs.{declared.unit.Vertex.TheVariants.{Unit}, Limits.{config_fault}, Reading.{config_of}, Spelling.{ConfigFits, VertexFits}};
ghost use Rattle.hw_log.specs.declared.error.LogError.TheVariants.{Torn, BadConfig, BadVertex, OutOfMemory};
ghost use Rattle.hw_log.specs.Lasts.{IsVersion, lasts_after, noted_in, noted_name, vertex_in};
ghost use Rattle.hw_log.specs.Log.{rest_at, bytes_at, decoded, front_of, checked_config, header_of, head_at, body_at, entry_at, next_at};
ghost use Rattle.hw_log.specs.Causes.{Fails, IsOutside, IsOfBytes, Gives, HasReadCause, IsReadAbout};
ghost use Rattle.hw_log.specs.Named.{IsNameOf, NamesUnit, entry_in, unnamed};
ghost use Rattle.hw_log.specs.Reader.{ReadsLog, Reading, lasts_with, left_of, ahead_of, end_of, PlacesFit, Opens};

use crate::ahead::NamingBuffer;
use crate::entry::{LogEntry, NamedEntry};
use crate::error::{LogError, error_of_read};
use crate::following::{Following, NextUnit, ReadUnit};
use crate::head::{EntryHead, FRONT_LENGTH, Front, HEAD_LENGTH, front_of, head_of};
use crate::lasts::Lasts;
use hw_codec::decode_config;
use hw_io::Files;
use hw_lanes::Part;
use hw_types::{CodecError, Config, Digest, MAX_LENGTH, Vertex};
use std::alloc::{AllocFailed, Global};
use std::marker::Model;

/// Reads a log from its first byte to its end, one entry at a time.
///
/// Contracts see it as the log's configuration, the last units so far, the place of the next entry,
/// and the bytes that were read of the file and not yet used. These and then the file's unread bytes are what is left
/// of the log.
#[derive(Drop)]
pub struct LogReader {
    alloc: Global,
    buffer: NamingBuffer,
    config: Config,
    lasts: Following,
    place: u64,
}

impl Model for LogReader {
    ghost Value = { Reading };

    ghost view = { λ r. record { config = r.config; lasts = r.lasts; place = r.place; held = r.buffer } };
}

/// A vertex that was read, and its name where it is a unit, the name is wanted and the bytes hold the whole unit. It
/// stands in a box from here on.
#[derive(Drop)]
struct ReadVertex {
    vertex: Box<Vertex>,
    name: Option<Digest>,
}

/// A vertex that is spelled, and where in the bytes its unit's spelling stands, where it is a unit, its name is wanted
/// and the bytes hold the whole unit.
#[derive(Drop)]
struct SpelledVertex {
    vertex: Box<Vertex>,
    unit: Option<Part>,
}

impl LogReader {
    /// Begins to read the file of that name, and reads the header of its log.
    ///
    /// What the bytes are no log for is answered with its place; `ReadFault` where the file isn't
    /// there or a read failed.
    #[tactic(auto, using(crate::proofs::OpenLaws::opens_outside, crate::proofs::OpenLaws::opens_there))]
    pub fn begin<F: Files>(alloc: Global, files: &mut F, name: &str) -> Result<LogReader, LogError>
        // The answer is what the header of the file's bytes says.
        ensures said { IsTrue F.tells → Opens (F.held files.old name.now) (F.unread files.new) result }
        ensures checked { IfOk result (λ reader.
            (config_fault reader.config ≡ None) × ConfigFits reader.config) }
        ensures places { IfOk result (λ reader. PlacesFit reader (F.allowance files.new)) }
        ensures cause { HasReadCause (F.read_faults files.old) (F.read_faults files.new) result }
        ensures about { IsTrue F.tells → IsReadAbout (subject_of (F.held files.old name.now) name.now) (F.faults_about files.old) (F.faults_about files.new) result }

        ensures begun { IsTrue F.tells → OnOk result (F.begun files.new ≡ Some name.now) }
        ensures subject { IsTrue F.tells → OnOk result (F.begun files.new ≡ subject_of (F.held files.old name.now) name.now) }
        ensures files { SameFiles (F.held files.old) (F.held files.new) }
        ensures appends { F.append_faults files.new ≡ F.append_faults files.old }
    {
        begin_file(files, name)?;
        header(alloc, NamingBuffer::new(alloc), files)
    }

    /// The configuration in the log's header.
    pub fn config(&self) -> &Config
        ensures { result.now ≡ self.now.config }
    {
        &self.config
    }

    /// The version in the log's header, 1 or 2.
    pub fn version(&self) -> u8
        ensures said { result ≡ self.now.lasts.version }
        ensures known { IsVersion result }
    {
        self.lasts.lasts().version()
    }

    /// The last unit of each validator so far, and an end to the reading.
    pub fn into_lasts(self) -> Lasts
        ensures { result ≡ self.lasts }
    {
        self.lasts.into_lasts()
    }

    /// That configuration, and an end to the reading.
    pub(crate) fn into_config(self) -> Config
        ensures { result ≡ self.config }
    {
        self.config
    }

    /// The next entry, or none at the end of the file where an entry ends.
    ///
    /// The file that `files` began last has to be this reader's, and nothing else may have read of
    /// it since. What the bytes are no entry for is answered with the place of the entry's first
    /// byte; `ReadFault` where a read failed.
    #[tactic(auto, unfolding(crate::specs::Log::next_at))]
    pub fn next<F: Files>(&mut self, files: &mut F) -> Result<Option<LogEntry>, LogError>
        requires { PlacesFit self.old (F.allowance files.old) }
        // The answer is what the log says next, and the reader stands behind it.
        ensures said { IsTrue F.tells →
            Gives (λ entry. (entry, left_of self.new (F.unread files.new))) result
            (next_at (left_of self.old (F.unread files.old))) }
        ensures entry { IfOk result (λ entry. IfSome entry (λ e. (e.at ≡ self.old.place) × VertexFits e.vertex)) }
        ensures lasts { IfOk result (λ entry. self.new.lasts ≡ lasts_with self.old.lasts entry) }
        ensures config { self.new.config ≡ self.old.config }
        ensures places { PlacesFit self.new (F.allowance files.new) }
        // After an entry fewer bytes may still come.
        ensures nearer { IfOk result (λ entry. IfSome entry (λ e.
            ahead_of self.new (F.allowance files.new) < ahead_of self.old (F.allowance files.old))) }
        ensures cause { HasReadCause (F.read_faults files.old) (F.read_faults files.new) result }
        ensures about { IsReadAbout (F.begun files.old) (F.faults_about files.old) (F.faults_about files.new) result }

        ensures files { SameFiles (F.held files.old) (F.held files.new) }
        ensures begun { F.begun files.new ≡ F.begun files.old }
        ensures appends { F.append_faults files.new ≡ F.append_faults files.old }
    {
        if self.is_at_end(files)? {
            Ok(None)
        } else {
            let NamedEntry {
                at,
                verdict,
                vertex,
                name: _name,
            } = self.entry(files, false)?;
            Ok(Some(LogEntry {
                at,
                verdict,
                vertex: Box::into_inner(vertex),
            }))
        }
    }

    /// The next entry as `next` answers it, and with it the name of its unit, where that is known. In version 1 an
    /// entry's bytes hold the whole unit, and its name is worked out from them where the verdict is right. In version 2
    /// it is that of a validator's unit, which is kept for the next one.
    #[tactic(auto, unfolding(crate::specs::Log::next_at))]
    pub fn next_named<F: Files>(&mut self, files: &mut F) -> Result<Option<NamedEntry>, LogError>
        requires { PlacesFit self.old (F.allowance files.old) }
        // The answer is what the log says next, and the reader stands behind it.
        ensures said { IsTrue F.tells →
            Gives (λ named. (entry_in named, left_of self.new (F.unread files.new))) result
            (next_at (left_of self.old (F.unread files.old))) }
        ensures entry { IfOk result (λ named. IfSome named (λ n. (n.at ≡ self.old.place) × VertexFits (box_value n.vertex))) }
        ensures name { IfOk result (λ named. IfSome named (λ n. IfSome n.name (IsNameOf (box_value n.vertex)))) }
        // A unit that becomes its creator's last one comes with its name.
        ensures noted { IfOk result (λ named. IfSome named (λ n.
            IfSome (noted_name (noted_in self.old.lasts (box_value n.vertex))) (λ name. n.name ≡ Some name))) }
        ensures lasts { IfOk result (λ named. self.new.lasts ≡ lasts_with self.old.lasts (entry_in named)) }
        ensures config { self.new.config ≡ self.old.config }
        ensures places { PlacesFit self.new (F.allowance files.new) }
        // After an entry fewer bytes may still come.
        ensures nearer { IfOk result (λ named. IfSome named (λ n.
            ahead_of self.new (F.allowance files.new) < ahead_of self.old (F.allowance files.old))) }
        ensures reads { ReadsLog F.Files files.old files.new result }
    {
        if self.is_at_end(files)? {
            Ok(None)
        } else {
            Ok(Some(self.entry(files, true)?))
        }
    }

    /// Whether no byte of the file is left.
    fn is_at_end<F: Files>(&mut self, files: &mut F) -> Result<bool, LogError>
        ensures said { IsTrue F.tells → IfOk result (λ end. end ≡ (length (self.old.held ++ F.unread files.old) == 0)) }
        ensures error { IfErr result IsOutside }
        ensures left { IsTrue F.tells → left_of self.new (F.unread files.new) ≡ left_of self.old (F.unread files.old) }
        ensures place { self.new.place ≡ self.old.place }
        ensures lasts { self.new.lasts ≡ self.old.lasts }
        ensures config { self.new.config ≡ self.old.config }
        ensures end { end_of self.new (F.allowance files.new) ≡ end_of self.old (F.allowance files.old) }
        ensures reads { ReadsLog F.Files files.old files.new result }
    {
        match self.buffer.available(files, 1) {
            Ok(held) => Ok(held == 0),
            Err(fault) => Err(error_of_read(fault)),
        }
    }

    /// The entry that begins at the reader's place, with its unit's name if it is wanted, or if the unit becomes its
    /// creator's last one.
    #[tactic(auto, using(crate::proofs::NameLaws::handed_names, crate::proofs::NameLaws::handed_first), unfolding(crate::specs::Log::entry_at))]
    fn entry<F: Files>(&mut self, files: &mut F, named: bool) -> Result<NamedEntry, LogError>
        requires { PlacesFit self.old (F.allowance files.old) }
        ensures said { IsTrue F.tells → Gives (λ read. (unnamed read, left_of self.new (F.unread files.new))) result (entry_at (left_of self.old (F.unread files.old))) }
        ensures entry { IfOk result (λ read. (read.at ≡ self.old.place) × VertexFits (box_value read.vertex)) }
        ensures name { IfOk result (λ read. IfSome read.name (IsNameOf (box_value read.vertex))) }
        ensures noted { IfOk result (λ read. IfSome (noted_name (noted_in self.old.lasts (box_value read.vertex))) (λ name. read.name ≡ Some name)) }
        ensures lasts { IfOk result (λ read. self.new.lasts ≡ lasts_after self.old.lasts (box_value read.vertex)) }
        ensures place { OnOk result (self.old.place < self.new.place) }
        ensures config { self.new.config ≡ self.old.config }
        ensures end { end_of self.new (F.allowance files.new) ≡ end_of self.old (F.allowance files.old) }
        ensures reads { ReadsLog F.Files files.old files.new result }
    {
        let at = self.place;
        let head = self.head(files)?;
        let read = self.body(files, at, head.length, named && head.verdict)?;
        let noted = self.keep(&read.vertex, read.name)?;
        let ReadVertex { vertex, name } = read;
        Ok(NamedEntry {
            at,
            verdict: head.verdict,
            vertex,
            name: noted.or(name),
        })
    }

    /// The head of the entry that begins at the reader's place.
    #[tactic(auto, using(crate::proofs::CauseLaws::cause_of_bytes, crate::proofs::FieldLaws::fails_bind), unfolding(crate::specs::Log::head_at))]
    fn head<F: Files>(&mut self, files: &mut F) -> Result<EntryHead, LogError>
        requires { PlacesFit self.old (F.allowance files.old) }
        ensures said { IsTrue F.tells → Gives (λ head. (head, (left_of self.new (F.unread files.new)).rest)) result (head_at (left_of self.old (F.unread files.old)).rest) }
        ensures limit { IfOk result (λ head. head.length ≤ MAX_LENGTH) }
        ensures lasts { self.new.lasts ≡ self.old.lasts }
        ensures place { OnOk result (self.old.place < self.new.place) }
        ensures config { self.new.config ≡ self.old.config }
        ensures end { end_of self.new (F.allowance files.new) ≡ end_of self.old (F.allowance files.old) }
        ensures reads { ReadsLog F.Files files.old files.new result }
    {
        let at = self.place;
        need(&mut self.buffer, files, HEAD_LENGTH, at)?;
        let head = head_of(at, &self.buffer.as_slice()[..HEAD_LENGTH])?;
        self.buffer.consume(HEAD_LENGTH);
        self.place += HEAD_LENGTH as u64;
        Ok(head)
    }

    /// The vertex of so many bytes at the reader's place, in the entry that begins at `at`, with its
    /// unit's name if it is wanted.
    #[tactic(auto, using(crate::proofs::CauseLaws::cause_of_bytes), unfolding(crate::specs::Log::body_at))]
    fn body<F: Files>(
        &mut self,
        files: &mut F,
        at: u64,
        length: usize,
        named: bool,
    ) -> Result<ReadVertex, LogError>
        requires limit { length ≤ MAX_LENGTH }
        requires places { PlacesFit self.old (F.allowance files.old) }
        ensures said { IsTrue F.tells → Gives (λ read. (box_value read.vertex, (left_of self.new (F.unread files.new)).rest)) result (body_at self.old.lasts at length (left_of self.old (F.unread files.old)).rest) }
        ensures fits { IfOk result (λ read. VertexFits (box_value read.vertex)) }
        ensures name { IfOk result (λ read. IfSome read.name (IsNameOf (box_value read.vertex))) }
        ensures lasts { self.new.lasts ≡ self.old.lasts }
        ensures place { OnOk result (self.old.place ≤ self.new.place) }
        ensures config { self.new.config ≡ self.old.config }
        ensures end { end_of self.new (F.allowance files.new) ≡ end_of self.old (F.allowance files.old) }
        ensures reads { ReadsLog F.Files files.old files.new result }
    {
        need(&mut self.buffer, files, length, at)?;
        let read = self.vertex(at, length, named)?;
        self.buffer.consume(length);
        self.place += length as u64;
        Ok(read)
    }

    /// The vertex of the first `count` bytes that are held, in the entry that begins at `at`, with its unit's name if it
    /// is wanted or known.
    fn vertex(&mut self, at: u64, count: usize, named: bool) -> Result<ReadVertex, LogError>
        requires { count ≤ length self.old.held }
        ensures said { Gives (λ read. box_value read.vertex) result (decoded (BadVertex at) (vertex_in self.old.lasts (take count self.old.held))) }
        ensures error { IfErr result IsOfBytes }
        ensures fits { IfOk result (λ read. VertexFits (box_value read.vertex)) }
        ensures name { IfOk result (λ read. IfSome read.name (IsNameOf (box_value read.vertex))) }
        ensures same { self.new ≡ self.old }
    {
        if let Some(next) = self.lasts.next_unit(self.buffer.as_slice(), count) {
            return boxed(self.alloc, next);
        }
        // It wasn't decoded ahead.
        let bytes = &self.buffer.as_slice()[..count];
        let SpelledVertex { vertex, unit } = decoded_vertex(self.lasts.lasts(), at, bytes, named)?;
        let name = self.buffer.name_of(unit);
        Ok(ReadVertex { vertex, name })
    }

    /// Goes behind an entry with this vertex, whose name may be known, and answers the name of the unit that becomes its
    /// creator's last one.
    fn keep(&mut self, vertex: &Vertex, name: Option<Digest>) -> Result<Option<Digest>, LogError>
        requires fits { VertexFits vertex.now }
        requires name { IfSome name (IsNameOf vertex.now) }
        ensures name { IfOk result (λ name. name ≡ noted_name (noted_in self.old.lasts vertex.now)) }
        ensures kept { OnOk result (self.new ≡ record self.old { lasts = lasts_after self.old.lasts vertex.now }) }
        ensures same { OnErr result (self.new ≡ self.old) }
        ensures error { IfErr result (λ e. e ≡ OutOfMemory) }
    {
        Ok(self.lasts.keep(vertex, name)?)
    }
}

/// Begins to read the file of that name.
fn begin_file<F: Files>(files: &mut F, name: &str) -> Result<(), LogError>
    ensures whole { IsTrue F.tells → OnOk result (Begins (F.held files.old name.now) name.now (F.begun files.new) (F.unread files.new)) }
    ensures subject { IsTrue F.tells → OnOk result (F.begun files.new ≡ subject_of (F.held files.old name.now) name.now) }
    ensures error { IfErr result IsOutside }
    ensures allowance { OnOk result (F.allowance files.new ≤ 2 ^ 62) }
    ensures cause { HasReadCause (F.read_faults files.old) (F.read_faults files.new) result }
    ensures about { IsTrue F.tells → IsReadAbout (subject_of (F.held files.old name.now) name.now) (F.faults_about files.old) (F.faults_about files.new) result }

    ensures files { SameFiles (F.held files.old) (F.held files.new) }
    ensures appends { F.append_faults files.new ≡ F.append_faults files.old }
{
    match files.begin(name) {
        Ok(()) => Ok(()),
        Err(fault) => Err(error_of_read(fault)),
    }
}

/// Reads the header of a log, of which the buffer holds the first bytes.
#[tactic(auto, using(crate::proofs::FieldLaws::fails_bind), unfolding(crate::specs::Log::header_of))]
fn header<F: Files>(
    alloc: Global,
    mut buffer: NamingBuffer,
    files: &mut F,
) -> Result<LogReader, LogError>
    ensures said { IsTrue F.tells → Gives (λ reader. (reader.config, left_of reader (F.unread files.new))) result (header_of (buffer ++ F.unread files.old)) }
    ensures checked { IfOk result (λ reader. (config_fault reader.config ≡ None) × ConfigFits reader.config) }
    ensures end { IfOk result (λ reader. end_of reader (F.allowance files.new) ≡ length buffer + F.allowance files.old) }
    ensures reads { ReadsLog F.Files files.old files.new result }
{
    let front = front(&mut buffer, files)?;
    need(&mut buffer, files, front.length, FRONT_LENGTH as u64)?;
    let config = checked_config(alloc, &buffer.as_slice()[..front.length])?;
    buffer.consume(front.length);
    let lasts = Following::new(alloc, front.version, config.weights.len() as u32)?;
    Ok(LogReader {
        alloc,
        buffer,
        config,
        lasts,
        place: (FRONT_LENGTH + front.length) as u64,
    })
}

/// Uses the front of a log, and answers what it says.
#[tactic(auto, using(crate::proofs::FieldLaws::front_held))]
fn front<F: Files>(buffer: &mut NamingBuffer, files: &mut F) -> Result<Front, LogError>
    ensures said { IsTrue F.tells → Gives (λ said. said) result (front_of (take FRONT_LENGTH (buffer.old ++ F.unread files.old))) }
    ensures rest { IsTrue F.tells → OnOk result (buffer.new ++ F.unread files.new ≡ drop FRONT_LENGTH (buffer.old ++ F.unread files.old)) }
    ensures limit { IfOk result (λ said. said.length ≤ MAX_LENGTH) }
    ensures version { IfOk result (λ said. IsVersion said.version) }
    ensures ahead { OnOk result (F.allowance files.new + length buffer.new + FRONT_LENGTH ≡ F.allowance files.old + length buffer.old) }
    ensures reads { ReadsLog F.Files files.old files.new result }
{
    match buffer.available(files, FRONT_LENGTH) {
        Ok(held) => {
            let said = front_of(&buffer.as_slice()[..held.min(FRONT_LENGTH)])?;
            buffer.consume(FRONT_LENGTH);
            Ok(said)
        }
        Err(fault) => Err(error_of_read(fault)),
    }
}

/// Reads until the next `n` bytes are held. Where the file ends before, it is torn at this place.
fn need<F: Files>(
    buffer: &mut NamingBuffer,
    files: &mut F,
    n: usize,
    at: u64,
) -> Result<(), LogError>
    requires { n ≤ MAX_LENGTH }
    ensures held { OnOk result (n ≤ length buffer.new) }
    ensures torn { IsTrue F.tells → IfErr result (λ e. (place : ℕ) → Fails e (bytes_at n (Torn at) (rest_at place (buffer.old ++ F.unread files.old)))) }
    ensures left { IsTrue F.tells → buffer.new ++ F.unread files.new ≡ buffer.old ++ F.unread files.old }
    ensures ahead { F.allowance files.new + length buffer.new ≡ F.allowance files.old + length buffer.old }
    ensures reads { ReadsLog F.Files files.old files.new result }
{
    match buffer.available(files, n) {
        Ok(held) => {
            if held < n {
                return Err(LogError::Torn(at));
            }
            Ok(())
        }
        Err(fault) => Err(error_of_read(fault)),
    }
}

/// The configuration that these bytes spell, if it keeps all limits.
#[tactic(auto, unfolding(crate::specs::Log::checked_config))]
fn checked_config(alloc: Global, bytes: &[u8]) -> Result<Config, LogError>
    ensures said { Gives (λ config. config) result (checked_config bytes.now) }
    ensures error { IfErr result IsOfBytes }
    ensures checked { IfOk result (λ config. (config_fault config ≡ None) × ConfigFits config) }
{
    let config = decoded_config(alloc, bytes)?;
    match config.check() {
        Ok(()) => Ok(config),
        Err(fault) => Err(LogError::ConfigFault(fault)),
    }
}

/// The configuration that these bytes spell.
fn decoded_config(alloc: Global, bytes: &[u8]) -> Result<Config, LogError>
    ensures said { Gives (λ config. config) result (decoded BadConfig (config_of bytes.now)) }
    ensures error { IfErr result IsOfBytes }
    ensures fits { IfOk result (λ config. ConfigFits config) }
{
    match decode_config(alloc, bytes) {
        Ok(config) => Ok(config),
        Err(CodecError::OutOfMemory) => Err(LogError::OutOfMemory),
        Err(error) => Err(LogError::BadConfig(error)),
    }
}

/// The vertex of this unit, and its name.
fn boxed(alloc: Global, next: NextUnit) -> Result<ReadVertex, LogError>
    ensures vertex { IfOk result (λ read. box_value read.vertex ≡ Unit next.read.signed) }
    ensures name { IfOk result (λ read. read.name ≡ Some next.name) }
    ensures error { IfErr result (λ e. e ≡ OutOfMemory) }
{
    let NextUnit { read, name } = next;
    let ReadUnit {
        signed,
        bytes: _bytes,
    } = read;
    match Box::new(alloc, Vertex::Unit(signed)) {
        Ok(vertex) => Ok(ReadVertex {
            vertex,
            name: Some(name),
        }),
        Err(refused) => Err(let_go(refused)),
    }
}

/// Lets a vertex go for which there was no memory. Out of line: the back end zeroes a function's whole frame on entry.
fn let_go(refused: AllocFailed<Vertex>) -> LogError
    ensures { result ≡ OutOfMemory }
{
    drop(refused);
    LogError::OutOfMemory
}

/// The vertex that these bytes spell, in the entry at this place, behind these last units, with the place of its unit's
/// spelling if its name is wanted.
fn decoded_vertex(
    lasts: &Lasts,
    at: u64,
    bytes: &[u8],
    named: bool,
) -> Result<SpelledVertex, LogError>
    ensures said { Gives (λ read. box_value read.vertex) result (decoded (BadVertex at) (vertex_in lasts.now bytes.now)) }
    ensures error { IfErr result IsOfBytes }
    ensures fits { IfOk result (λ read. VertexFits (box_value read.vertex)) }
    ensures unit { IfOk result (λ read. IfSome read.unit (NamesUnit (box_value read.vertex) bytes.now)) }
{
    match lasts.decode(bytes) {
        Ok(vertex) => {
            let unit = if named {
                lasts.unit_in(&vertex, bytes)
            } else {
                None
            };
            match Box::new(lasts.allocator(), vertex) {
                Ok(vertex) => Ok(SpelledVertex { vertex, unit }),
                Err(refused) => Err(let_go(refused)),
            }
        }
        Err(CodecError::OutOfMemory) => Err(LogError::OutOfMemory),
        Err(error) => Err(LogError::BadVertex(at, error)),
    }
}
