//! Logs.

ghost use Rattle.std.specs.Prelude.{◌≡◌};
ghost use Rattle.hw_doubles.specs.Memory.{mem_allowance};
ghost use Rattle.hw_types.specs.Spelling.{ConfigFits, VertexFits};
ghost use Rattle.hw_log.specs.{Lasts.{IsVersion}, Reader.{PlacesFit}};

use hw_case_words::{Answer, number, patch};
use hw_doubles::MemFiles;
use hw_io::Files;
use hw_log::{
    Lasts, LogEntry, LogError, LogReader, append_entry, append_header, entry_bytes, read_log,
};
use hw_types::Items;
use std::alloc::Global;

/// Files with this log, whose call of that number fails after some bytes.
fn files_of(
    answer: &mut Answer,
    piece: usize,
    call: Option<u64>,
    left: usize,
    log: &[u8],
) -> MemFiles {
    let mut files = MemFiles::in_pieces(answer.alloc(), piece);
    let put = files.put("LOG", log);
    answer.keep(put);
    if let Some(call) = call {
        let planned = files.fail_at(call, left);
        answer.keep(planned);
    }
    files
}

/// How many entries the file has, or its first error.
fn count(alloc: Global, files: &mut MemFiles, name: &str) -> Result<usize, LogError> {
    match read_log(alloc, files, name) {
        Ok(log) => Ok(log.entries.len()),
        Err(error) => Err(error),
    }
}

/// How many entries the log has.
fn count_of(
    answer: &mut Answer,
    piece: usize,
    call: Option<u64>,
    log: &[u8],
) -> Result<usize, LogError> {
    let mut files = files_of(answer, piece, call, 0, log);
    count(answer.alloc(), &mut files, "LOG")
}

/// How many entries a log has whose bytes are patched, and the faults counted.
pub fn counted(answer: &mut Answer, piece: &str, call: &str, patches: &str, digits: &str) {
    let mut log = answer.bytes(digits);
    patch(&mut log, patches);
    let piece = number(piece) as usize;
    let mut files = files_of(answer, piece, call.parse().ok(), 0, log.as_slice());
    count_text(answer, &mut files);
}

/// How many entries the log has, and the faults counted.
fn count_text(answer: &mut Answer, files: &mut MemFiles) {
    let count = count(answer.alloc(), files, "LOG");
    put_count(answer, count);
    put_faults(answer, files);
}

/// How many entries there are, or the error.
fn put_count(answer: &mut Answer, count: Result<usize, LogError>) {
    answer.debug(&count);
}

/// The faults counted.
fn put_faults(answer: &mut Answer, files: &MemFiles) {
    answer.labelled(" faults ", files.read_faults());
    answer.labelled(" ", files.append_faults());
}

/// Copies the log entry by entry into a log of this version, and puts down the places of the entries.
fn copy_log(
    alloc: Global,
    files: &mut MemFiles,
    version: u8,
    places: &mut Items<u64>,
) -> Result<(), LogError>
    requires { IsVersion version }
{
    let mut reader = LogReader::begin(alloc, files, "LOG")?;
    copy_from(alloc, files, version, &mut reader, places)
}

/// The same from where this reader is.
fn copy_from(
    alloc: Global,
    files: &mut MemFiles,
    version: u8,
    reader: &mut LogReader,
    places: &mut Items<u64>,
) -> Result<(), LogError>
    requires version { IsVersion version }
    requires config { ConfigFits reader.old.config }
    requires places { PlacesFit reader.old (mem_allowance files.old) }
{
    append_header(alloc, files, "COPY", version, reader.config())?;
    let mut lasts = Lasts::new(alloc, version, reader.config().weights.len() as u32)?;
    copy_entries(alloc, files, reader, &mut lasts, places)
}

/// Appends the entries that are left after these last units, and puts down their places.
fn copy_entries(
    alloc: Global,
    files: &mut MemFiles,
    reader: &mut LogReader,
    lasts: &mut Lasts,
    places: &mut Items<u64>,
) -> Result<(), LogError>
    requires { PlacesFit reader.old (mem_allowance files.old) }
{
    'entries: while let Some(entry) = reader.next(files)? {
        copy_entry(alloc, files, lasts, &entry, places)?;
    }
    Ok(())
}

/// Appends the entry after these last units, and puts down its place.
fn copy_entry(
    alloc: Global,
    files: &mut MemFiles,
    lasts: &mut Lasts,
    entry: &LogEntry,
    places: &mut Items<u64>,
) -> Result<(), LogError>
    requires { VertexFits entry.now.vertex }
    ensures { mem_allowance files.new ≡ mem_allowance files.old }
{
    places.push(entry.at)?;
    append_copy(alloc, files, lasts, entry)?;
    let noted = lasts.prepare(&entry.vertex)?;
    lasts.note(noted);
    Ok(())
}

/// Appends the entry after these last units.
fn append_copy(
    alloc: Global,
    files: &mut MemFiles,
    lasts: &Lasts,
    entry: &LogEntry,
) -> Result<(), LogError>
    requires { VertexFits entry.now.vertex }
    ensures { mem_allowance files.new ≡ mem_allowance files.old }
{
    match entry_bytes(alloc, lasts, entry.verdict, &entry.vertex) {
        Ok(bytes) => append_entry(files, "COPY", &bytes),
        Err(_) => Err(LogError::OutOfMemory),
    }
}

/// Copies a log, and puts the places of its entries or the error, how much was copied, and the faults counted.
pub fn copied(answer: &mut Answer, piece: &str, call: &str, left: &str, digits: &str) {
    let log = answer.bytes(digits);
    let (piece, left) = (number(piece) as usize, number(left) as usize);
    let mut files = files_of(answer, piece, call.parse().ok(), left, log.as_slice());
    copy_places(answer, &mut files, 1);
    answer.put(" copied ");
    copy_text(answer, &files, log.as_slice());
    put_faults(answer, &files);
}

/// How much of the log was copied.
fn copy_text(answer: &mut Answer, files: &MemFiles, log: &[u8]) {
    match files.file("COPY") {
        None => answer.put("no copy"),
        Some(copy) => {
            answer.number(copy.len() as u64);
            answer.labelled(" of ", log.len() as u64);
            answer.put(" ");
            answer.truth(log.starts_with(copy));
        }
    }
}

/// The places of the entries that are copied into a log of this version, or the error.
fn copy_places(answer: &mut Answer, files: &mut MemFiles, version: u8)
    requires { IsVersion version }
{
    let mut places = Items::new(answer.alloc());
    match copy_log(answer.alloc(), files, version, &mut places) {
        Ok(()) => answer.debug(&places.as_slice()),
        Err(error) => answer.debug(&error),
    }
}

/// Each length from which a cut log is answered in another way.
pub fn cuts(answer: &mut Answer, digits: &str) {
    let log = answer.bytes(digits);
    let mut last = Ok(usize::MAX);
    for length in 0..=log.len() {
        let count = count_of(answer, 100, None, &log.as_slice()[..length]);
        if count != last {
            answer.number(length as u64);
            answer.put(" ");
            put_count(answer, count);
            answer.put(" ");
            last = count;
        }
    }
}

/// How many calls a reading takes, and how many of them, each failing alone, end it as a read fault.
pub fn faults(answer: &mut Answer, digits: &str) {
    let log = answer.bytes(digits);
    let mut files = files_of(answer, 100, None, 0, log.as_slice());
    let _ = count(answer.alloc(), &mut files, "LOG");
    let calls = files.calls();
    let faults = read_faults(answer, calls, log.as_slice());
    answer.labelled("calls ", calls);
    answer.labelled(" read faults ", faults);
}

/// How many of the calls of a reading, each failing alone, end it as a read fault.
fn read_faults(answer: &mut Answer, calls: u64, log: &[u8]) -> u64 {
    let mut faults = 0u64;
    for call in 0..calls {
        if count_of(answer, 100, Some(call), log) == Err(LogError::ReadFault) {
            faults = faults.saturating_add(1);
        }
    }
    faults
}

/// What reading a file answers that isn't there.
pub fn missing(answer: &mut Answer, digits: &str) {
    let log = answer.bytes(digits);
    let mut files = files_of(answer, 100, None, 0, log.as_slice());
    let count = count(answer.alloc(), &mut files, "other");
    put_count(answer, count);
}

/// A log in both versions: each is read, and copied as itself and as the other.
pub fn both(answer: &mut Answer, one: &str, two: &str) {
    let one = answer.bytes(one);
    let two = answer.bytes(two);
    both_text(answer, one.as_slice(), two.as_slice());
}

fn both_text(answer: &mut Answer, one: &[u8], two: &[u8]) {
    copy_is(answer, one, 1, one);
    answer.put(" ");
    copy_is(answer, one, 2, two);
    answer.put(" ");
    copy_is(answer, two, 2, two);
    answer.put(" ");
    copy_is(answer, two, 1, one);
}

/// The places of a log's entries, and whether its copy of this version is the log of these bytes.
fn copy_is(answer: &mut Answer, log: &[u8], version: u8, wanted: &[u8])
    requires { IsVersion version }
{
    let mut files = files_of(answer, 100, None, 0, log);
    copy_places(answer, &mut files, version);
    answer.put(" ");
    answer.truth(files.file("COPY") == Some(wanted));
}
