//! A session over a stream: it is read ahead, what is written is held until it is worth a send, and each wait is
//! bounded.
ghost use Rattle.std.specs.{Prelude.{◌≤◌, length, IfOk}, Io.{ReadsAtMost}};

use crate::patience::{Patience, Progress, has_dragged, has_hung};
use std::alloc::Global;
use std::io::{BufReader, ErrorKind, Read, Write};
use std::net::{OpenStream, Shutdown};
use std::time::{Duration, Instant};
use std::{io, time};

/// How many bytes are read ahead at most, and held at most before they are sent.
const PIECE: usize = 65_536;

/// How many milliseconds a session that ends waits for more of what the peer is still sending.
const PARTING_MILLISECONDS: u64 = 500;

/// How many pieces of what the peer is still sending are read at most.
const PARTING_READS: usize = 64;

/// A session with a peer.
#[derive(Drop)]
pub(crate) struct Session<S> {
    stream: BufReader<S>,
    began: Instant,
    patience: Patience,
    /// How many milliseconds the stream waits, as it was set last, or 0 where it wasn't set.
    wait: u64,
    /// How many bytes went either way.
    moved: u64,
    /// How many of these came.
    received: u64,
    /// For how long the node was blocked on the peer.
    blocked: Duration,
    /// How often the peer answered what was sent to it.
    answers: u32,
    /// Whether something was sent that isn't answered.
    is_answer_due: bool,
    /// What was written and isn't sent.
    held: Vec<u8>,
    /// Whether a call failed.
    has_failed: bool,
}

impl<S: OpenStream + Read + Write + Drop> Session<S> {
    /// A session that begins now. Small pieces are sent without a delay.
    pub(crate) fn new(
        alloc: Global,
        clock: &impl time::Clock,
        stream: S,
        patience: Patience,
    ) -> io::Result<Session<S>> {
        stream.set_nonblocking(false)?;
        stream.set_nodelay(true)?;
        let began = Instant::now(clock)?;
        Ok(Session {
            stream: BufReader::with_capacity(alloc, PIECE, stream)?,
            began,
            patience,
            wait: 0,
            moved: 0,
            received: 0,
            blocked: Duration::ZERO,
            answers: 0,
            is_answer_due: false,
            held: Vec::new(alloc),
            has_failed: false,
        })
    }

    /// Whether a call failed.
    pub(crate) fn has_failed(&self) -> bool {
        self.has_failed
    }

    /// For how long the node was blocked on the peer.
    pub(crate) fn blocked(&self) -> Duration {
        self.blocked
    }

    /// Whether that is longer than the peer earned by its answers, and by the bytes that came.
    pub(crate) fn has_hung(&self) -> bool {
        has_hung(milliseconds(self.blocked), self.answers, self.received)
    }

    /// Whether nothing is held.
    pub(crate) fn is_empty(&self) -> bool {
        self.held.is_empty()
    }

    /// Whether nothing more can be held before something is sent.
    pub(crate) fn is_full(&self) -> bool {
        self.held.len() >= PIECE
    }

    /// Holds the first bytes of the piece, and answers how many. That is at least 1 unless the piece is
    /// empty, or as much is held as can be.
    pub(crate) fn hold(&mut self, bytes: &[u8]) -> io::Result<usize>
        ensures { IfOk result (λ count. count ≤ length bytes.now) }
    {
        let room = PIECE.saturating_sub(self.held.len());
        let count = bytes.len().min(room);
        self.held.extend_from_slice(&bytes[..count])?;
        Ok(count)
    }

    /// Whether bytes were read ahead, so that the next read doesn't wait.
    pub(crate) fn is_ahead(&self) -> bool {
        self.ahead() > 0
    }

    /// How many bytes were read ahead.
    fn ahead(&self) -> usize {
        self.stream.buffer().len()
    }

    /// Reads the peer's next bytes: those that were read ahead, or else, after all that is held was sent, those that
    /// come next.
    pub(crate) fn read(&mut self, clock: &impl time::Clock, buf: &mut [u8]) -> io::Result<usize>
        ensures { ReadsAtMost result buf.new }
    {
        if self.is_ahead() {
            self.next_wait(Instant::now(clock)?)?;
            self.stream.read(buf)
        } else {
            self.wait_for_bytes(clock, buf)
        }
    }

    /// Reads the bytes that come next, and as many more as are there and as can be read ahead.
    fn wait_for_bytes(&mut self, clock: &impl time::Clock, buf: &mut [u8]) -> io::Result<usize>
        ensures { ReadsAtMost result buf.new }
    {
        if self.is_answer_due && self.has_bytes()? {
            self.is_answer_due = false;
        }
        let began = self.set_wait(clock)?;
        let outcome = self.stream.read(buf);
        self.count_blocked(clock, began);
        match outcome {
            Ok(count) => {
                let came = count.saturating_add(self.ahead());
                self.count_read(came as u64);
                Ok(count)
            }
            Err(error) => Err(self.failed(error)),
        }
    }

    /// Whether there are bytes to be read now, so that they are no answer that is waited for.
    fn has_bytes(&self) -> io::Result<bool> {
        let stream = self.stream.get_ref();
        stream.set_nonblocking(true)?;
        let outcome = stream.peek(&mut [0]);
        stream.set_nonblocking(false)?;
        Ok(outcome.is_ok())
    }

    /// Counts bytes that came, or the peer's end.
    fn count_read(&mut self, count: u64) {
        self.moved = self.moved.saturating_add(count);
        self.received = self.received.saturating_add(count);
        if self.is_answer_due {
            self.answers = self.answers.saturating_add(1);
            self.is_answer_due = false;
        }
    }

    /// Counts bytes that went. A peer earns nothing by them: the system takes millions of them before the peer reads
    /// one.
    fn count_written(&mut self, count: u64) {
        self.moved = self.moved.saturating_add(count);
        self.is_answer_due = true;
    }

    /// Counts how long a call took that began then.
    fn count_blocked(&mut self, clock: &impl time::Clock, began: Instant) {
        if let Ok(taken) = began.elapsed(clock) {
            self.blocked = self.blocked.saturating_add(taken);
        }
    }

    /// Sends what is held. After an error nothing is held any more.
    pub(crate) fn flush(&mut self, clock: &impl time::Clock) -> io::Result<()> {
        let mut outcome = Ok(());
        let mut sent = 0;
        for _ in 0..self.held.len() {
            if sent >= self.held.len() {
                break;
            }
            match self.send_from(clock, sent) {
                Ok(count) => sent = sent.saturating_add(count),
                Err(error) => {
                    outcome = Err(error);
                    break;
                }
            }
        }
        self.held.clear();
        outcome
    }

    /// Sends the held bytes from this place on, as far as the stream takes them at once.
    fn send_from(&mut self, clock: &impl time::Clock, sent: usize) -> io::Result<usize> {
        let began = self.set_wait(clock)?;
        let outcome = match self.held.as_slice().get(sent..) {
            Some(rest) => self.stream.get_mut().write(rest),
            None => Ok(0),
        };
        self.count_blocked(clock, began);
        match outcome {
            Ok(count) if count > 0 => {
                self.count_written(count as u64);
                Ok(count)
            }
            Ok(_) => Err(self.failed(ErrorKind::WriteZero.into())),
            Err(error) => Err(self.failed(error)),
        }
    }

    /// Lets the next call wait as long as it may, and answers the present moment. It is an error where the
    /// session's time is up.
    fn set_wait(&mut self, clock: &impl time::Clock) -> io::Result<Instant> {
        let now = Instant::now(clock)?;
        let wait = self.next_wait(now)?;
        if wait != self.wait {
            set_waits(self.stream.get_ref(), wait)?;
            self.wait = wait;
        }
        Ok(now)
    }

    /// How many milliseconds a call that begins now may wait. It is an error where the session's time is up.
    fn next_wait(&mut self, now: Instant) -> io::Result<u64> {
        match self.patience.next_wait(self.progress(now)) {
            Some(wait) => Ok(wait),
            None => {
                self.has_failed = true;
                Err(io::Error::new(ErrorKind::TimedOut, "the session took too long"))
            }
        }
    }

    /// How far it is now.
    fn progress(&self, now: Instant) -> Progress {
        Progress {
            taken: milliseconds(now.duration_since(self.began)),
            blocked: milliseconds(self.blocked),
            moved: self.moved,
            answers: self.answers,
        }
    }

    /// Keeps that a call failed, and says of a wait that was too long that it was.
    fn failed(&mut self, error: io::Error) -> io::Error {
        self.has_failed = true;
        match error.kind() {
            ErrorKind::WouldBlock | ErrorKind::TimedOut => {
                io::Error::new(ErrorKind::TimedOut, "no byte came or went in time")
            }
            _ => error,
        }
    }

    /// Ends what is written and reads on for a bounded while, unless a call failed: a stream that is closed
    /// with bytes unread is reset, and the peer may lose what it was sent last. Whether all of that while passed, and
    /// the peer neither ended nor said anything.
    pub(crate) fn part(&mut self, clock: &impl time::Clock) -> bool {
        if self.has_failed || self.stream.get_ref().shutdown(Shutdown::Write).is_err() {
            return false;
        }
        let Ok(began) = Instant::now(clock) else {
            return false
        };
        for _ in 0..PARTING_READS {
            if !self.is_still_sending(clock, began) {
                break;
            }
        }
        match began.elapsed(clock) {
            Ok(taken) => milliseconds(taken) >= PARTING_MILLISECONDS,
            Err(_) => false,
        }
    }

    /// Whether it has taken longer than a session of use with a peer that answers so often.
    pub(crate) fn has_dragged(&self, now: Instant) -> bool {
        has_dragged(milliseconds(self.taken(now)), self.answers)
    }

    /// How long it has taken.
    pub(crate) fn taken(&self, now: Instant) -> Duration {
        now.duration_since(self.began)
    }

    /// Whether a byte of the peer comes in what is left of the while that began then.
    fn is_still_sending(&mut self, clock: &impl time::Clock, began: Instant) -> bool {
        let mut rest = [0; 4096];
        let Ok(now) = Instant::now(clock) else {
            return false
        };
        let left = PARTING_MILLISECONDS.saturating_sub(milliseconds(now.duration_since(began)));
        let wait = match self.patience.next_wait(self.progress(now)) {
            Some(wait) => wait.min(left),
            None => 0,
        };
        if wait == 0 || set_waits(self.stream.get_ref(), wait).is_err() {
            return false;
        }
        let outcome = self.stream.get_mut().read(&mut rest);
        self.count_blocked(clock, now);
        match outcome {
            Ok(count) => {
                self.count_read(count as u64);
                count > 0
            }
            Err(_) => false,
        }
    }
}

/// Bounds the waits of a stream.
fn set_waits<S: OpenStream>(stream: &S, milliseconds: u64) -> io::Result<()> {
    let wait = Duration::from_millis(milliseconds);
    stream.set_read_timeout(Some(wait))?;
    stream.set_write_timeout(Some(wait))
}

/// The milliseconds of this while, as far as a number holds them.
fn milliseconds(while_taken: Duration) -> u64 {
    u64::try_from(while_taken.as_millis()).unwrap_or(u64::MAX)
}
