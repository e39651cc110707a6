//! A door to peers over TCP. It keeps no record of its sessions.
ghost use Rattle.std.specs.{Prelude.{◌≡◌, [], None, false, IfErr, IsErr, is_ok, is_some}, Io.{ReadsAtMost}};
ghost use Rattle.hw_io.specs.Sinks.{TakesSome};

use crate::addresses::Addresses;
use crate::complaints::{Complaints, Voice};
use crate::failures::{Failures, pause_after};
use crate::hung::HungPeers;
use crate::known::Known;
use crate::log::LogFile;
use crate::patience::Patience;
use crate::session::Session;
use crate::signatures::Signatures;
use crate::suspects::Suspects;
use crate::waiting::{Visitor, WaitingRoom};
use hw_io::{Door, DoorNumbers, IoFault};
use hw_keys::Keys;
use std::alloc::Global;
use std::io::ErrorKind;
use std::net::{IpAddr, Net, OpenListener, OpenStream, TcpListener};
use std::time::{Duration, Instant};
use std::{io, thread};

/// How many connections are let in at most before it is looked who said something.
const LET_IN: usize = 64;

/// How many microseconds pass at first, and at most, until it is looked again whether a connection that
/// waits said something.
const FIRST_PAUSE: u64 = 200;

const LONGEST_PAUSE: u64 = 5_000;

/// A door over a network. It listens at the address that it is made with, as `127.0.0.1:7000`, and
/// dials addresses of that form, or with the name of a host.
///
/// `accept` waits until a peer comes and says something. Connections that say nothing wait beside each
/// other, at most 64 of them and for 5 seconds; they are no sessions. Where it can't listen, it tries again at each
/// `accept`. A dial waits 5 seconds for each address of the peer, and a read or a write 5 seconds for the peer. A
/// session ends after 10 seconds, and a second more for each 65,536 bytes that went either way; with a peer that was
/// dialled it ends after 20 seconds at most, and with a stranger after two.
///
/// A door for meetings lets each of these speak as long as it moves something, since each is to take all that the other
/// has.
///
/// Calls that fail have a pace. Where no peer can be taken in, 100 milliseconds pass for each failure in a row, 3
/// seconds at most; so they do where all peers that are dialled failed, one after the other, and none was reached.
///
/// The addresses of a peer's name are kept. It is resolved again where none of them answered, once a minute. A dial
/// whose name isn't known, or that took longer than it may, is one of a peer that let the call wait.
///
/// A peer that was dialled and let a call wait for all of its time is given a tenth of it from then on, until a
/// session with it ends well. Where it lets a call wait for all of that too, it isn't dialled for 19 times as
/// long, and each dial of it fails at once. So it is with a peer that doesn't end when the session does, and with one
/// whose session took more than 5 seconds and half a second for each of its answers. A session in which something came
/// that is in the log now is no such one.
///
/// On a peer that came, the reads and writes of a session wait 2 seconds in all. It hung where they waited longer
/// than half a second for each of its answers and a second for each 65,536 bytes that it sent. Then its network, the
/// address without the port, or the first half of an IPv6 address, owes 19 times as long as they waited, which it pays
/// by the time that passes. Where it owes more than 19 seconds it is suspect.
///
/// Who comes from a suspect network is served after all others that wait and said something. In a session it is waited
/// for 20 milliseconds, and as long again for each answer. 64 networks are kept. An honest peer of such a network
/// goes on where its link answers in 20 milliseconds. One whose link is slower is starved while somebody else hangs
/// there each time, but for the session that comes first when enough is paid.
///
/// Who comes from a network of which no session brought something that is in the log now is a stranger, once another
/// network is known. All strangers are served after those who are known, and no more than a tenth of the time. In
/// their sessions they are waited for 200 milliseconds, and as long again for each answer.
///
/// A read takes what came, 65,536 bytes at most, and hands out as much of it as is asked for. The reads after it hand
/// out the rest, and call the system again where nothing is left. What is written is held and goes out in pieces of
/// 65,536 bytes, before each read that calls the system, and at `hang_up`. So who sent many frames at once is answered
/// at once, and nobody waits for an answer that is held. Where sending what is held fails, the call that sent it fails.
///
/// Where the door has the log of a node, all that was appended to it is on the disk before the next byte
/// is sent. So no unit that a node made goes out before it is on the disk, and what was reported to a peer as
/// taken is kept. What is appended until then needs one sync.
///
/// Where the door has the keys of a network, it is reported there too that a peer sent a vertex that isn't signed by them,
/// once a minute at most.
///
/// Each error of the system is `Failed` and counted, or `OutOfMemory`. It is reported on standard error, with
/// the peer's address.
///
/// `hang_up` ends what is written, and then reads on until the peer ends its side, an error comes or half
/// a second has passed. It doesn't learn whether the peer read what was written.
#[derive(Drop)]
pub struct HostDoor<'a, R: Net + Voice> {
    runtime: R,
    log: Option<&'a LogFile>,
    place: Option<&'a str>,
    listener: Option<R::Listener>,
    waiting: WaitingRoom<R::Stream>,
    session: Option<Session<R::Stream>>,
    peer: Peer,
    addresses: Addresses,
    failures: Failures,
    refusals: u64,
    hung: HungPeers,
    suspects: Suspects,
    known: Known,
    is_for_meetings: bool,
    signatures: Signatures,
    complaints: Complaints<R>,
    numbers: DoorNumbers,
}

/// What the peer of the session is called, if there was memory for it, when it was dialled, if it was, and from where
/// it came, if it did; and how many entries were appended to the log when it did.
#[derive(Drop)]
struct Peer {
    name: Option<String>,
    dialled: Option<Instant>,
    came_from: Option<IpAddr>,
    appended: u64,
}

impl Peer {
    /// Who may come to this place, if the door listens at one: faults are told under its name until somebody came.
    fn who_may_come(alloc: Global, place: Option<&str>) -> Peer {
        let name = match place {
            Some(place) => String::from_str(alloc, place).ok(),
            None => None,
        };
        Peer {
            name,
            dialled: None,
            came_from: None,
            appended: 0,
        }
    }

    fn who_came(alloc: Global, address: IpAddr, appended: u64) -> Peer {
        Peer {
            name: format!(in alloc; "{address}").ok(),
            dialled: None,
            came_from: Some(address),
            appended,
        }
    }

    fn who_is_dialled(alloc: Global, address: &str, now: Instant, appended: u64) -> Peer {
        Peer {
            name: String::from_str(alloc, address).ok(),
            dialled: Some(now),
            came_from: None,
            appended,
        }
    }

    fn called(&self) -> &str {
        match &self.name {
            Some(name) => name.as_str(),
            None => "a peer",
        }
    }
}

impl<'a, R: Net + Voice> HostDoor<'a, R> {
    /// A door that listens at this address. Where that fails, it is reported at once, and each `accept` tries again.
    pub fn new(runtime: R, address: &'a str) -> HostDoor<'a, R>
        ensures open { result.session ≡ None }
        ensures numbers { result.numbers ≡ record { accepts = 0; dials = 0; ends = 0; faults = 0 } }
    {
        let mut door = HostDoor::without_address(runtime);
        door.place = Some(address);
        match TcpListener::bind(&runtime, address) {
            Ok(listener) => door.listener = Some(listener),
            Err(error) => door.complaints.tell(address, error),
        }
        door
    }

    /// A door that listens nowhere, so that each `accept` fails.
    pub fn without_address(runtime: R) -> HostDoor<'a, R>
        ensures open { result.session ≡ None }
        ensures numbers { result.numbers ≡ record { accepts = 0; dials = 0; ends = 0; faults = 0 } }
    {
        HostDoor {
            runtime,
            log: None,
            place: None,
            listener: None,
            waiting: WaitingRoom::new(runtime.alloc()),
            session: None,
            peer: Peer::who_may_come(runtime.alloc(), None),
            addresses: Addresses::new(runtime.alloc()),
            failures: Failures::new(runtime.alloc()),
            refusals: 0,
            hung: HungPeers::new(runtime.alloc()),
            suspects: Suspects::new(runtime.alloc()),
            known: Known::new(runtime.alloc()),
            is_for_meetings: false,
            signatures: Signatures::new(runtime.alloc(), None),
            complaints: Complaints::new(runtime),
            numbers: DoorNumbers::new(),
        }
    }

    /// The same door. What was appended to this log, if there is one, is put on the disk before anything is sent.
    pub fn behind(self, log: Option<&'a LogFile>) -> HostDoor<'a, R>
        ensures { result ≡ record self.entry { log = result.log } }
    {
        HostDoor { log, ..self }
    }

    /// The same door. A vertex that comes is to be signed by these keys, if there are some.
    pub fn holding(self, keys: Option<Keys>) -> HostDoor<'a, R>
        ensures { result ≡ record self.entry { signatures = result.signatures } }
    {
        let signatures = Signatures::new(self.runtime.alloc(), keys);
        HostDoor { signatures, ..self }
    }

    /// The same door, for meetings: a peer is waited for as long as it moves something.
    pub fn for_meetings(self) -> HostDoor<'a, R>
        ensures { result ≡ record self.entry { is_for_meetings = result.is_for_meetings } }
    {
        HostDoor {
            is_for_meetings: true,
            ..self
        }
    }

    /// The port at which it listens, which the system chose where the address had port 0.
    pub fn port(&self) -> Option<u16> {
        let listener = self.listener.as_ref()?;
        Some(listener.local_addr().ok()?.port())
    }

    /// The numbers so far.
    pub fn numbers(&self) -> DoorNumbers
        ensures { result ≡ self.now.numbers }
    {
        self.numbers
    }

    /// Waits for a peer that says something, and begins a session with it.
    fn welcome(&mut self) -> io::Result<()>
        ensures open { is_some self.new.session ≡ is_ok result }
        ensures numbers { self.new.numbers ≡ self.old.numbers }
    {
        self.leave();
        let alloc = self.runtime.alloc();
        self.peer = Peer::who_may_come(alloc, self.place);
        let visitor = self.next_visitor()?;
        let address = visitor.address;
        self.peer = Peer::who_came(alloc, address, self.appended());
        let now = Instant::now(&self.runtime)?;
        let patience = self.patience_with(address, now);
        self.session = Some(Session::new(alloc, &self.runtime, visitor.stream, patience)?);
        Ok(())
    }

    /// The next peer that says something. After a failure a while passes, so that failures have a pace.
    fn next_visitor(&mut self) -> io::Result<Visitor<R::Stream>>
        ensures { self.new ≡ record self.old { listener = self.new.listener; waiting = self.new.waiting; refusals = self.new.refusals } }
    {
        let outcome = self.visitor();
        match &outcome {
            Ok(_) => self.refusals = 0,
            Err(error) if error.kind() == ErrorKind::ConnectionAborted => {}
            Err(_) => {
                if self.place.is_some() {
                    let pause = Duration::from_millis(pause_after(self.refusals));
                    thread::sleep(&self.runtime, pause);
                    self.refusals = self.refusals.saturating_add(1);
                }
            }
        }
        outcome
    }

    /// The next peer that says something. Where it doesn't listen yet, it tries to.
    fn visitor(&mut self) -> io::Result<Visitor<R::Stream>>
        ensures { self.new ≡ record self.old { listener = self.new.listener; waiting = self.new.waiting } }
    {
        if let (None, Some(place)) = (&self.listener, self.place) {
            self.listener = Some(TcpListener::bind(&self.runtime, place)?);
        }
        next_visitor(
            &self.runtime,
            &self.listener,
            &mut self.waiting,
            &self.suspects,
            &self.known,
        )
    }

    /// How much time a peer is given that came from this address.
    fn patience_with(&self, address: IpAddr, now: Instant) -> Patience {
        if self.suspects.has(address, now) {
            Patience::Suspect
        } else if self.is_for_meetings {
            Patience::Meeting
        } else if self.known.is_stranger(address) {
            Patience::Stranger
        } else {
            Patience::Guest
        }
    }

    /// How many entries this process appended to the log, if the door has one.
    fn appended(&self) -> u64 {
        match self.log {
            Some(log) => log.appended(),
            None => 0,
        }
    }

    /// Whether the log has entries that it hadn't when the session began.
    fn has_new(&self) -> bool {
        self.appended() > self.peer.appended
    }

    /// Calls the peer at this address, and begins a session with it.
    fn call(&mut self, address: &str) -> io::Result<()>
        ensures open { is_some self.new.session ≡ is_ok result }
        ensures numbers { self.new.numbers ≡ self.old.numbers }
    {
        self.leave();
        let alloc = self.runtime.alloc();
        let now = Instant::now(&self.runtime)?;
        self.peer = Peer::who_is_dialled(alloc, address, now, self.appended());
        let Some(patience) = self.hung.patience(address, now) else {
            return Err(resting());
        };
        let stream = self.dialled(address, now, patience)?;
        let patience = if self.is_for_meetings {
            Patience::Meeting
        } else {
            patience
        };
        self.session = Some(Session::new(alloc, &self.runtime, stream, patience)?);
        Ok(())
    }

    /// The stream to the peer at this address. A peer whose name isn't known hung, and so did one that took longer than
    /// it may, whatever came of it.
    fn dialled(
        &mut self,
        address: &str,
        began: Instant,
        patience: Patience,
    ) -> io::Result<R::Stream>
        ensures { self.new ≡ record self.old { addresses = self.new.addresses; hung = self.new.hung } }
    {
        let wait = Duration::from_millis(patience.wait());
        if let Err(error) = self.addresses.resolve(&self.runtime, address, began) {
            self.note_hung();
            return Err(error);
        }
        let outcome = self.addresses.dial(&self.runtime, address, wait);
        if let Err(error) = &outcome {
            let has_waited = match began.elapsed(&self.runtime) {
                Ok(taken) => taken > wait,
                Err(_) => false,
            };
            // A dial that was out of time is noted with its fault.
            if has_waited && error.kind() != ErrorKind::TimedOut {
                self.note_hung();
            }
        }
        outcome
    }

    /// Keeps that the peer that is dialled wasn't reached, or that its session failed, and waits where none was reached.
    fn note_failure(&mut self)
        ensures { self.new ≡ record self.old { failures = self.new.failures } }
    {
        if self.peer.dialled.is_some() {
            let pause = self.failures.note(self.peer.called());
            thread::sleep(&self.runtime, Duration::from_millis(pause));
        }
    }

    /// Reads bytes of the session, if one is there, and answers how many. Where nothing was read ahead, what is held is
    /// sent before. An empty buffer waits for nothing.
    fn receive(&mut self, buf: &mut [u8]) -> io::Result<usize>
        ensures bound { ReadsAtMost result buf.new }
        ensures none { is_some self.old.session ≡ false → IsErr result }
        ensures stays { is_some self.new.session ≡ is_some self.old.session }
        ensures numbers { self.new.numbers ≡ self.old.numbers }
    {
        if buf.is_empty() && self.session.is_some() {
            return Ok(0);
        }
        self.judge();
        if !self.is_ahead() {
            self.flush()?;
        }
        let count = match &mut self.session {
            Some(session) => session.read(&self.runtime, buf)?,
            None => return Err(ErrorKind::NotConnected.into()),
        };
        let appended = self.appended();
        self.signatures.hear(&buf[..count], appended);
        Ok(count)
    }

    /// Judges the frame that came last, once the node has done with it.
    fn judge(&mut self)
        ensures { self.new ≡ record self.old { signatures = self.new.signatures } }
    {
        let appended = self.appended();
        self.signatures
            .judge(&self.runtime, self.peer.called(), appended);
    }

    /// Whether bytes of the session were read ahead.
    fn is_ahead(&self) -> bool {
        match &self.session {
            Some(session) => session.is_ahead(),
            None => false,
        }
    }

    /// Holds the first bytes of the piece for the peer, if a session is there, and answers how many.
    fn send(&mut self, bytes: &[u8]) -> io::Result<usize>
        ensures some { TakesSome result bytes.now }
        ensures none { is_some self.old.session ≡ false → IsErr result }
        ensures stays { is_some self.new.session ≡ is_some self.old.session }
        ensures numbers { self.new.numbers ≡ self.old.numbers }
    {
        self.judge();
        let is_full = match &self.session {
            Some(session) => session.is_full(),
            None => return Err(ErrorKind::NotConnected.into()),
        };
        if is_full {
            self.flush()?;
        }
        let held = match &mut self.session {
            Some(session) => session.hold(bytes)?,
            None => 0,
        };
        if held > 0 || bytes.is_empty() {
            Ok(held)
        } else {
            Err(ErrorKind::WriteZero.into())
        }
    }

    /// Sends what is held, once all that was appended to the log is on the disk.
    fn flush(&mut self) -> io::Result<()>
        ensures stays { is_some self.new.session ≡ is_some self.old.session }
        ensures numbers { self.new.numbers ≡ self.old.numbers }
    {
        let is_empty = match &self.session {
            Some(session) => session.is_empty(),
            None => true,
        };
        if is_empty {
            return Ok(());
        }
        self.sync_log()?;
        match &mut self.session {
            Some(session) => session.flush(&self.runtime),
            None => Ok(()),
        }
    }

    /// Puts on the disk what was appended to the log.
    fn sync_log(&mut self) -> io::Result<()>
        ensures { self.new ≡ record self.old { complaints = self.new.complaints } }
    {
        let Some(log) = self.log else { return Ok(()) };
        match log.sync() {
            Ok(()) => Ok(()),
            Err(error) => {
                self.complaints.tell(log.name(), error);
                Err(error)
            }
        }
    }

    /// The fault that a call answers which failed with this error. The error is reported, unless it says that there is
    /// no session or no listener. A peer that was dialled and let the call wait too long is given less time from now
    /// on, unless it brought something new.
    fn fault(&mut self, error: io::Error) -> IoFault
        ensures { self.new ≡ record self.old { hung = self.new.hung; complaints = self.new.complaints } }
    {
        if error.kind() == ErrorKind::TimedOut && !self.has_new() {
            self.note_hung();
        }
        // A door that listens nowhere said so when it was made.
        if error.kind() != ErrorKind::NotConnected {
            self.complaints.tell(self.peer.called(), error);
        }
        if error.kind() == ErrorKind::OutOfMemory {
            IoFault::OutOfMemory
        } else {
            IoFault::Failed
        }
    }

    /// Keeps that the peer hung, if it was dialled.
    fn note_hung(&mut self)
        ensures { self.new ≡ record self.old { hung = self.new.hung } }
    {
        if let (Some(dialled), Ok(now)) = (self.peer.dialled, Instant::now(&self.runtime)) {
            let taken = now.duration_since(dialled);
            self.hung.note(self.peer.called(), now, taken);
        }
    }

    /// Ends the session, if one is there.
    fn leave(&mut self)
        ensures gone { self.new.session ≡ None }
        ensures numbers { self.new.numbers ≡ self.old.numbers }
    {
        self.judge();
        self.signatures.forget();
        self.part();
        self.note_visit();
        if matches!(&self.session, Some(session) if session.has_failed()) {
            self.note_failure();
        }
        self.session = None;
    }

    /// Keeps of a peer that came whether it hung, however the session ended, whether it brought something new, and how
    /// long it took.
    fn note_visit(&mut self)
        ensures { self.new ≡ record self.old { suspects = self.new.suspects; known = self.new.known } }
    {
        let is_new = self.has_new();
        if let (Some(address), Some(session)) = (self.peer.came_from, &self.session) {
            if let Ok(now) = Instant::now(&self.runtime) {
                let taken = session.taken(now);
                if session.has_hung() && !self.is_for_meetings {
                    self.suspects.note(address, now, session.blocked());
                }
                self.known.note(address, now, taken, is_new);
            }
        }
    }

    /// Whether the session took long for what the peer answered, and brought nothing new.
    fn has_dragged(&self) -> bool {
        match (&self.session, Instant::now(&self.runtime)) {
            (Some(session), Ok(now)) => session.has_dragged(now) && !self.has_new(),
            _ => false,
        }
    }

    /// Parts from a peer in whose session no call failed: sends what is held, and lets the peer end too. One that was
    /// dialled and doesn't end hung, and so did one that said nothing new for long.
    fn part(&mut self)
        ensures numbers { self.new.numbers ≡ self.old.numbers }
    {
        match &self.session {
            Some(session) if !session.has_failed() => {}
            _ => return,
        }
        if let Err(error) = self.flush() {
            self.fault(error);
            return;
        }
        let has_hung = match &mut self.session {
            Some(session) => session.part(&self.runtime),
            None => false,
        };
        if self.peer.dialled.is_some() {
            self.failures.end();
            if has_hung || self.has_dragged() {
                self.note_hung();
            } else {
                self.hung.forgive(self.peer.called());
            }
        }
    }
}

impl<'a, R: Net + Voice> Door for HostDoor<'a, R> {
    ghost sessions = { λ _. None };

    ghost asks = { λ _. [] };

    ghost is_open = { λ door. is_some door.session };

    ghost accepts = { λ door. door.numbers.accepts };

    ghost dials = { λ door. door.numbers.dials };

    ghost ends = { λ door. door.numbers.ends };

    ghost faults = { λ door. door.numbers.faults };

    fn accept(&mut self) -> Result<(), IoFault> {
        let outcome = match self.welcome() {
            Ok(()) => Ok(()),
            Err(error) => Err(self.fault(error)),
        };
        self.numbers.count_accept();
        self.numbers.count_failure(&outcome);
        outcome
    }

    fn dial(&mut self, address: &str) -> Result<(), IoFault> {
        let outcome = match self.call(address) {
            Ok(()) => Ok(()),
            Err(error) => {
                let fault = self.fault(error);
                self.note_failure();
                Err(fault)
            }
        };
        self.numbers.count_dial();
        self.numbers.count_failure(&outcome);
        outcome
    }

    fn read(&mut self, buf: &mut [u8]) -> Result<usize, IoFault> {
        let outcome = match self.receive(buf) {
            Ok(count) => Ok(count),
            Err(error) => Err(self.fault(error)),
        };
        self.numbers.count_end(&outcome, buf);
        self.numbers.count_failure(&outcome);
        outcome
    }

    fn write(&mut self, bytes: &[u8]) -> Result<usize, IoFault> {
        let outcome = match self.send(bytes) {
            Ok(count) => Ok(count),
            Err(error) => Err(self.fault(error)),
        };
        self.numbers.count_failure(&outcome);
        outcome
    }

    fn hang_up(&mut self) {
        self.leave();
    }
}

/// What a dial answers of a peer that hung again and again.
fn resting() -> io::Error {
    io::Error::new(
        ErrorKind::ResourceBusy,
        "it hung again, and isn't dialled for a while",
    )
}

/// The next peer that says something.
fn next_visitor<R: Net + Voice>(
    runtime: &R,
    listener: &Option<R::Listener>,
    waiting: &mut WaitingRoom<R::Stream>,
    suspects: &Suspects,
    known: &Known,
) -> io::Result<Visitor<R::Stream>> {
    let mut pause = FIRST_PAUSE;
    for _ in 0..u64::MAX {
        let_in(runtime, listener, waiting)?;
        let now = Instant::now(runtime)?;
        if let Some(visitor) = waiting.next(now, suspects, known) {
            return Ok(visitor);
        }
        runtime.sleep(Duration::from_micros(pause));
        pause = pause.saturating_mul(2).min(LONGEST_PAUSE);
    }
    Err(ErrorKind::TimedOut.into())
}

/// Lets in who came. Where nobody waits, it waits until somebody comes.
fn let_in<R: Net + Voice>(
    runtime: &R,
    listener: &Option<R::Listener>,
    waiting: &mut WaitingRoom<R::Stream>,
) -> io::Result<()> {
    for _ in 0..LET_IN {
        match accepted::<R>(listener, !waiting.is_empty())? {
            Some((stream, address)) => waiting.admit(stream, address, Instant::now(runtime)?)?,
            None => break,
        }
    }
    Ok(())
}

/// The stream of the next peer that came, which doesn't block, and from where it came. Where somebody waits already, it
/// doesn't wait for one to come, and answers none where none came.
fn accepted<R: Net>(
    listener: &Option<R::Listener>,
    is_somebody_waiting: bool,
) -> io::Result<Option<(R::Stream, IpAddr)>> {
    let Some(listener) = listener else {
        return Err(ErrorKind::NotConnected.into());
    };
    listener.set_nonblocking(is_somebody_waiting)?;
    match listener.accept() {
        Ok((stream, address)) => {
            stream.set_nonblocking(true)?;
            Ok(Some((stream, address.ip())))
        }
        Err(error) if error.kind() == ErrorKind::WouldBlock => Ok(None),
        Err(error) => Err(error),
    }
}
