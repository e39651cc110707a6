//! Peers of a door, over TCP on this machine.

use std::alloc::Global;
use std::io;
use std::io::{ErrorKind, Read, Write};
use std::net::{Shutdown, TcpListener, TcpStream};
use std::time::Instant;

/// The peers of a door, and a moment that is kept.
#[derive(Drop)]
pub struct Peers {
    /// Where the peer listens that the door dials.
    listener: TcpListener,
    /// Those that came or met, the last one last.
    streams: Vec<TcpStream>,
    /// Where the door listens.
    door_port: u16,
    moment: Instant,
}

impl Peers {
    /// No peer came, and one listens.
    pub fn new(rt: HostRuntime, alloc: Global) -> io::Result<Peers> {
        Ok(Peers {
            listener: TcpListener::bind(&rt, "127.0.0.1:0")?,
            streams: Vec::new(alloc),
            door_port: 0,
            moment: Instant::now(&rt)?,
        })
    }

    /// The port at which the peer listens.
    pub fn port(&self) -> u16 {
        match self.listener.local_addr() {
            Ok(address) => address.port(),
            Err(_) => 0,
        }
    }

    /// Keeps where the door listens.
    pub fn expect(&mut self, door_port: u16) {
        self.door_port = door_port;
    }

    /// A new peer dials the door at this address of the machine, and says this.
    pub fn come(&mut self, rt: HostRuntime, host: &str, said: &str) -> io::Result<()> {
        let peer = TcpStream::connect(&rt, (host, self.door_port))?;
        self.streams.push(peer)?;
        self.say(said)
    }

    /// The peer that listens takes the dial.
    pub fn meet(&mut self) -> io::Result<()> {
        let (peer, _) = self.listener.accept()?;
        Ok(self.streams.push(peer)?)
    }

    /// The last peer says this.
    pub fn say(&mut self, text: &str) -> io::Result<()> {
        match self.streams.last_mut() {
            Some(peer) => peer.write_all(text.as_bytes()),
            None => Err(ErrorKind::NotConnected.into()),
        }
    }

    /// The last peer says nothing more.
    pub fn shut(&self) -> io::Result<()> {
        match self.streams.last() {
            Some(peer) => peer.shutdown(Shutdown::Write),
            None => Err(ErrorKind::NotConnected.into()),
        }
    }

    /// What the last peer hears.
    pub fn hear(&mut self, buf: &mut [u8]) -> io::Result<usize> {
        match self.streams.last_mut() {
            Some(peer) => peer.read(buf),
            None => Err(ErrorKind::NotConnected.into()),
        }
    }

    /// Keeps the moment.
    pub fn keep_moment(&mut self, rt: HostRuntime) -> io::Result<()> {
        self.moment = Instant::now(&rt)?;
        Ok(())
    }

    /// The milliseconds since the moment that was kept.
    pub fn milliseconds(&self, rt: HostRuntime) -> u64 {
        match self.moment.elapsed(&rt) {
            Ok(taken) => u64::try_from(taken.as_millis()).unwrap_or(u64::MAX),
            Err(_) => u64::MAX,
        }
    }
}
