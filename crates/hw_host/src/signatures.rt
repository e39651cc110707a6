//! Vertices of peers that aren't signed by the keys. A node refuses and counts them; a person is told here.

use crate::complaints::Voice;
use hw_codec::decode_frame;
use hw_keys::Keys;
use hw_types::{Frame, MAX_LENGTH};
use std::alloc::Global;
use std::time::{Duration, Instant};

/// A frame begins with its length, which has so many bytes.
const FRONT: usize = 4;

/// What comes after its length, where it is that of a vertex.
const VERTEX_KIND: u8 = 2;

/// How many seconds pass at least before a line is printed again.
const QUIET_SECONDS: u64 = 60;

/// Listens to the peers of a door, and reports on standard error that one sent a vertex that isn't signed by the keys:
/// once a minute at most, with the peer's name and how many such vertices came so far from all.
///
/// What went into the log was held against the keys by the node. So only a vertex that didn't is held against them
/// here: it came again, or was refused. Without keys, or where memory ran out, nothing is heard.
#[derive(Drop)]
pub(crate) struct Signatures {
    keys: Option<Keys>,
    /// The frame that comes, as far as it came.
    frame: Vec<u8>,
    /// How many entries this process had appended to the log when it came.
    appended: u64,
    unsigned: u64,
    told: Option<Instant>,
}

impl Signatures {
    /// Nothing was heard yet.
    pub(crate) fn new(alloc: Global, keys: Option<Keys>) -> Signatures {
        Signatures {
            keys,
            frame: Vec::new(alloc),
            appended: 0,
            unsigned: 0,
            told: None,
        }
    }

    /// Hears bytes of one frame, which came when so many entries were appended.
    pub(crate) fn hear(&mut self, bytes: &[u8], appended: u64) {
        if self.keys.is_none() {
            return;
        }
        self.appended = appended;
        let is_longer = self.frame.len().saturating_add(bytes.len()) > FRONT + MAX_LENGTH;
        if is_longer || self.frame.extend_from_slice(bytes).is_err() {
            self.keys = None;
        }
    }

    /// Judges the frame that came from this peer, if all of it did. The node has done with it, and so many entries are
    /// appended now.
    pub(crate) fn judge<R: Voice>(&mut self, runtime: &R, peer: &str, appended: u64) {
        if !self.is_whole() {
            return;
        }
        if self.appended == appended && self.is_unsigned() {
            self.unsigned = self.unsigned.saturating_add(1);
            self.tell(runtime, peer);
        }
        self.frame.clear();
    }

    /// The session ends, and what came of a frame that is cut.
    pub(crate) fn forget(&mut self) {
        self.frame.clear();
    }

    /// Whether all of the frame came.
    fn is_whole(&self) -> bool {
        match self.frame.as_slice() {
            [a, b, c, d, body @ ..] => {
                u32::from_be_bytes([*a, *b, *c, *d]) as usize == body.len()
            }
            _ => false,
        }
    }

    /// Whether it is that of a vertex that isn't signed by the keys.
    fn is_unsigned(&self) -> bool {
        let (Some(keys), Some(body)) = (&self.keys, self.frame.as_slice().get(FRONT..)) else {
            return false
        };
        if body.first() != Some(&VERTEX_KIND) {
            return false;
        }
        match decode_frame(*self.frame.allocator(), body) {
            Ok(Frame::Vertex(vertex)) => keys.verdict(&vertex) == Ok(false),
            _ => false,
        }
    }

    /// Reports how many there were, unless it did so in the last minute.
    fn tell<R: Voice>(&mut self, runtime: &R, peer: &str) {
        let Ok(now) = Instant::now(runtime) else {
            return
        };
        if let Some(told) = self.told {
            if now.duration_since(told) < Duration::from_secs(QUIET_SECONDS) {
                return;
            }
        }
        self.told = Some(now);
        let unsigned = self.unsigned;
        let _ = eprintln!(runtime;
            "highway: {peer}: a vertex isn't signed by the keys, and is refused ({unsigned} so far)"
        );
    }
}
