//! The fixed parts: the front of a log, and the head of an entry.

ghost use Rattle.std.specs.Prelude.{◌≡◌, ◌≤◌, ◌<◌, length, IfOk, IfErr, OnOk};
ghost use Rattle.hw_log.specs.{Causes.{IsOfBytes}, Lasts.{IsVersion}, Log.{front_of, head_of}};

use crate::error::LogError;
use hw_types::MAX_LENGTH;

/// A log begins with these bytes.
pub const MAGIC: [u8; 4] = *b"HWLG";

/// The version in which each unit has the full form.
pub const FULL: u8 = 1;

/// The version in which a unit has the compact form where it is due.
pub const COMPACT: u8 = 2;

/// The one event: a vertex came.
pub const VERTEX_EVENT: u8 = 1;

/// How many bytes of a log come before its configuration.
pub const FRONT_LENGTH: usize = 9;

/// How many bytes of an entry come before its vertex.
pub const HEAD_LENGTH: usize = 6;

/// What a log says before its configuration.
#[derive(Clone, Copy)]
pub struct Front {
    pub version: u8,
    /// How many bytes the configuration has.
    pub length: usize,
}

/// What an entry says before its vertex.
#[derive(Clone, Copy)]
pub struct EntryHead {
    pub verdict: bool,
    /// How many bytes the vertex has.
    pub length: usize,
}

/// The version and the length of the configuration, from a log's first nine bytes or as many as it
/// has.
#[tactic(auto, unfolding(crate::specs::Log::front_of))]
pub fn front_of(front: &[u8]) -> Result<Front, LogError>
    requires { length front.now ≤ FRONT_LENGTH }
    ensures said { result ≡ front_of front.now }
    ensures error { IfErr result IsOfBytes }
    ensures whole { OnOk result (length front.now ≡ FRONT_LENGTH) }
    ensures limit { IfOk result (λ said. said.length ≤ MAX_LENGTH) }
    ensures version { IfOk result (λ said. IsVersion said.version) }
{
    if !front.starts_with(&MAGIC) {
        return Err(LogError::BadMagic);
    }
    if front.len() < 5 {
        return Err(LogError::Torn(4));
    }
    let version = front[4];
    if version != FULL && version != COMPACT {
        return Err(LogError::Version(version));
    }
    if front.len() < FRONT_LENGTH {
        return Err(LogError::Torn(5));
    }
    let length = u32::from_be_bytes([front[5], front[6], front[7], front[8]]) as usize;
    if length > MAX_LENGTH {
        return Err(LogError::TooLong(5));
    }
    Ok(Front { version, length })
}

/// The verdict and the length of the vertex, from the first six bytes of the entry at this place.
#[tactic(auto, unfolding(crate::specs::Log::head_of))]
pub fn head_of(at: u64, head: &[u8]) -> Result<EntryHead, LogError>
    requires { length head.now ≡ HEAD_LENGTH }
    ensures said { result ≡ head_of at head.now }
    ensures error { IfErr result IsOfBytes }
    ensures limit { IfOk result (λ said. said.length ≤ MAX_LENGTH) }
{
    if head[0] != VERTEX_EVENT {
        return Err(LogError::BadEvent(at));
    }
    if head[1] > 1 {
        return Err(LogError::BadVerdict(at));
    }
    let length = u32::from_be_bytes([head[2], head[3], head[4], head[5]]) as usize;
    if length > MAX_LENGTH {
        return Err(LogError::TooLong(at));
    }
    Ok(EntryHead {
        verdict: head[1] == 1,
        length,
    })
}
