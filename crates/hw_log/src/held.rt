//! The entries in the bytes of a log that are held.

ghost use Rattle.std.specs.Prelude.{◌<◌, ◌≤◌, length, IfSome};

use crate::head::{HEAD_LENGTH, head_of};

/// An entry of which all bytes are held.
#[derive(Clone, Copy)]
pub(crate) struct HeldEntry {
    pub verdict: bool,
    /// The place of its vertex's first byte.
    pub start: usize,
    /// The place behind its last byte.
    pub end: usize,
}

/// The entry that begins at this place of the bytes, if they hold the whole of it.
pub(crate) fn entry_at(bytes: &[u8], at: usize) -> Option<HeldEntry>
    ensures order { IfSome result (λ entry. entry.start ≤ entry.end) }
    ensures after { IfSome result (λ entry. at < entry.end) }
    ensures within { IfSome result (λ entry. entry.end ≤ length bytes.now) }
{
    let rest = bytes.len().saturating_sub(at);
    if rest < HEAD_LENGTH {
        return None;
    }
    match head_of(0, &bytes[at..at + HEAD_LENGTH]) {
        Ok(head) if head.length <= rest - HEAD_LENGTH => {
            let start = at + HEAD_LENGTH;
            Some(HeldEntry {
                verdict: head.verdict,
                start,
                end: start + head.length,
            })
        }
        Ok(_) | Err(_) => None,
    }
}
