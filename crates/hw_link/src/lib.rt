//! Frames over a link.
//!
//! A peer's bytes are read frame by frame, and no byte past the frame that is being read. What a node does
//! at each frame is a reaction, and a session is the talk that these reactions make. `specs/` says how far
//! a talk is by the bytes that were read so far, however the reads are cut.
#![tactic(auto)]

mod body;
mod end;
mod fill;
mod laws;
mod read;
mod send;

pub use body::{FRONT, read_body};
pub use end::{BYTE_LIMIT, SessionEnd};
pub use laws::frames_are_read_one_by_one;
pub use read::{Heard, read_frame};
pub use send::{send_body, send_frame};
