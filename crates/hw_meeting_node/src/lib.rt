//! A meeting of two nodes: each sends the other a summary of its lanes, and what the other lacks.
//!
//! The node that dials is the caller, the other the host. Both say Hello, a summary of their lanes and the
//! validators that are torn for them, the caller first. Then the caller sends its vertices that are due, and
//! Done, and then the host. What a node does at a frame is a reaction of the definitions. A meeting is the talk
//! that these make over the frames of the peer's bytes, however the reads are cut.
//!
//! A [`Taker`] is what takes the vertices: a core, and what judges them.
#![tactic(auto)]

mod end;
mod frames;
mod laws;
mod meet;
mod meeter;
mod memory;
mod ranges;
mod read;
mod same;
mod samples;
mod say;
mod send;
mod taker;

pub use end::MeetEnd;
pub use laws::{
    meetings_are_done, meetings_converge, meetings_say_what_is_in_range, meetings_say_what_stood,
    meetings_take,
};
pub use meet::{host_one, meet_one};
pub use meeter::Side;
pub use memory::{MemTaker, VertexList};
pub use read::{HeardMeeting, read_meeting};
pub use samples::small_frames_are_heard;
pub use send::send_meeting;
pub use taker::{TakeFault, Taker};
