//! What two nodes that meet say to each other, and what each owes the other.
//!
//! Each says in a summary what its journal has of each validator. This is no unit, n units on the lane of one
//! of them, or a tangle. Where the two don't fit, the validator is torn for a side, which says so. Then each
//! sends what the other lacks. This crate has their frames as bytes, and the summary of a node's journal.
#![tactic(auto)]

mod decoding;
mod due;
mod encoding;
mod frame;
mod highest;
mod mark;
mod marks;
mod part;
mod samples;
mod summary;
mod torn;

pub use decoding::decode_meeting;
pub use due::{PlaceList, due_places};
pub use encoding::encode_meeting;
pub use frame::{FrameError, MeetingFrame, SummaryList};
pub use hw_agree::LaneSummary;
pub use samples::small_meetings_are_worked_out;
pub use summary::summary_of;
pub use torn::torn_for;
