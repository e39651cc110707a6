//! What a power failure leaves of a validator's log, and that it makes no honest validator faulty: laws.
//!
//! A file is what was written to it, and a disk has some first part of that for sure. A power failure leaves anything
//! between the two. A validator that tells others only what its disk has for sure never equivocates, however often it
//! is stopped, and power fails.
#![tactic(auto)]

mod laws;

pub use laws::{
    a_power_failure, crashes_keep_one_line, cut_logs_are_mended, what_is_left_is_ready,
};
