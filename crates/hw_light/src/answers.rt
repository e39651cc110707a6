//! What a check answers, and what the making of a certificate.

use crate::certificate::Certificate;
use hw_core::Core;
use hw_types::{Cause, ConfigFault};

/// Why a certificate shows nothing. The first that holds is answered, in this order.
#[derive(Clone, Copy, Debug, PartialEq, Eq)]
pub enum CheckFault {
    /// The configuration breaks this limit.
    Config(ConfigFault),
    /// The vertex of this number, counted from 0, is refused for this cause.
    Refused(u32, Cause),
    /// The faulty validators have this weight, which exceeds the threshold.
    Exceeded(u64),
    /// The block has no summit at any level.
    Unstood,
}

/// What a certificate is answered.
#[derive(Drop)]
pub enum Checked {
    /// The block has a summit, for a node that took the vertices.
    Yes(Core),
    /// It isn't shown to have one.
    No(CheckFault),
}

/// What is answered where a certificate is asked for.
#[derive(Drop)]
pub enum Certified {
    /// The certificate.
    Made(Certificate),
    /// The faulty validators weigh more than the threshold, or the decided block has no summit now.
    NotNow,
    /// It would have this many vertices, more than a journal may have.
    TooLong(u64),
}
