//! The state of a node as text: the report, and each final block with the summit that made it final.
//!
//! A summit is written at its moment, right after the vertex that made the block final. So what is explained of
//! a log is gathered while the log is replayed.
#![tactic(auto)]

mod committee;
mod explain;
mod laws;
mod lines;
mod logs;
mod reports;
mod summit;
mod told;

pub use explain::explain_line;
pub use laws::{committees_are_greatest, report_is_of_decisions};
pub use lines::{Counts, put_counts, put_exceeded, put_faulty, put_final, put_fork};
pub use logs::explain_log;
pub use reports::{faulty, report};
pub use summit::put_summit;
