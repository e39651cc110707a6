//! The limited naivety criterion: a unit is naive for a later one that has it below, unless it is below
//! a unit of the later one's endorsed list. Any two naive units of one creator have to be comparable.
//!
//! [`Naivety`] follows a graph: after a `note` for each admission in order, `check` is that rule. For each
//! noted unit and each creator it knows one tip, the naive unit on whose lane all naive units of that
//! creator are. The tips of the units that a later unit cites are all that has to be looked at.
//! A unit with a consistent panorama has no naive fork of a creator that it doesn't mark, so `check_consistent` looks
//! only at those that it marks.
//!
//! Where a unit marks nobody and endorses nothing, as mostly, its tips are what it observes. So only the
//! other units have a row of tips; all rows stand in one list. A row says how the tips differ from what is
//! observed, so most of the units that mark the same have one row, and one of them stands for all.
#![tactic(auto)]

mod fork;
mod heir;
mod laws;
mod rows;
mod shared;
mod sight;
mod tips;
mod tracker;

pub use fork::NaiveFork;
pub use laws::{judged_stays, noted_stays};
pub use sight::Sight;
pub use tracker::Naivety;
