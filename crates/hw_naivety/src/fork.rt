//! Naive forks.

use hw_dag::UnitNo;

/// Two units of one creator that are naive and not comparable.
#[derive(Clone, Copy, Debug, PartialEq, Eq)]
pub struct NaiveFork {
    pub creator: u32,
    pub left: UnitNo,
    pub right: UnitNo,
}
