//! Where a unit stands.

use hw_dag::UnitNo;
use hw_types::Rule;

/// What became of a unit.
#[derive(Clone, Copy, Debug, PartialEq, Eq)]
pub enum Place {
    /// The journal has no such unit.
    Unknown,
    /// It is settled, and this is its number in the graph of the state.
    Settled(UnitNo),
    /// It is parked, and misses so many needs.
    Parked(u32),
    /// It misses nothing, and this is the first rule that it breaks.
    Dropped(Rule),
}
