//! Summits and decisions, worked out: the laws that a search for summits stands on.
//!
//! Pruning a panorama's validators decides whether a summit exists, and then finds the greatest one;
//! the blocks that stand at each moment of a journal are then a test, and its decisions a list.

ghost use Rattle.hw_safety.specs.SummitLaws.{PruningFinds, QuorumIsASuffix, SettledQuorumIsASuffix, StandingIsATest, AncestorsHaveSummits, AncestorsStand, DecisionsAreFound, SummitsAreKept, StandingIsKept, SafetyDecides};

/// Pruning decides whether a summit exists, and then finds the greatest.
pub fn pruning_finds()
    ensures { PruningFinds }
{}

/// The units of a lane that see a quorum are the last ones of the lane, in each lawful graph and so among
/// the units that a journal settles.
pub fn quorum_is_a_suffix()
    ensures graph { QuorumIsASuffix }
    ensures settled { SettledQuorumIsASuffix }
{}

/// A block stands exactly where the test says so.
pub fn standing_is_a_test()
    ensures { StandingIsATest }
{}

/// An ancestor of a block that has a summit has one too, and so an ancestor of a block that stands in a
/// journal stands too.
pub fn ancestors_stand()
    ensures summits { AncestorsHaveSummits }
    ensures stand { AncestorsStand }
{}

/// The decisions that are worked out are those of the definition.
pub fn decisions_are_found()
    ensures { DecisionsAreFound }
{}

/// By accountable safety a block that stands while few are faulty is the fork choice or an ancestor of
/// it, in each lawful graph and so at each moment of a journal.
pub fn standing_is_kept()
    ensures summits { SummitsAreKept }
    ensures stood { StandingIsKept }
{}

/// By accountable safety the decisions that are worked out are those of the definition.
pub fn safety_decides()
    ensures { SafetyDecides }
{}
