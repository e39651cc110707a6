//! Laws of each graph.

ghost use Rattle.hw_dag.specs.Laws.{GraphIsLawful, SeenIsOnLane, ApartIsFork, SeenByEntry, RulesAreKept, VotesStay};

/// Each graph is lawful, for any weights of its validators.
pub fn graph_is_lawful()
    ensures { GraphIsLawful }
{}

/// A unit below another of its creator is on its lane.
pub fn seen_is_on_lane()
    ensures { SeenIsOnLane }
{}

/// Two units of one creator that aren't comparable give two different units of it with one sequence
/// number.
pub fn apart_is_fork()
    ensures { ApartIsFork }
{}

/// What a unit has strictly below it of a creator lies on the lane of its entry for that creator, or the
/// entry is Faulty.
pub fn seen_by_entry()
    ensures { SeenByEntry }
{}

/// A unit that breaks no rule keeps what the graph asks.
pub fn rules_are_kept()
    ensures { RulesAreKept }
{}

/// Where each unit is given the fork choice of its panorama, the votes and the parents in the graph are
/// those of the definitions.
pub fn votes_stay()
    ensures { VotesStay }
{}
