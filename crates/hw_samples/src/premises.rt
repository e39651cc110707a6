//! A case for each law that has premises.

ghost use Rattle.hw_samples.specs.Premises.{BlockIsLost, BlockIsLostLater, BlocksAreKept, BlocksConflict, QuorumsStay, AncestorStands, StandingIsKeptHere, MoreUnitsChangeNothing, LanesFork, OrdersAgree, WalksAndRounds, StepsEnd};
ghost use Rattle.hw_samples.specs.Runs.{ARunIsThere};

/// A block stands in one journal and is lost over two: the faulty weigh more than the threshold.
pub fn block_is_lost()
    ensures { BlockIsLost }
{}

/// A block stood, and is lost as its journal grows: the faulty weigh their share of the surplus.
pub fn block_is_lost_later()
    ensures { BlockIsLostLater }
{}

/// While nobody is faulty, what stood is kept, and two blocks that stood are on one chain.
pub fn blocks_are_kept()
    ensures { BlocksAreKept }
{}

/// Blocks stand in two journals that are not on one chain: the faulty and the culprits weigh more than the threshold.
pub fn blocks_conflict()
    ensures { BlocksConflict }
{}

/// A unit sees a quorum, and so does the next of its lane.
pub fn quorums_stay()
    ensures { QuorumsStay }
{}

/// A block stands, and so does its parent.
pub fn ancestor_stands_too()
    ensures { AncestorStands }
{}

/// A block stood at a moment, and is kept there, and its decision is found.
pub fn standing_is_kept_here()
    ensures { StandingIsKeptHere }
{}

/// Two units more change neither the past nor the choice nor the verdict of a third.
pub fn more_units_change_nothing()
    ensures { MoreUnitsChangeNothing }
{}

/// Two units that are not comparable are a fork, and a unit below another of its creator is on its lane.
pub fn lanes_fork()
    ensures { LanesFork }
{}

/// Two orders of four units leave one state, and what one of two journals settles both together settle.
pub fn orders_agree()
    ensures { OrdersAgree }
{}

/// The fork choice of the four units is the walk, and four rounds settle them.
pub fn walks_and_rounds()
    ensures { WalksAndRounds }
{}

/// A run over a graph by number finds a block, and decides what the graph's journal decides.
pub fn a_deciding_run_is_there()
    ensures { ARunIsThere }
{}

/// The step of an arriving unit goes on to its end.
pub fn steps_end()
    ensures { StepsEnd }
{}
