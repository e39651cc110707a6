//! Laws of clusters.

ghost use Rattle.hw_cluster.specs.{Laws.{NodesNeverEquivocate, NodesAreNeverFaulty, NodesDecideOneChain}, Worked.{NumbersAreWorkedOut, TotalsAreWorkedOut}};

/// Whatever the order of the actions, and whatever is forged, no node equivocates, and none is held to be
/// faulty.
pub fn nodes_never_equivocate()
    ensures apart { NodesNeverEquivocate }
    ensures faulty { NodesAreNeverFaulty }
{}

/// Where the validators that are no nodes weigh no more than the threshold, all blocks that two nodes decide are
/// on one chain. This holds whatever the order of the actions, and whatever is forged, unless two different units
/// of one digest are in their journals.
pub fn nodes_agree()
    ensures { NodesDecideOneChain }
{}

/// The numbers of a run, and those of a generated journal, are there, and can be worked out.
pub fn numbers_are_worked_out()
    ensures run { NumbersAreWorkedOut }
    ensures journal { TotalsAreWorkedOut }
{}
