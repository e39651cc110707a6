//! Convergence: two nodes tell each other of their lanes by count and tip, and send what the other lacks.
//!
//! Where each takes what the other sent and nothing is refused, the two journals say the same, or two
//! different units of one digest stand in the two: the tip of the shorter line is on the longer one, and so
//! is all below it.

ghost use Rattle.hw_agree.specs.ConvergeLaws.{NodesConverge, ConvergedStatesAreOne};

/// Where each of two nodes took what the other sent, and nothing was refused, the two journals say the same
/// and leave one state, or two different units of one digest stand in the two.
pub fn nodes_converge()
    ensures converge { NodesConverge }
    ensures states { ConvergedStatesAreOne }
{}
