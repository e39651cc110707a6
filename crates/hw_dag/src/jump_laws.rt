//! Laws of the definitions.

ghost use Rattle.hw_dag.specs.JumpLaws.{LogarithmIsRoundedDown, PointersLeadToPointers, JumpsKeepToPointers, JumpsAreOneMore, JumpsAreFew};

/// The logarithm to the base 2 of a number above 0, rounded down: 2 to that power is at most the
/// number, and 2 to the next power is more.
pub fn logarithm_is_rounded_down()
    ensures { LogarithmIsRoundedDown }
{}

/// Each pointer leads to a number, and the next longer one is found there: pointer `i + 1` of `s` leads
/// where pointer `i` of `s - 2^i` leads, which that number keeps.
pub fn pointers_lead_to_pointers()
    ensures { PointersLeadToPointers }
{}

/// A jump goes to a number that one of the pointers keeps, which is below the start and never past the
/// target.
pub fn jumps_keep_to_pointers()
    ensures { JumpsKeepToPointers }
{}

/// No jump is needed from a number to itself, and else one more than from where the first jump goes.
pub fn jumps_are_one_more()
    ensures { JumpsAreOneMore }
{}

/// For a distance above 0 the number of jumps is at most twice one more than the logarithm of the
/// distance to the base 2, rounded down.
pub fn jumps_are_few()
    ensures { JumpsAreFew }
{}
