//! What consumers were told stays.

ghost use Rattle.hw_replay.specs.ToldLaws.{ToldOnlyGrows, TakenStaysTaken};

/// As a node's journal grows, the chain that consumers are given only grows. So what a consumer took of it is
/// still its first blocks.
pub fn what_was_told_stays()
    ensures grows { ToldOnlyGrows }
    ensures taken { TakenStaysTaken }
{}
