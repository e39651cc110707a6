//! Laws of what was noted, and of what was found of a unit on its way in.

ghost use Rattle.hw_naivety.specs.Laws.{NotedStays, JudgedStays};

/// What was noted of a graph stays so while the graph grows: a unit that is admitted later changes
/// neither what the earlier ones have below them nor the tips that are kept of them.
pub fn noted_stays()
    ensures { NotedStays }
{}

/// What holds of a unit on its way in holds of it once it is in the graph: that its endorsed list has
/// those of the units that it cites, and that it has no naive fork.
pub fn judged_stays()
    ensures { JudgedStays }
{}
