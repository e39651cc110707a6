//! Laws of decided blocks by number.

ghost use Rattle.hw_horizon.specs.DetectorLaws.{AncestorIsOnFork, HeightIsKept, GraphIsSearched, FoundIsRecord, SearchByNumberFinds, RunDecides, FoundStays, DetectorStays};

/// The ancestors of the fork choice by number are the blocks on the way to it, with the heights that the
/// graph keeps; and a search up these numbers finds the new records.
pub fn a_search_by_number_finds()
    ensures ancestor { AncestorIsOnFork }
    ensures height { HeightIsKept }
    ensures graph { GraphIsSearched }
    ensures record { FoundIsRecord }
    ensures finds { SearchByNumberFinds }
{}

/// A run after one vertex more makes the decided blocks of the journal before those of it now.
pub fn a_run_decides()
    ensures { RunDecides }
{}

/// What was found means the same while the graph grows, and what a detector keeps stays true.
pub fn found_blocks_stay()
    ensures found { FoundStays }
    ensures kept { DetectorStays }
{}
