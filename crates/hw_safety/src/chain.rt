//! The chain of decided blocks, and what one more vertex adds to it.
//!
//! The decided blocks of a journal have the heights 0, 1, 2 and so on, and the parent of each is the one
//! before. While the faulty weigh no more than the threshold they are the beginning of the way to the fork
//! choice, so a detector that looks along it, from the first height without a record up to the first block
//! that doesn't stand, finds all.

ghost use Rattle.hw_safety.specs.ChainLaws.{DecidedChain, DecidedAreOnFork, DetectorDecides, DecidedIsDetected, DecisionsOnlyGrow, QuietVertexDecidesNothing, NothingAfterExcess, NothingAtFirst, FaultyAreMarked, SearchFinds, SearchMayEnd, TakenSaysAll};
ghost use Rattle.hw_safety.specs.SummitLaws.{StandingIsKept};

/// The decided blocks of a journal are one chain from height 0 on. At each moment at which the faulty
/// weigh no more than the threshold, what stands is the fork choice or an ancestor of it, and the chain
/// leads there.
pub fn decided_are_a_chain()
    ensures chain { DecidedChain }
    ensures standing { StandingIsKept }
    ensures fork { DecidedAreOnFork }
{}

/// After one vertex more, the decided blocks are those of before and, where the faulty weigh no more
/// than the threshold, each block on the way to the fork choice that stands then and had no record.
pub fn a_detector_decides()
    ensures first { NothingAtFirst }
    ensures decides { DetectorDecides }
    ensures nothing_else { DecidedIsDetected }
    ensures grow { DecisionsOnlyGrow }
    ensures quiet { QuietVertexDecidesNothing }
    ensures excess { NothingAfterExcess }
    ensures marked { FaultyAreMarked }
{}

/// A search may go up the blocks on the way to the fork choice, from the first height without a record
/// on, and end at the first one that doesn't stand.
pub fn a_search_finds()
    ensures finds { SearchFinds }
    ensures ends { SearchMayEnd }
{}

/// A journal that took vertices of which none was refused says what it said before and what they say.
pub fn a_taken_journal_says_all()
    ensures { TakenSaysAll }
{}
