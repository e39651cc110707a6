//! Laws of tallies.

ghost use Rattle.hw_forks.specs.Laws.{TallyIsScore};

/// The tally of a block, which is the weight of the votes whose ancestor at the block's height it is, is
/// its score by the definition.
pub fn tally_is_score()
    ensures { TallyIsScore }
{}
