//! A member of each relation of the definitions.

ghost use Rattle.hw_samples.specs.Relations.{BlocksStand, DecisionsAreMade, CulpritIsShown, ValuesAreSpelled, GraphsAreLawful, JournalsRelate, StepIsMade, ReceiptsTellWhere, TipsAreSeen};

/// Blocks stand, at the first level and at the second, and their greatest summits are there.
pub fn blocks_stand()
    ensures { BlocksStand }
{}

/// Journals decide no block, one, and two.
pub fn decisions_are_made()
    ensures { DecisionsAreMade }
{}

/// A culprit of two journals is shown by the bytes of its pair.
pub fn culprit_is_shown()
    ensures { CulpritIsShown }
{}

/// A unit, a vertex, a configuration and a frame have their spellings.
pub fn values_are_spelled()
    ensures { ValuesAreSpelled }
{}

/// What journals settle is lawful, with a fork in it too; chains lead, and more units extend.
pub fn graphs_are_lawful()
    ensures { GraphsAreLawful }
{}

/// Journals say the same in another order, grow, have no clash, and are split.
pub fn journals_relate()
    ensures { JournalsRelate }
{}

/// The unit that a parked one waits for arrives, and both are admitted.
pub fn step_is_made()
    ensures { StepIsMade }
{}

/// Receipts tell where a unit is: settled, parked or dropped.
pub fn receipts_tell_where()
    ensures { ReceiptsTellWhere }
{}

/// A validator has one tip, and a unit that follows it moves its slot; a fork marks it.
pub fn tips_are_seen()
    ensures { TipsAreSeen }
{}
