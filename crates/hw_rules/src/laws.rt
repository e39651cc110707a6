//! Laws of units that break no rule.

ghost use Rattle.hw_rules.specs.Laws.{EndorsedIsKept, EndorsedIsSeen};

/// A unit that breaks no rule over the units below it keeps those of endorsed lists and of naive forks.
pub fn endorsed_is_kept()
    ensures { EndorsedIsKept }
{}

/// The endorsed list of a unit that breaks no rule has names of units below it alone.
pub fn endorsed_is_seen()
    ensures { EndorsedIsSeen }
{}
