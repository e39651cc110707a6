//! The laws of what is kept, and of which questions need be asked.

ghost use Rattle.hw_horizon.specs.Laws.{WalksStay, SumsStay, LesserSummits, BoundsRuleOut, BoundsStay};

/// What is kept of a graph stays true while the graph grows.
pub fn walks_stay()
    ensures { WalksStay }
{}

/// A summit has in it one of each lesser level and quorum.
pub fn lesser_summits()
    ensures { LesserSummits }
{}

/// Where those whose latest unit may see a quorum at some lesser level weigh less than one, there is no
/// summit. What is kept to say so stays true while the graph grows.
pub fn bounds_rule_out()
    ensures none { BoundsRuleOut }
    ensures stay { BoundsStay }
{}

/// What a unit sees of a committee stays the same while the graph grows.
pub fn sums_stay()
    ensures { SumsStay }
{}
