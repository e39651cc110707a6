//! What the validator's step promises.

ghost use Rattle.hw_honest.specs.Kept.{SettledAreKept};
ghost use Rattle.hw_honest.specs.Plans.{PlannedIsOverSettled, StepKeepsRules, PlanKeepsRules, StepFits, PlanFits, StepFollowsOwn, PlanFollowsOwn, PlanIsNew, PlanIsAnswered, PlanIsAdmitted};
ghost use Rattle.hw_honest.specs.Chosen.{WithOwnIsConsistent, NoCitationIsConsistent, ListsAreKept, RisingListIsOne};
ghost use Rattle.hw_honest.specs.LaneTimes.{TimesRiseOnLanes, TwoInRoundAreTheLast};
ghost use Rattle.hw_honest.specs.SomePlan.{SomePlanIsMade, SomeRoundIsFull, SomePlanClashes};

/// What a journal settles is kept, and a plan after a journal is a plan over its settled units.
pub fn settled_units_are_kept()
    ensures kept { SettledAreKept }
    ensures planned { PlannedIsOverSettled }
{}

/// The unit of a plan keeps all rules, and its needs are met: over kept units, and so after a journal.
pub fn plan_keeps_rules()
    ensures over { StepKeepsRules }
    ensures after { PlanKeepsRules }
{}

/// Where the validator's last unit keeps the limit of its endorsed list, as after a journal whose vertices keep
/// their limits, the unit of a plan keeps all limits of its format.
pub fn plan_fits()
    ensures over { StepFits }
    ensures after { PlanFits }
{}

/// The unit of a plan comes after the validator's own last one, on whose lane are all its units, and its number
/// is their count.
pub fn plan_follows_own()
    ensures over { StepFollowsOwn }
    ensures after { PlanFollowsOwn }
{}

/// No unit of the journal is the unit of a plan.
pub fn plan_is_new()
    ensures { PlanIsNew }
{}

/// The delivery of a plan's unit clashes exactly where another unit of the journal has its name, finds no room
/// exactly where then the journal is full, and is admitted in all other cases.
pub fn plan_is_admitted()
    ensures answered { PlanIsAnswered }
    ensures admitted { PlanIsAdmitted }
{}

/// What joins for a chosen panorama is consistent: a unit's panorama with the unit in its slot, or a mark alone.
pub fn joining_is_consistent()
    ensures own { WithOwnIsConsistent }
    ensures none { NoCitationIsConsistent }
{}

/// The endorsed list of a panorama rises, keeps the lists of the cited units, and has no other digests but
/// those of endorsed units below; and a rising list is told by its members.
pub fn lists_are_kept()
    ensures kept { ListsAreKept }
    ensures one { RisingListIsOne }
{}

/// Times rise on the lanes of kept units, a block is later than all below it on its lane, and so the last
/// two units of a lane tell whether two of it are in a round.
pub fn times_rise_on_lanes()
    ensures rise { TimesRiseOnLanes }
    ensures two { TwoInRoundAreTheLast }
{}

/// A plan is made somewhere: a proposal that leaves out a unit that is later than its round. With its witness
/// the round is full, and no plan is made. And where a waiting unit has its name, the proposal's delivery clashes.
pub fn a_plan_is_made()
    ensures made { SomePlanIsMade }
    ensures full { SomeRoundIsFull }
    ensures clash { SomePlanClashes }
{}
