//! Worked journals: what is answered, and what is left.

ghost use Rattle.hw_samples.specs.FourUnits.{FourUnitsInOrder, EverythingParksUntilTheLast, RepeatsChangeNothing, OneWitnessIsNotEnough, LimitsRefuse, BrokenRulesAreNamed, ThirdOfARoundIsDropped};
ghost use Rattle.hw_samples.specs.Forks.{ForkAboveTheThreshold, MarkNeedsEvidence, JournalsInConflict, BothSidesInOne, NaiveForkIsDropped, EndorsementLetsItIn};
ghost use Rattle.hw_samples.specs.Chains.{HeaviestPath, SingleValidatorDecides, TwoLevelsWhereOneIsSilent, NoBlockAfterTheLast};
ghost use Rattle.hw_samples.specs.Steps.{StepsAtTheBeginning, StepsAfterABlock, StepsAtTheEnd, NoStep};
ghost use Rattle.hw_samples.specs.Gathered.{HandMadeJournals, RandomJournals, RandomDecisions};
ghost use Rattle.hw_samples.specs.RandomCases1.{RandomCases1};
ghost use Rattle.hw_samples.specs.RandomCases2.{RandomCases2};
ghost use Rattle.hw_samples.specs.RandomCases3.{RandomCases3};
ghost use Rattle.hw_samples.specs.RandomCases4.{RandomCases4};

/// Four units in order: the block is decided by two validators that see each other.
pub fn four_units_in_order()
    ensures { FourUnitsInOrder }
{}

/// The same units, the last first: each waits, and the block brings all of them.
pub fn everything_parks_until_the_last()
    ensures { EverythingParksUntilTheLast }
{}

/// The same units, each twice: the second time nothing changes.
pub fn repeats_change_nothing()
    ensures { RepeatsChangeNothing }
{}

/// Without the last unit the other validator sees too little, and nothing is decided.
pub fn one_witness_is_not_enough()
    ensures { OneWitnessIsNotEnough }
{}

/// A full journal and a full park refuse what they have no room for.
pub fn limits_refuse()
    ensures { LimitsRefuse }
{}

/// Units that break a rule of the unit alone are refused, and those that break a rule of the state are dropped.
pub fn broken_rules_are_named()
    ensures { BrokenRulesAreNamed }
{}

/// A validator has two units in a round, and no third.
pub fn third_of_a_round_is_dropped()
    ensures { ThirdOfARoundIsDropped }
{}

/// Two units of one number mark their creator, which then weighs more than the threshold.
pub fn fork_above_the_threshold()
    ensures { ForkAboveTheThreshold }
{}

/// A unit that marks a validator waits until it is faulty, by its units or by evidence, which has to be a pair.
pub fn mark_needs_evidence()
    ensures { MarkNeedsEvidence }
{}

/// Two journals decide different blocks, and the culprit and its pair show.
pub fn journals_in_conflict()
    ensures { JournalsInConflict }
{}

/// The units of both in one journal: the fork shows, and no second block is decided.
pub fn both_sides_in_one()
    ensures { BothSidesInOne }
{}

/// A unit that cites two that side with a forker, each with another unit, is dropped.
pub fn naive_fork_is_dropped()
    ensures { NaiveForkIsDropped }
{}

/// With one side endorsed by more than half and listed, it is admitted.
pub fn endorsement_lets_it_in()
    ensures { EndorsementLetsItIn }
{}

/// The fork choice goes down by summed weights, block by block.
pub fn heaviest_path()
    ensures { HeaviestPath }
{}

/// One validator decides each of its blocks by its next unit.
pub fn single_validator_decides()
    ensures { SingleValidatorDecides }
{}

/// Three of four validators decide at the second level what they cannot decide at the first.
pub fn two_levels_where_one_is_silent()
    ensures { TwoLevelsWhereOneIsSilent }
{}

/// No block stands on one of the last height; what counts is the panorama of the block itself.
pub fn no_block_after_the_last()
    ensures { NoBlockAfterTheLast }
{}

/// On an empty state the leader proposes, and nobody else makes a unit.
pub fn steps_at_the_beginning()
    ensures { StepsAtTheBeginning }
{}

/// After a block the others confirm it, and at the witness time all of them witness.
pub fn steps_after_a_block()
    ensures { StepsAfterABlock }
{}

/// On a block of the last height nobody proposes, and it is witnessed.
pub fn steps_at_the_end()
    ensures { StepsAtTheEnd }
{}

/// A validator that is marked, or has two units in the round, makes nothing.
pub fn no_step()
    ensures { NoStep }
{}

/// Journals made by hand, one for each thing that a reading may get wrong.
pub fn hand_made_journals()
    ensures { HandMadeJournals }
{}

/// Random journals, by a second reading of the definitions.
pub fn random_journals()
    ensures { RandomJournals }
{}

/// Random journals with what they decide, by another reading of the definitions.
pub fn random_decisions()
    ensures { RandomDecisions }
{}

/// Random journals with evidence, endorsements, refusals and limits, by yet another reading of the definitions.
pub fn random_cases()
    ensures first { RandomCases1 }
    ensures second { RandomCases2 }
    ensures third { RandomCases3 }
    ensures fourth { RandomCases4 }
{}
