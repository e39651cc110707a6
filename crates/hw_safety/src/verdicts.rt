//! What two nodes' journals say of each other, and the laws of it.
//!
//! Two journals agree, where the one chain of decided blocks begins the other; or they conflict, and
//! then the validators that equivocated weigh more than the threshold, each shown by two signed units;
//! or a unit of the one and a unit of the other differ and have one digest, a clash.

ghost use Rattle.hw_safety.specs.VerdictLaws.{DeliveredHavePairs, DeliveredAreSigned, ClashIsATest, NoClashByTest, CulpritsAreFound, CulpritsAreOne, CulpritsRise, CulpritsWeigh, VerdictIsFound, VerdictIsOne, AgreementIsATest, DifferenceIsAccountable, ConflictIsAccountable, OneHeightIsAccountable, ConflictingChainsAreAccountable};

/// Each evidence of a journal that deliveries made is a pair, and each vertex came with a true verdict.
pub fn delivered_have_pairs()
    ensures pairs { DeliveredHavePairs }
    ensures signed { DeliveredAreSigned }
{}

/// Where the test finds no clash, a unit of the one journal and a unit of the other that have one digest
/// are one unit; where it finds one, there is one.
pub fn clash_is_a_test()
    ensures test { ClashIsATest }
    ensures none { NoClashByTest }
{}

/// Each culprit of two journals is shown by two signed units, and by no other two; they stand in rising
/// order, and weigh together what each of them weighs.
pub fn culprits_are_shown()
    ensures found { CulpritsAreFound }
    ensures one { CulpritsAreOne }
    ensures rise { CulpritsRise }
    ensures weigh { CulpritsWeigh }
{}

/// Two journals have a verdict, and one alone, up to the signatures of culprits and to which clash is shown.
pub fn a_verdict_is_found()
    ensures found { VerdictIsFound }
    ensures one { VerdictIsOne }
    ensures agreement { AgreementIsATest }
{}

/// Where the decided blocks of two journals differ, the culprits weigh more than the threshold.
pub fn conflict_is_accountable()
    ensures difference { DifferenceIsAccountable }
    ensures conflict { ConflictIsAccountable }
    ensures height { OneHeightIsAccountable }
    ensures chains { ConflictingChainsAreAccountable }
{}
