//! The laws.

ghost use Rattle.hw_culprits.specs.Equivocation.{PairIsAnEquivocation, CulpritShowsEquivocation, CulpritsShowEquivocations};
ghost use Rattle.hw_culprits.specs.Innocence.{WhoSignsOnceIsNotNamed, CulpritsAreOthers, WhoSignOnceAgree};

/// The pair by which a culprit of two journals is shown is an equivocation: two different units by it of one number,
/// each signed in one of the journals. Its two byte strings spell them.
pub fn culprits_equivocated()
    ensures pair { PairIsAnEquivocation }
    ensures each { CulpritShowsEquivocation }
    ensures all { CulpritsShowEquivocations }
{}

/// A validator of whose units two journals have one for each number is no culprit of theirs. Let each of some validators
/// be such, whatever their numbers. Then the culprits weigh no more than all others. While all others weigh no more than
/// the threshold, the two are in no conflict.
pub fn who_sign_once_agree()
    ensures named { WhoSignsOnceIsNotNamed }
    ensures weigh { CulpritsAreOthers }
    ensures agree { WhoSignOnceAgree }
{}
