//! What a yes shows, and that what is worked out of certificates and keys is what the relations say.

ghost use Rattle.std.specs.Prelude.{◌≡◌, Any};
ghost use Rattle.hw_types.specs.{declared.answers.Decision.{Decision as Decided}, Below.{Among}, Real.{setting_of}};
ghost use Rattle.hw_safety.specs.{declared.verdict.Verdict.{Verdict as Judgement}, Verdicts.{IsVerdict, IsAccountable}};
ghost use Rattle.hw_core.specs.Decided.{decided_in};
ghost use Rattle.hw_light.specs.{Checked.{IsCertified}, Laws.{YesIsDecided, YesIsAccountable}, Worked.{KeysAreReadAlike, AnswerIsWorkedOut, AskedIsWorkedOut}};

use crate::certificate::Certificate;
use hw_core::Core;

/// The node of a yes decided the certificate's block. Let a node of the same configuration have decided another
/// block of that height. Then the two are in a conflict whose culprits weigh more than the threshold. Or a unit
/// of the one and a unit of the other differ and have one digest. That the other's evidence are pairs is what
/// `Core::state` says of each node.
pub fn a_yes_is_accountable()
    ensures decided { YesIsDecided }
    ensures accountable { YesIsAccountable }
{}

/// The second of these for a node that a caller has, beside the node of a yes: `Core::state` says of each node what the
/// law asks for.
pub fn who_decided_otherwise_is_accountable(certificate: &Certificate, yes: &Core, other: &Core)
    requires certified { IsCertified certificate.now yes.now }
    requires config { other.now.config ≡ certificate.now.config }
    ensures { (e : Decided) (v : Judgement) → Among e (decided_in other.now) → Any (λ (d : Decided). (d.block ≡ certificate.now.block) × (d.height ≡ e.height)) (decided_in yes.now) → (e.block ≡ certificate.now.block → ⊥) → IsVerdict (setting_of certificate.now.config) yes.now.journal other.now.journal (decided_in yes.now) (decided_in other.now) v → IsAccountable certificate.now.config.ftt v }
{
    let _state = other.state();
    // For the prover: these two are in the contract alone.
    let _ = certificate;
    let _ = yes;
}

/// A text of keys says one thing to a node that serves and to a check of a certificate.
pub fn keys_are_read_alike()
    ensures { KeysAreReadAlike }
{}

/// What a check answers, and what a node reports of a certificate that it is asked for, are what is worked out.
pub fn answers_are_worked_out()
    ensures checked { AnswerIsWorkedOut }
    ensures asked { AskedIsWorkedOut }
{}
