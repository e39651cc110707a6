//! What the evidence shows that a node has.

ghost use Rattle.hw_needs.specs.Laws.{EvidenceIsTaken};

/// The evidence that a node has against a validator is two different units of that validator with one sequence
/// number. No node of the configuration refuses it.
pub fn evidence_is_taken()
    ensures { EvidenceIsTaken }
{}
