//! A law of the step.

ghost use Rattle.hw_validator.specs.Laws.{StepIsOfJournal};

/// The step over a node's state, by which `next_unit` answers, is that of the definitions after the node's journal. That
/// the state is the journal's is what `Core::state` (hw_core) says of it.
pub fn steps_are_of_journals()
    ensures { StepIsOfJournal }
{}
