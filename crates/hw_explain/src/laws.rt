//! What a reader may rely on in place of what is worked out.
//!
//! A journal has one list of decided blocks (`decisions_are_one`, of hw_types), and `decisions_of` is it
//! (`safety_decides`, of hw_safety). So each text is given by the definitions of decided blocks and of greatest
//! summits.

ghost use Rattle.hw_explain.specs.Laws.{ReportIsOfDecisions, ExplainedIsOfGreatest, DecidedHaveGreatest};

/// The report on a journal is the text made with any list of decided blocks that the definition allows.
pub fn report_is_of_decisions()
    ensures { ReportIsOfDecisions }
{}

/// The committees that are explained of a journal are those of the greatest summit of each decided block at its
/// moment. Each decided block has one.
pub fn committees_are_greatest()
    ensures greatest { ExplainedIsOfGreatest }
    ensures there { DecidedHaveGreatest }
{}
