//! What is proved of the text that a script prints.

ghost use Rattle.hw_script.specs.Output.{ThatOutputIsPrinted, ThatWrongIsNamed};

/// The output of a text is what its script prints, by the grammar. A line is named exactly when it is the
/// first that is wrong.
pub fn output_is_printed()
    ensures printed { ThatOutputIsPrinted }
    ensures wrong { ThatWrongIsNamed }
{}
