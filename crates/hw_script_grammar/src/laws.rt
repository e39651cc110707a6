//! For the prover: the reader's steps give what the grammar says.

ghost use Rattle.hw_script_grammar.specs.Laws.{ThatWritesIsRead, ThatWrongIsNamed, ThatOneIsWritten, ThatAllIsRead, ThatNumbersAreDecimal};

/// The relations of the grammar agree with the reader's steps.
pub fn writes_is_script_of()
    ensures read { ThatWritesIsRead }
    ensures wrong { ThatWrongIsNamed }
    ensures one { ThatOneIsWritten }
    ensures all { ThatAllIsRead }
{}

/// Numbers are written as their decimal texts.
pub fn numbers_are_decimal()
    ensures { ThatNumbersAreDecimal }
{}
