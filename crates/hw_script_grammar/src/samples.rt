//! For the prover: small scripts, read by the definitions.

ghost use Rattle.hw_script_grammar.specs.Samples.{ThatAScriptIsRead, ThatAScriptIsWritten, ThatALineIsNamed, ThatALineIsWrong, ThatALackIsNamed, ThatALimitIsNamed};

/// The definitions read four small scripts as expected.
pub fn small_scripts_are_read()
    ensures script { ThatAScriptIsRead }
    ensures written { ThatAScriptIsWritten }
    ensures line { ThatALineIsNamed }
    ensures wrong { ThatALineIsWrong }
    ensures lack { ThatALackIsNamed }
    ensures limit { ThatALimitIsNamed }
{}
