//! Why a line, or a script, can't be read.

ghost use Rattle.std.specs.Prelude.{◌≡◌};
ghost use Rattle.hw_script_grammar.specs.Answers.{in_line};
ghost use Rattle.hw_script_grammar.specs.declared.fault.Fault.TheVariants as Faults;
ghost use Rattle.hw_script_grammar.specs.declared.fault.ScriptError.TheVariants as Errors;

use hw_types::OutOfMemory;

/// Why a line can't be read.
#[derive(Clone, Copy, Debug, PartialEq, Eq)]
pub(crate) enum Fault {
    /// It is outside the grammar.
    Grammar,
    /// Reading it ran out of memory.
    OutOfMemory,
}

impl From<OutOfMemory> for Fault {
    ghost from_gives = { λ _ fault. fault ≡ Faults.OutOfMemory };

    fn from(_error: OutOfMemory) -> Fault {
        Fault::OutOfMemory
    }
}

/// Why a script can't be read.
#[derive(Clone, Copy, Debug, PartialEq, Eq)]
pub enum ScriptError {
    /// The number of the first line outside the grammar, counted from 1. Where a setting is missing and no line follows
    /// the settings, it is the number of the last line plus one.
    Line(u64),
    /// Reading it ran out of memory.
    OutOfMemory,
}

impl From<OutOfMemory> for ScriptError {
    ghost from_gives = { λ _ error. error ≡ Errors.OutOfMemory };

    fn from(_error: OutOfMemory) -> ScriptError {
        ScriptError::OutOfMemory
    }
}

impl Fault {
    /// The error of the script whose line of this number has the fault.
    pub(crate) fn in_line(self, number: u64) -> ScriptError
        ensures { result ≡ in_line number self }
    {
        match self {
            Fault::Grammar => ScriptError::Line(number),
            Fault::OutOfMemory => ScriptError::OutOfMemory,
        }
    }
}
