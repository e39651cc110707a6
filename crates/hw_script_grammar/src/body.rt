//! The lines after the settings.

ghost use Rattle.std.specs.Prelude.{◌≡◌, None, IfOk};
ghost use Rattle.hw_types.specs.{Limits.{config_fault}, Real.{setting_of}, Spelling.{instance_of}};
ghost use Rattle.hw_script_grammar.specs.{Lines.{lines_in}, Acts.{AddsFit}, Body.{nothing_said, with_more, lines_add}, Answers.{Reads}};

use crate::acts::Acts;
use crate::adds::{Adds, line_adds};
use crate::fault::ScriptError;
use crate::lines::{Line, Lines};
use crate::names::Names;
use hw_codec::instance_of;
use hw_types::{Config, OutOfMemory};
use std::alloc::Global;

/// The definitions and steps of the lines that were read.
#[derive(Drop)]
pub(crate) struct Said {
    pub(crate) names: Names,
    pub(crate) acts: Acts,
}

/// Reads all lines after the settings. Answers the number of the first line that is outside the grammar, if any.
#[tactic(auto, using(crate::proofs::BodyLaws::one_added, crate::proofs::BodyLaws::is_done))]
pub(crate) fn read_body(
    alloc: Global,
    config: &Config,
    lines: &mut Lines<'_>,
) -> Result<Said, ScriptError>
    requires { config_fault config.now ≡ None }
    ensures { Reads (λ said. said) result (lines_add (setting_of config.now) nothing_said (lines_in lines.old)) }
{
    let instance = instance_of(alloc, config)?;
    let mut said = Said::new(alloc);
    while let Some(line) = lines.next() {
        let Line { number, mut words } = line;
        match line_adds(alloc, config, &instance, &said.names, &mut words) {
            Ok(adds) => said = said.with_more(adds)?,
            Err(fault) => return Err(fault.in_line(number)),
        }
    }
    Ok(said)
}

impl Said {
    /// No definitions and no steps.
    fn new(alloc: Global) -> Said
        ensures { result ≡ nothing_said }
    {
        Said {
            names: Names::new(alloc),
            acts: Acts::new(alloc),
        }
    }

    /// The same with what a line adds.
    fn with_more(self, adds: Adds) -> Result<Said, OutOfMemory>
        requires { AddsFit adds }
        ensures { IfOk result (λ said. said ≡ with_more self adds) }
    {
        let Said { names, mut acts } = self;
        match adds {
            Adds::Definition(named) => Ok(Said {
                names: names.with_definition(named)?,
                acts,
            }),
            Adds::Steps(steps) => {
                acts.append(steps)?;
                Ok(Said { names, acts })
            }
        }
    }
}
