//! A whole script.

ghost use Rattle.std.specs.Prelude.{◌≡◌, None, IfOk, IfErr};
ghost use Rattle.hw_types.specs.Limits.{config_fault};
ghost use Rattle.hw_script_grammar.specs.{Script.{script_of}, Grammar.{Writes, IsFirstWrong}, Answers.{Reads, IsLine}};

use crate::acts::Acts;
use crate::body::read_body;
use crate::fault::ScriptError;
use crate::head::{config_or_line, read_head};
use crate::lines::Lines;
use crate::names::Names;
use hw_types::Config;
use std::alloc::Global;

/// A script: its configuration, its definitions, and its steps.
#[derive(Drop)]
pub struct Script {
    pub config: Config,
    pub names: Names,
    pub acts: Acts,
}

/// Reads the script that the text writes. Its configuration keeps its limits. `Line` has the number of the first line
/// outside the grammar.
#[tactic(auto, using(crate::proofs::ReadLaws::is_written, crate::proofs::ReadLaws::is_wrong))]
pub fn read_script(alloc: Global, text: &[u8]) -> Result<Script, ScriptError>
    ensures script { IfOk result (Writes text.now) }
    ensures line { IfErr result (IsLine (IsFirstWrong text.now)) }
    // For the prover: the same by the reader's steps. `writes_is_script_of` says that the grammar agrees with them.
    ensures steps { Reads (λ script. script) result (script_of text.now) }
    ensures lawful { IfOk result (λ script. config_fault script.config ≡ None) }
{
    script_of(alloc, text)
}

/// The same. For the prover: its contract speaks of the reader's steps in place of the grammar.
#[tactic(auto, unfolding(crate::specs::Script::script_in))]
fn script_of(alloc: Global, text: &[u8]) -> Result<Script, ScriptError>
    ensures steps { Reads (λ script. script) result (script_of text.now) }
    ensures lawful { IfOk result (λ script. config_fault script.config ≡ None) }
{
    let mut lines = Lines::new(text);
    let head = read_head(alloc, &mut lines)?;
    let config = config_or_line(head, &mut lines)?;
    let said = read_body(alloc, &config, &mut lines)?;
    Ok(Script {
        config,
        names: said.names,
        acts: said.acts,
    })
}
