//! A whole script, read and run.

ghost use Rattle.std.specs.Prelude.{◌≡◌, [], IfOk};
ghost use Rattle.hw_types.specs.Real.{setting_of};
ghost use Rattle.hw_script_grammar.specs.Answers.{Reads};
ghost use Rattle.hw_script.specs.Output.{acts_text, output_of};

use crate::steps::act_all;
use hw_core::Core;
use hw_script_grammar::{Acts, Names, Script, ScriptError, read_script};
use hw_types::{Bytes, Config, OutOfMemory};
use std::alloc::Global;

/// Runs a script, and answers what it prints. `Line` names the first line outside the grammar, counted from 1.
/// Then nothing of the script has run.
#[tactic(auto, unfolding(crate::specs::Output::output_in))]
pub fn run_script(alloc: Global, text: &[u8]) -> Result<Bytes, ScriptError>
    ensures { Reads (λ output. output) result (output_of text.now) }
{
    let Script {
        config,
        names,
        acts,
    } = read_script(alloc, text)?;
    Ok(run(alloc, config, &names, &acts)?)
}

/// What all steps print on a node that has received nothing.
fn run(alloc: Global, config: Config, names: &Names, acts: &Acts) -> Result<Bytes, OutOfMemory>
    ensures { IfOk result (λ output. output ≡ acts_text names.now (setting_of config) [] acts.now) }
{
    match Core::new(alloc, config) {
        Ok(mut core) => printed(alloc, names, acts, &mut core),
        Err(_) => Err(OutOfMemory),
    }
}

/// What all steps print on this node, which has received nothing.
fn printed(alloc: Global, names: &Names, acts: &Acts, core: &mut Core) -> Result<Bytes, OutOfMemory>
    requires { core.old.journal ≡ [] }
    ensures { IfOk result (λ output. output ≡ acts_text names.now (setting_of core.old.config) [] acts.now) }
{
    let mut out = Bytes::new(alloc);
    act_all(alloc, names, acts, core, &mut out)?;
    Ok(out)
}
