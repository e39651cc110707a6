//! What a node shows.

ghost use Rattle.std.specs.{Prelude.{◌≡◌, ◌++◌, length, OnOk}, List.{flat_map}};
ghost use Rattle.hw_types.specs.Real.{received_in, panorama_in};
ghost use Rattle.hw_text.specs.Lines.{spaced};
ghost use Rattle.hw_explain.specs.Report.{faulty_line, faulty_in};
ghost use Rattle.hw_script.specs.Shows.{block_text, fork_text, observation_text, panorama_text};

use hw_core::Core;
use hw_explain::{faulty, put_faulty};
use hw_script_grammar::Names;
use hw_text::{end_line, put_word};
use hw_types::{Bytes, Digest, Obs, OutOfMemory};
use std::alloc::Global;

/// Puts the line of the fork choice last.
#[tactic(auto, using(std::proofs::Common::append_assoc), unfolding(crate::specs::Shows::fork_text))]
pub(crate) fn put_fork(
    out: &mut Bytes,
    names: &Names,
    fork: Option<Digest>,
) -> Result<(), OutOfMemory>
    ensures { OnOk result (out.new ≡ out.old ++ fork_text names.now fork) }
{
    put_word(out, "fork ")?;
    put_block(out, names, fork)?;
    end_line(out)
}

/// Puts the name of a block last, if there is one.
#[tactic(auto, unfolding(crate::specs::Shows::block_text))]
fn put_block(out: &mut Bytes, names: &Names, block: Option<Digest>) -> Result<(), OutOfMemory>
    ensures { OnOk result (out.new ≡ out.old ++ block_text names.now block) }
{
    match block {
        None => put_word(out, "-"),
        Some(digest) => out.extend(names.name_of(&digest)),
    }
}

/// Puts what the node observes of each validator last.
#[tactic(auto, using(std::proofs::Common::append_assoc), unfolding(crate::specs::Shows::panorama_text))]
pub(crate) fn put_panorama(out: &mut Bytes, names: &Names, core: &Core) -> Result<(), OutOfMemory>
    ensures { OnOk result (out.new ≡ out.old ++ panorama_text names.now (panorama_in core.now)) }
{
    put_word(out, "panorama")?;
    put_observations(out, names, core)?;
    end_line(out)
}

/// Puts the observations last, a space before each.
fn put_observations(out: &mut Bytes, names: &Names, core: &Core) -> Result<(), OutOfMemory>
    ensures { OnOk result (out.new ≡ out.old ++ flat_map (λ o. spaced (observation_text names.now o)) (panorama_in core.now)) }
{
    for validator in 0..validators(core) {
        put_word(out, " ")?;
        put_observation(out, names, core.observation(validator))?;
    }
    Ok(())
}

/// Puts an observation last.
#[tactic(auto, unfolding(crate::specs::Shows::observation_text))]
fn put_observation(out: &mut Bytes, names: &Names, observation: Obs) -> Result<(), OutOfMemory>
    ensures { OnOk result (out.new ≡ out.old ++ observation_text names.now observation) }
{
    match observation {
        Obs::Absent => put_word(out, "-"),
        Obs::Faulty => put_word(out, "!"),
        Obs::Correct(digest) => out.extend(names.name_of(&digest)),
    }
}

/// Puts the line of the faulty validators last.
pub(crate) fn put_faulty_of(alloc: Global, out: &mut Bytes, core: &Core) -> Result<(), OutOfMemory>
    ensures { OnOk result (out.new ≡ out.old ++ faulty_line (faulty_in core.now.config (received_in core.now))) }
{
    let faulty = faulty(alloc, core)?;
    put_faulty(out, faulty.as_slice())?;
    Ok(())
}

/// How many validators there are.
#[tactic(auto, using(hw_types::proofs::LimitLaws::within_limits))]
fn validators(core: &Core) -> u32
    ensures { result ≡ length core.now.config.weights }
{
    core.state().config().weights.len() as u32
}
