//! `gen` and `sim`: what the generated journal and the simulated run of a number come to.

ghost use Rattle.std.specs.Prelude.{◌≡◌, ◌++◌, ◌≤◌, IfOk, IfErr, OnOk};
ghost use Rattle.hw_cluster.specs.Numbers.{totals_of, numbers_of};
ghost use Rattle.hw_commands.specs.{Program.{ended, gen_said, sim_said}, Workloads.{height_text, gen_line, sim_line}};
ghost use Rattle.hw_commands.specs.declared.ended.RunFault.TheVariants as RunFaults;

use crate::ended::{DONE, Ended, Ending};
use hw_cluster::{GenSummary, SimSummary, generate, simulate};
use hw_text::{end_line, put_number, put_numbered, put_word};
use hw_types::{Bytes, OutOfMemory};
use std::alloc::Global;

/// Gives a node the units of `rounds` rounds, which the number makes, and says how the run ends.
pub fn generated(alloc: Global, number: u64, rounds: u32) -> Ending
    requires some { 1 ≤ rounds }
    requires few { rounds ≤ 4096 }
    ensures said { IfOk result (λ e. e ≡ ended (gen_said number rounds)) }
    ensures fault { IfErr result (λ fault. fault ≡ RunFaults.OutOfMemory) }
{
    let summary = generate(alloc, number, rounds)?;
    let text = gen_text(alloc, rounds, &summary)?;
    Ok(Ended { status: DONE, text })
}

/// What a generated journal came to, in a line.
#[tactic(auto, using(std::proofs::Common::append_assoc), unfolding(crate::specs::Workloads::gen_line, hw_text::specs::Lines::line_of))]
fn gen_text(alloc: Global, rounds: u32, summary: &GenSummary) -> Result<Bytes, OutOfMemory>
    ensures { IfOk result (λ text. text ≡ gen_line rounds (totals_of summary.now)) }
{
    let mut text = Bytes::new(alloc);
    put_numbered(&mut text, "gen rounds ", u64::from(rounds))?;
    put_numbered(&mut text, " units ", summary.units)?;
    put_numbered(&mut text, " final ", summary.finals)?;
    put_word(&mut text, " last ")?;
    put_height(&mut text, summary.last)?;
    end_line(&mut text)?;
    Ok(text)
}

/// Puts a height last, or a dash where there is none.
fn put_height(text: &mut Bytes, height: Option<u64>) -> Result<(), OutOfMemory>
    ensures { OnOk result (text.new ≡ text.old ++ height_text height) }
{
    match height {
        None => put_word(text, "-"),
        Some(height) => put_number(text, height),
    }
}

/// Lets the words of the number choose `steps` steps of `nodes` nodes, and says how the run ends.
pub fn simulated(alloc: Global, number: u64, nodes: u32, steps: u32) -> Ending
    requires some { 1 ≤ nodes }
    requires few { nodes ≤ 16 }
    requires steps { steps ≤ 20000 }
    ensures said { IfOk result (λ e. e ≡ ended (sim_said number nodes steps)) }
    ensures fault { IfErr result (λ fault. fault ≡ RunFaults.OutOfMemory) }
{
    let summary = simulate(alloc, number, nodes, steps)?;
    let text = sim_text(alloc, nodes, steps, &summary)?;
    Ok(Ended { status: DONE, text })
}

/// What a simulated run came to, in a line.
#[tactic(auto, using(std::proofs::Common::append_assoc), unfolding(crate::specs::Workloads::sim_line, hw_text::specs::Lines::line_of))]
fn sim_text(
    alloc: Global,
    nodes: u32,
    steps: u32,
    summary: &SimSummary,
) -> Result<Bytes, OutOfMemory>
    ensures { IfOk result (λ text. text ≡ sim_line nodes steps (numbers_of summary.now)) }
{
    let mut text = Bytes::new(alloc);
    put_numbered(&mut text, "sim nodes ", u64::from(nodes))?;
    put_numbered(&mut text, " steps ", u64::from(steps))?;
    put_numbered(&mut text, " units ", summary.units)?;
    put_numbered(&mut text, " final ", summary.finals)?;
    put_numbered(&mut text, " refused ", summary.refused)?;
    put_numbered(&mut text, " culprits ", u64::from(summary.culprits))?;
    end_line(&mut text)?;
    Ok(text)
}
