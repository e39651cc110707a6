//! The lines of a report.

ghost use Rattle.std.specs.{Prelude.{◌≡◌, ◌∷◌, ◌++◌, map, OnOk}, List.{flat_map, join_with_byte}};
ghost use Rattle.hw_text.specs.{Text.{number_text}, Lines.{spaced, or_dash}};
ghost use Rattle.hw_explain.specs.Report.{counts_line, faulty_line, fork_line, final_words, final_line, exceeded_line};

use hw_text::{end_line, put_digest, put_number, put_numbered, put_word};
use hw_types::{Bytes, Decision, Digest, OutOfMemory};

/// How many units there are of each kind, and how many deliveries were refused or came again.
#[derive(Clone, Copy, Debug, PartialEq, Eq)]
pub struct Counts {
    pub units: u32,
    pub parked: u32,
    pub dropped: u32,
    pub refused: u64,
    pub repeats: u64,
}

/// Puts the line of these numbers last.
#[tactic(auto, using(std::proofs::Common::append_assoc), unfolding(crate::specs::Report::counts_line, hw_text::specs::Lines::line_of))]
pub fn put_counts(out: &mut Bytes, counts: &Counts) -> Result<(), OutOfMemory>
    ensures { OnOk result (out.new ≡ out.old ++ counts_line counts.now) }
{
    put_numbered(out, "units ", u64::from(counts.units))?;
    put_numbered(out, " parked ", u64::from(counts.parked))?;
    put_numbered(out, " dropped ", u64::from(counts.dropped))?;
    put_numbered(out, " refused ", counts.refused)?;
    put_numbered(out, " repeats ", counts.repeats)?;
    end_line(out)
}

/// Puts the line of the faulty validators last.
#[tactic(auto, using(crate::proofs::LineLaws::faulty_parts))]
pub fn put_faulty(out: &mut Bytes, faulty: &[u32]) -> Result<(), OutOfMemory>
    ensures { OnOk result (out.new ≡ out.old ++ faulty_line faulty.now) }
{
    put_word(out, "faulty")?;
    put_or_dash(out, faulty)?;
    end_line(out)
}

/// Puts these numbers last, a space before each, or a dash where there is none.
#[tactic(auto, using(crate::proofs::LineLaws::some_numbers))]
fn put_or_dash(out: &mut Bytes, numbers: &[u32]) -> Result<(), OutOfMemory>
    ensures { OnOk result (out.new ≡ out.old ++ flat_map spaced (or_dash (map number_text numbers.now))) }
{
    match numbers {
        [] => put_word(out, " -"),
        _ => put_each(out, numbers),
    }
}

/// Puts these numbers last, a space before each.
fn put_each(out: &mut Bytes, numbers: &[u32]) -> Result<(), OutOfMemory>
    ensures { OnOk result (out.new ≡ out.old ++ flat_map (λ n. 32 ∷ number_text n) numbers.now) }
{
    for number in numbers {
        put_numbered(out, " ", u64::from(*number))?;
    }
    Ok(())
}

/// Puts the line of the fork choice last.
#[tactic(auto, using(std::proofs::Common::append_assoc), unfolding(crate::specs::Report::fork_line, hw_text::specs::Lines::line_of))]
pub fn put_fork(out: &mut Bytes, fork: Option<Digest>) -> Result<(), OutOfMemory>
    ensures { OnOk result (out.new ≡ out.old ++ fork_line fork) }
{
    put_word(out, "fork ")?;
    match fork {
        Some(block) => put_digest(out, &block)?,
        None => put_word(out, "-")?,
    }
    end_line(out)
}

/// Puts the line of a decided block last.
#[tactic(auto, using(std::proofs::Common::append_assoc), unfolding(crate::specs::Report::final_line, hw_text::specs::Lines::line_of))]
pub fn put_final(out: &mut Bytes, decision: &Decision) -> Result<(), OutOfMemory>
    ensures { OnOk result (out.new ≡ out.old ++ final_line decision.now) }
{
    put_final_words(out, decision)?;
    end_line(out)
}

/// Puts the words of a decided block last.
#[tactic(auto, using(std::proofs::Common::append_assoc))]
pub(crate) fn put_final_words(out: &mut Bytes, decision: &Decision) -> Result<(), OutOfMemory>
    ensures { OnOk result (out.new ≡ out.old ++ join_with_byte 32 (final_words decision.now)) }
{
    put_numbered(out, "final ", decision.height)?;
    put_word(out, " ")?;
    put_digest(out, &decision.block)?;
    put_numbered(out, " level ", u64::from(decision.level))?;
    put_numbered(out, " quorum ", decision.quorum)?;
    put_numbered(out, " at ", decision.at)
}

/// Puts the line of a faulty weight above the threshold last, where there is one.
#[tactic(auto, using(std::proofs::Common::append_assoc), unfolding(crate::specs::Report::exceeded_line, hw_text::specs::Lines::line_of))]
pub fn put_exceeded(out: &mut Bytes, weight: Option<u64>) -> Result<(), OutOfMemory>
    ensures { OnOk result (out.new ≡ out.old ++ exceeded_line weight) }
{
    match weight {
        Some(weight) => {
            put_numbered(out, "exceeded ", weight)?;
            end_line(out)
        }
        None => Ok(()),
    }
}
