//! The lines about the consumers that were dropped.

ghost use Rattle.std.specs.Prelude.{◌≡◌, ◌++◌, OnOk, OnErr};
ghost use Rattle.hw_text.specs.Lines.{AddsFront};
ghost use Rattle.hw_replay.specs.Lines.{fault_words, place_word, drop_line, drop_lines};

use crate::Fanout;
use hw_io::IoFault;
use hw_text::{end_line, put_number, put_numbered, put_word};
use hw_types::{Bytes, OutOfMemory};

/// Puts one line last for each consumer that was dropped, in the order of dropping. A line has its place in the
/// first list, what it answered, and the height at which it failed, or `finish`. After `OutOfMemory` the front
/// of the lines stays.
pub fn put_drops(out: &mut Bytes, fanout: &Fanout) -> Result<(), OutOfMemory>
    ensures ok { OnOk result (out.new ≡ out.old ++ drop_lines fanout.now.drops) }
    ensures err { OnErr result (AddsFront out.old out.new (drop_lines fanout.now.drops)) }
{
    for index in 0..fanout.drop_count() {
        let (place, height, fault) = fanout.drop_at(index);
        put_drop(out, place, height, fault)?;
    }
    Ok(())
}

/// Puts the line of a dropped consumer last.
#[tactic(auto, using(std::proofs::Common::append_assoc), unfolding(hw_text::specs::Lines::line_of))]
fn put_drop(
    out: &mut Bytes,
    place: usize,
    height: Option<u64>,
    fault: IoFault,
) -> Result<(), OutOfMemory>
    ensures ok { OnOk result (out.new ≡ out.old ++ drop_line (record { place = place; ending = record { height = height; fault = fault } })) }
    ensures err { OnErr result (AddsFront out.old out.new (drop_line (record { place = place; ending = record { height = height; fault = fault } }))) }
{
    put_numbered(out, "consumer ", place as u64)?;
    put_word(out, " ")?;
    put_word(out, fault_words(fault))?;
    put_word(out, " at ")?;
    put_place(out, height)?;
    end_line(out)
}

/// What a consumer answered, in words.
fn fault_words(fault: IoFault) -> &'static str
    ensures { result.now ≡ fault_words fault }
{
    match fault {
        IoFault::Failed => "dropped",
        IoFault::OutOfMemory => "out of memory",
    }
}

/// Puts the height of a block last, or `finish` where there is none.
fn put_place(out: &mut Bytes, height: Option<u64>) -> Result<(), OutOfMemory>
    ensures ok { OnOk result (out.new ≡ out.old ++ place_word height) }
    ensures err { OnErr result (out.new ≡ out.old) }
{
    match height {
        Some(height) => put_number(out, height),
        None => put_word(out, "finish"),
    }
}
