//! What a summary says of each validator, as bytes.

ghost use Rattle.std.specs.Prelude.{◌≡◌, ◌++◌, length, OnOk};
ghost use Rattle.hw_types.specs.{Reading.{Gives, many_at, counted_at}, Spelling.{counted}};
ghost use Rattle.hw_meeting.specs.Frames.{part_bytes, unit_count_at, part_behind, part_at};

use crate::frame::SummaryList;
use hw_agree::LaneSummary;
use hw_codec::{Field, Reader};
use hw_types::{CodecError, Items, OutOfMemory};
use std::alloc::Global;

/// Reads a count that is at most the limit, and as many parts.
#[tactic(auto, unfolding(hw_types::specs::Reading::counted_at))]
pub(crate) fn read_parts(
    alloc: Global,
    limit: u32,
    reader: &mut Reader<'_>,
) -> Result<SummaryList, CodecError>
    ensures { Gives (λ parts. (parts, reader.new)) result (counted_at part_at limit reader.old) }
{
    let count = reader.count(limit)?;
    many_parts(alloc, count, reader)
}

/// Reads this many parts.
fn many_parts(alloc: Global, count: u32, reader: &mut Reader<'_>) -> Result<SummaryList, CodecError>
    ensures { Gives (λ parts. (parts, reader.new)) result (many_at part_at count reader.old) }
{
    let mut parts = Items::new(alloc);
    for _ in 0..count {
        parts.push(read_part(reader)?)?;
    }
    Ok(parts)
}

/// Reads what a summary says of a validator.
#[tactic(auto, unfolding(crate::specs::Frames::part_at))]
fn read_part(reader: &mut Reader<'_>) -> Result<LaneSummary, CodecError>
    ensures { Gives (λ part. (part, reader.new)) result (part_at reader.old) }
{
    let place = reader.place();
    let tag = reader.u8()?;
    read_behind(place, tag, reader)
}

/// Reads what comes after the tag, whose place this is.
fn read_behind(place: u64, tag: u8, reader: &mut Reader<'_>) -> Result<LaneSummary, CodecError>
    ensures { Gives (λ part. (part, reader.new)) result (part_behind place tag reader.old) }
{
    match tag {
        0 => Ok(LaneSummary::Nothing),
        1 => {
            let count = read_unit_count(reader)?;
            let tip = reader.digest()?;
            Ok(LaneSummary::Line(count, tip))
        }
        2 => Ok(LaneSummary::Tangled),
        _ => Err(CodecError::BadTag(place)),
    }
}

/// Reads how many units a line has, which is at least one.
fn read_unit_count(reader: &mut Reader<'_>) -> Result<u64, CodecError>
    ensures { Gives (λ count. (count, reader.new)) result (unit_count_at reader.old) }
{
    let place = reader.place();
    let count = reader.u64()?;
    if count == 0 {
        return Err(CodecError::OutOfRange(place));
    }
    Ok(count)
}

/// Writes the count of the parts, which is given, and each of them.
pub(crate) fn put_parts(
    count: u32,
    parts: &[LaneSummary],
    out: &mut Vec<u8>,
) -> Result<(), OutOfMemory>
    requires { length parts.now ≡ count }
    ensures { OnOk result (out.new.items ≡ out.old.items ++ counted part_bytes parts.now) }
{
    out.extend_from_slice(&count.to_be_bytes())?;
    for part in parts {
        put_part(part, out)?;
    }
    Ok(())
}

fn put_part(part: &LaneSummary, out: &mut Vec<u8>) -> Result<(), OutOfMemory>
    ensures { OnOk result (out.new.items ≡ out.old.items ++ part_bytes part.now) }
{
    match part {
        LaneSummary::Nothing => Ok(out.push(0)?),
        LaneSummary::Line(count, tip) => {
            out.push(1)?;
            count.put(out)?;
            tip.put(out)
        }
        LaneSummary::Tangled => Ok(out.push(2)?),
    }
}
