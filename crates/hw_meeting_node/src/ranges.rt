//! Each value of a frame is in its type's range.

ghost use Rattle.std.specs.Prelude.{◌<◌, ◌^◌, All};
ghost use Rattle.hw_codec.specs.Ranges.{DigestInRange};
ghost use Rattle.hw_meeting.specs.Frames.{PartInRange, MeetingInRange};

use hw_codec::{array_is_in_range, vertex_is_in_range};
use hw_meeting::{LaneSummary, MeetingFrame};
use hw_types::Digest;

/// Each number in a frame is below its type's limit, and each digest has 32 bytes. It does nothing.
pub(crate) fn meeting_is_in_range(frame: &MeetingFrame)
    ensures { MeetingInRange frame.now }
{
    match frame {
        MeetingFrame::Hello(instance) => digest_is_in_range(instance),
        MeetingFrame::Vertex(vertex) => vertex_is_in_range(vertex),
        MeetingFrame::Summary(parts) => parts_are_in_range(parts.as_slice()),
        MeetingFrame::Torn(numbers) => numbers_are_in_range(numbers.as_slice()),
        MeetingFrame::Done => {}
    }
}

fn digest_is_in_range(digest: &Digest)
    ensures { DigestInRange digest.now }
{
    array_is_in_range(&digest.0);
}

fn numbers_are_in_range(numbers: &[u32])
    ensures { All (λ n. n < 2 ^ 32) numbers.now }
{}

fn parts_are_in_range(parts: &[LaneSummary])
    ensures { All PartInRange parts.now }
{
    for part in parts {
        part_is_in_range(part);
    }
}

fn part_is_in_range(part: &LaneSummary)
    ensures { PartInRange part.now }
{
    match part {
        LaneSummary::Nothing => {}
        LaneSummary::Line(count, tip) => {
            // For the prover: that it is a number of 32 bits.
            let _count = *count;
            digest_is_in_range(tip);
        }
        LaneSummary::Tangled => {}
    }
}
