//! Frames from all of their bytes.

ghost use Rattle.std.specs.{Prelude.{◌≡◌, ◌⊎◌, ◌==◌, ◌&&◌, nat_lt, length, Ok, Err, IfOk, IfErr, if◌then◌else◌}, List.{list_all}};
ghost use Rattle.hw_types.specs.{declared.answers.CodecError.{CodecError}, Reading.{Gives, vertex_of, whole, digest_at}};
ghost use Rattle.hw_meeting.specs.declared.frame.MeetingFrame.{MeetingFrame};
ghost use Rattle.hw_meeting.specs.declared.frame.FrameError.TheVariants as Faults;
ghost use Rattle.hw_meeting.specs.Frames.{rise_from, are_validators, SpellsMeeting, MeetingInRange, summary_at, torn_at, meeting_behind, meeting_of, fault_of};

use crate::frame::{FrameError, MeetingFrame, SummaryList};
use crate::part::read_parts;
use hw_codec::{Reader, decode_vertex, read_list};
use hw_types::{CodecError, Digest, IndexList, Vertex};
use std::alloc::Global;

/// The frame that the bytes spell, all of them, where there are this many validators: the kind, and what
/// comes after it.
///
/// Its error is `Form` where they spell none. A summary has one part for each validator, and a line in it has at
/// least one unit. The torn ones are validators in rising order.
pub fn decode_meeting(
    alloc: Global,
    validators: u32,
    body: &[u8],
) -> Result<MeetingFrame, FrameError>
    // What is read is spelled so, every byte of it.
    ensures ok { IfOk result (λ frame. SpellsMeeting validators body.now frame) }

    // What is spelled so is read, unless memory runs out.
    ensures read { (frame : MeetingFrame) → MeetingInRange frame → SpellsMeeting validators body.now frame
        → (result ≡ Ok frame) ⊎ (result ≡ Err Faults.OutOfMemory) }

    // It is what reading from left to right gives.
    ensures value { IfOk result (λ frame. meeting_of validators body.now ≡ Ok frame) }
    ensures form { IfErr result (λ fault. fault ≡ Faults.Form → (e : CodecError) × (meeting_of validators body.now ≡ Err e)) }
{
    match whole_frame(alloc, validators, body) {
        Ok(frame) => Ok(frame),
        Err(error) => Err(fault_of(error)),
    }
}

fn fault_of(error: CodecError) -> FrameError
    ensures { result ≡ fault_of error }
{
    match error {
        CodecError::OutOfMemory => FrameError::OutOfMemory,
        _ => FrameError::Form,
    }
}

#[tactic(auto, unfolding(crate::specs::Frames::meeting_of))]
fn whole_frame(alloc: Global, validators: u32, body: &[u8]) -> Result<MeetingFrame, CodecError>
    ensures { Gives (λ frame. frame) result (meeting_of validators body.now) }
{
    match body {
        [] => Err(CodecError::Truncated(0)),
        [kind, rest @ ..] => frame_behind(alloc, validators, *kind, rest),
    }
}

/// The frame of this kind, from the bytes after the kind.
fn frame_behind(
    alloc: Global,
    validators: u32,
    kind: u8,
    body: &[u8],
) -> Result<MeetingFrame, CodecError>
    ensures { Gives (λ frame. frame) result (meeting_behind validators kind body.now) }
{
    match kind {
        1 => Ok(MeetingFrame::Hello(whole_digest(body)?)),
        2 => Ok(MeetingFrame::Vertex(whole_vertex(alloc, body)?)),
        3 => Ok(MeetingFrame::Summary(whole_summary(alloc, validators, body)?)),
        4 => Ok(MeetingFrame::Torn(whole_torn(alloc, validators, body)?)),
        5 => nothing_more(body),
        _ => Err(CodecError::BadTag(0)),
    }
}

#[tactic(auto, unfolding(hw_types::specs::Reading::whole))]
fn whole_digest(body: &[u8]) -> Result<Digest, CodecError>
    ensures { Gives (λ digest. digest) result (whole digest_at body.now) }
{
    let mut reader = Reader::new(body);
    let digest = reader.digest()?;
    reader.end()?;
    Ok(digest)
}

fn whole_vertex(alloc: Global, body: &[u8]) -> Result<Vertex, CodecError>
    ensures { Gives (λ vertex. vertex) result (vertex_of body.now) }
{
    decode_vertex(alloc, body)
}

#[tactic(auto, unfolding(hw_types::specs::Reading::whole, crate::specs::Frames::summary_at))]
fn whole_summary(alloc: Global, validators: u32, body: &[u8]) -> Result<SummaryList, CodecError>
    ensures { Gives (λ parts. parts) result (whole (summary_at validators) body.now) }
{
    let mut reader = Reader::new(body);
    let place = reader.place();
    let parts = read_parts(alloc, validators, &mut reader)?;
    if parts.len() != validators as usize {
        return Err(CodecError::OutOfRange(place));
    }
    reader.end()?;
    Ok(parts)
}

#[tactic(auto, unfolding(hw_types::specs::Reading::whole, crate::specs::Frames::torn_at))]
fn whole_torn(alloc: Global, validators: u32, body: &[u8]) -> Result<IndexList, CodecError>
    ensures { Gives (λ numbers. numbers) result (whole (torn_at validators) body.now) }
{
    let mut reader = Reader::new(body);
    let place = reader.place();
    let numbers: IndexList = read_list(alloc, validators, &mut reader)?;
    if !are_validators(validators, numbers.as_slice()) {
        return Err(CodecError::OutOfRange(place));
    }
    reader.end()?;
    Ok(numbers)
}

/// Whether these are validators in rising order.
fn are_validators(validators: u32, numbers: &[u32]) -> bool
    ensures { result ≡ are_validators validators numbers.now }
{
    are_rising(numbers) && are_below(validators, numbers)
}

fn are_below(validators: u32, numbers: &[u32]) -> bool
    ensures { result ≡ list_all (λ v. nat_lt v validators) numbers.now }
{
    numbers.iter().all(|number| *number < validators)
}

/// Whether each number is above the one before it.
#[tactic(auto, using(crate::proofs::RiseLaws::goes_on, crate::proofs::RiseLaws::stops, crate::proofs::RiseLaws::is_done))]
fn are_rising(numbers: &[u32]) -> bool
    ensures { result ≡ rise_from 0 numbers.now }
{
    let mut least = 0;
    for number in numbers {
        let number = u64::from(*number);
        if number < least {
            return false;
        }
        least = number + 1;
    }
    true
}

fn nothing_more(body: &[u8]) -> Result<MeetingFrame, CodecError>
    ensures { Gives (λ frame. frame) result (if length body.now == 0 then Ok MeetingFrame.Done else Err (CodecError.Trailing 0)) }
{
    if body.is_empty() {
        Ok(MeetingFrame::Done)
    } else {
        Err(CodecError::Trailing(0))
    }
}
