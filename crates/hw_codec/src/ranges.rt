//! Each value of a type is in the type's range.
//!
//! The definitions speak of numbers without a bound, so the laws of reading and spelling ask for
//! the range. A caller learns it of a value by one of these calls, which do nothing else.

ghost use Rattle.std.specs.Prelude.{◌^◌, ◌<◌, All, IfSome};
ghost use Rattle.hw_codec.specs.Ranges.{AreBytes, AreBytesOf, DigestInRange, SignatureInRange, ObsInRange, UnitInRange, SignedInRange, VertexInRange, LeadersInRange, ConfigInRange, NeedInRange, FrameInRange};

use hw_types::{
    Bytes, Config, Digest, Frame, Leaders, Need, Obs, Signature, SignedUnit, Vertex, WireUnit,
};

fn slice_is_in_range(bytes: &[u8])
    ensures { AreBytes bytes.now }
{}

/// The bytes of an array are bytes, and so many.
pub fn array_is_in_range(bytes: &[u8; 32])
    ensures { AreBytesOf 32 bytes.now }
{
    slice_is_in_range(bytes);
}

fn indices_are_in_range(numbers: &[u32])
    ensures { All (λ n. n < 2 ^ 32) numbers.now }
{}

fn weights_are_in_range(numbers: &[u64])
    ensures { All (λ n. n < 2 ^ 64) numbers.now }
{}

fn byte_is_in_range(number: u8)
    ensures { number < 2 ^ 8 }
{}

fn index_is_in_range(number: u32)
    ensures { number < 2 ^ 32 }
{}

fn number_is_in_range(number: u64)
    ensures { number < 2 ^ 64 }
{}

fn digest_is_in_range(digest: &Digest)
    ensures { DigestInRange digest.now }
{
    array_is_in_range(&digest.0);
}

fn signature_is_in_range(signature: &Signature)
    ensures { SignatureInRange signature.now }
{
    array_is_in_range(&signature.0);
}

fn obs_is_in_range(obs: &Obs)
    ensures { ObsInRange obs.now }
{
    match obs {
        Obs::Absent => {}
        Obs::Correct(digest) => digest_is_in_range(digest),
        Obs::Faulty => {}
    }
}

fn panorama_is_in_range(panorama: &[Obs])
    ensures { All ObsInRange panorama.now }
{
    for obs in panorama {
        obs_is_in_range(obs);
    }
}

fn digests_are_in_range(digests: &[Digest])
    ensures { All DigestInRange digests.now }
{
    for digest in digests {
        digest_is_in_range(digest);
    }
}

fn value_is_in_range(value: &Option<Bytes>)
    ensures { IfSome value.now AreBytes }
{
    match value {
        None => {}
        Some(bytes) => slice_is_in_range(bytes.as_slice()),
    }
}

/// Each number of a unit is in the range of its type.
pub fn unit_is_in_range(unit: &WireUnit)
    ensures { UnitInRange unit.now }
{
    digest_is_in_range(&unit.instance);
    index_is_in_range(unit.creator);
    number_is_in_range(unit.seq);
    number_is_in_range(unit.time);
    byte_is_in_range(unit.exponent);
    panorama_is_in_range(unit.panorama.as_slice());
    value_is_in_range(&unit.value);
    digests_are_in_range(unit.endorsed.as_slice());
}

fn signed_is_in_range(signed: &SignedUnit)
    ensures { SignedInRange signed.now }
{
    unit_is_in_range(&signed.unit);
    signature_is_in_range(&signed.signature);
}

/// Each number of a vertex is in the range of its type.
pub fn vertex_is_in_range(vertex: &Vertex)
    ensures { VertexInRange vertex.now }
{
    match vertex {
        Vertex::Unit(signed) => signed_is_in_range(signed),
        Vertex::Evidence(evidence) => {
            signed_is_in_range(&evidence.left);
            signed_is_in_range(&evidence.right);
        }
        Vertex::Endorsement(endorsement) => {
            digest_is_in_range(&endorsement.unit);
            index_is_in_range(endorsement.endorser);
            signature_is_in_range(&endorsement.signature);
        }
    }
}

fn leaders_are_in_range(leaders: &Leaders)
    ensures { LeadersInRange leaders.now }
{
    match leaders {
        Leaders::Table(entries) => indices_are_in_range(entries.as_slice()),
        Leaders::Drawn(key) => array_is_in_range(key),
    }
}

fn end_is_in_range(end: Option<u64>)
    ensures { IfSome end (λ n. n < 2 ^ 64) }
{
    match end {
        None => {}
        Some(height) => number_is_in_range(height),
    }
}

/// Each number of a configuration is in the range of its type.
pub fn config_is_in_range(config: &Config)
    ensures { ConfigInRange config.now }
{
    weights_are_in_range(config.weights.as_slice());
    number_is_in_range(config.ftt);
    byte_is_in_range(config.levels);
    byte_is_in_range(config.min_exponent);
    byte_is_in_range(config.max_exponent);
    leaders_are_in_range(&config.leaders);
    index_is_in_range(config.max_records);
    index_is_in_range(config.max_parked);
    end_is_in_range(config.end);
}

fn need_is_in_range(need: &Need)
    ensures { NeedInRange need.now }
{
    match need {
        Need::Unit(digest) => digest_is_in_range(digest),
        Need::Evidence(validator) => index_is_in_range(*validator),
        Need::Endorsed(digest) => digest_is_in_range(digest),
    }
}

fn needs_are_in_range(needs: &[Need])
    ensures { All NeedInRange needs.now }
{
    for need in needs {
        need_is_in_range(need);
    }
}

/// Each number of a frame is in the range of its type.
pub fn frame_is_in_range(frame: &Frame)
    ensures { FrameInRange frame.now }
{
    match frame {
        Frame::Hello(instance) => digest_is_in_range(instance),
        Frame::Vertex(vertex) => vertex_is_in_range(vertex),
        Frame::Have(count) => number_is_in_range(*count),
        Frame::Want(needs) => needs_are_in_range(needs.as_slice()),
        Frame::Done => {}
        Frame::Missing(need) => need_is_in_range(need),
    }
}
