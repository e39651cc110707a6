//! Evidence: two units that show that their creator equivocated.
//!
//! It is a pair where the two are different units of one creator, which is a validator, with one
//! sequence number and of this instance. The units are compared whole, field by field, and not by their
//! digests, so that nothing rests on the digests' being different. Signatures don't count.
//!
//! Nothing here takes memory.

ghost use Rattle.std.specs.Prelude.{◌≡◌, IfOk, IfErr, Some, None};
ghost use Rattle.hw_types.specs.Journal.{pair_fault};

pub use hw_types::PairFault;
use hw_types::{Digest, Evidence, is_same_unit};

/// The creator of a pair of units, in an instance with so many validators. Where the two are no pair,
/// the first of these faults is answered:
///
/// - `Creator`: the creators differ, or are no validator's number;
/// - `Sequence`: the sequence numbers differ;
/// - `Instance`: one of the two isn't of this instance;
/// - `Same`: the two units are equal.
pub fn check_pair(evidence: &Evidence, instance: &Digest, validators: u32) -> Result<u32, PairFault>
    ensures pair { IfOk result (λ creator. (pair_fault validators instance.now evidence.now ≡ None) × (creator ≡ evidence.now.left.unit.creator)) }
    ensures fault { IfErr result (λ fault. pair_fault validators instance.now evidence.now ≡ Some fault) }
{
    let left = &evidence.left.unit;
    let right = &evidence.right.unit;
    if left.creator != right.creator || left.creator >= validators {
        return Err(PairFault::Creator);
    }
    if left.seq != right.seq {
        return Err(PairFault::Sequence);
    }
    if left.instance != *instance || right.instance != *instance {
        return Err(PairFault::Instance);
    }
    if is_same_unit(left, right) {
        return Err(PairFault::Same);
    }
    Ok(left.creator)
}
