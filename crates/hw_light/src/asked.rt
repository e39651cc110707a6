//! What is asked of light certificates by block and by keys, and what is printed of the answers.
//!
//! | Answer | Line |
//! |---|---|
//! | a certificate of N vertices was made | `certified N` |
//! | no decision has the block | `no decision` |
//! | the faulty weigh too much, or the block has no summit | `no standing` |
//! | a certificate would have C vertices, too many | `no length C` |
//! | the block has a summit, and its height is H | `yes HASH height H` |
//! | the configuration breaks a limit | `no config FAULT` |
//! | the vertex numbered I is refused | `no refused I` |
//! | the faulty have the weight W | `no exceeded W` |
//!
//! Bytes that are no certificate have a text that names the first error and its place.

ghost use Rattle.std.specs.Prelude.{◌≡◌, IfOk, IfSome, IfNone};
ghost use Rattle.hw_light.specs.{Spelling.{CertificateFits}, Certify.{IsYesFor}, Asked.{IsDecisionOf, HasNoDecision, IsAskedOf, IfAnswered, told_in, told_of}};

use crate::{Certified, certify};
use hw_core::Core;
use hw_types::{Digest, OutOfMemory};
use std::alloc::Global;

/// What is answered where the certificate of a block is asked for.
#[derive(Drop)]
pub enum Asked {
    /// No decided block has this digest.
    NoDecision,
    /// The answer of `certify` at the place of the decided block.
    Answered(Certified),
}

/// The certificate of the decided block of this digest, as [`crate::certify`] answers it, or that no
/// decided block has the digest.
pub fn certify_block(alloc: Global, core: &mut Core, block: &Digest) -> Result<Asked, OutOfMemory>
    ensures answer { IfOk result (IsAskedOf core.old block.now) }

    // So the report on it is worked out from the node: which answer it is, and how many vertices there are.
    ensures told { IfOk result (λ answer. told_in answer ≡ told_of core.old block.now) }

    // A certificate is answered yes where its signatures are right, and it may be spelled.
    ensures yes { IfOk result (IfAnswered IsYesFor) }
    ensures fits { IfOk result (IfAnswered CertificateFits) }
    ensures unchanged { core.new ≡ core.old }
{
    match decision_of(core, block) {
        Some(index) => Ok(Asked::Answered(certify(alloc, core, index)?)),
        None => Ok(Asked::NoDecision),
    }
}

/// The place among the decided blocks of the first one of this digest. None exactly when there is none.
pub fn decision_of(core: &Core, block: &Digest) -> Option<u64>
    ensures found { IfSome result (IsDecisionOf core.now block.now) }
    ensures none { IfNone result (HasNoDecision core.now block.now) }
{
    for index in 0..core.decision_count() {
        if core.decision(index).block == *block {
            return Some(index);
        }
    }
    None
}
