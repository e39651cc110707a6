//! What the eras of two nodes say of each other.
//!
//! The eras that both nodes have are audited one after the other, up to the first that doesn't agree. Where
//! all agree, the chain of the one node over all its eras begins that of the other. Where one doesn't, the two
//! nodes have one configuration in it, and the culprits weigh more than its threshold.

ghost use Rattle.std.specs.Prelude.{◌≡◌, ◌≢◌, ◌↔◌, Err, IfOk};
ghost use Rattle.hw_types.specs.Real.{setting_of};
ghost use Rattle.hw_audit.specs.{Audit.{IsVerdictOn}, First.{ShowsFirstClash}};
ghost use Rattle.hw_audit.specs.declared.nodes.AuditError.TheVariants as AuditErrors;
ghost use Rattle.hw_eras.specs.EraAudit.{AreOfDifferent, IsVerdictOnEras, IsVerdictByEras, IsAccounted, IsShort};

use crate::{EraVerdict, Eras};
use hw_audit::{AuditError, Verdict, audit};
use hw_core::Core;
use std::alloc::Global;

/// What the eras of two nodes say of each other, which begin with one configuration.
///
/// The first era that both have in which they don't agree is named, with its verdict. Otherwise they agree, and
/// `common` is in how many blocks of all eras that both have.
///
/// Instances is answered exactly where the configurations of era 0 differ.
pub fn audit_eras(alloc: Global, left: &Eras, right: &Eras) -> Result<EraVerdict, AuditError>
    ensures instances { AreOfDifferent left.now right.now ↔ (result ≡ Err AuditErrors.Instances) }
    ensures verdict { IfOk result (IsVerdictOnEras left.now right.now) }
    ensures by_eras { IfOk result (IsVerdictByEras left.now right.now) }

    // One chain over all eras begins the other, or the culprits weigh more than their era's threshold.
    ensures accounted { IfOk result (IsAccounted left.now right.now) }
{
    let mut common: u64 = 0;
    for era in 0..left.count().min(right.count()) {
        let (Some(first), Some(second)) = (left.core(era), right.core(era)) else {
            // Both nodes have the era.
            unreachable!()
        };
        let verdict = audit_era(alloc, first, second)?;
        match verdict {
            Verdict::Agree { common: here } => common += here,
            verdict => return Ok(EraVerdict::At { era, verdict }),
        }
    }
    Ok(EraVerdict::Agree { common })
}

/// The verdict on one era. There are no more blocks than a node may have units.
fn audit_era(alloc: Global, left: &Core, right: &Core) -> Result<Verdict, AuditError>
    ensures instances { (left.now.config ≢ right.now.config) ↔ (result ≡ Err AuditErrors.Instances) }
    ensures verdict { IfOk result (λ verdict. IsVerdictOn left.now right.now verdict) }
    ensures first { IfOk result (λ verdict. ShowsFirstClash (setting_of left.now.config) left.now.journal right.now.journal verdict) }
    ensures short { IfOk result IsShort }
{
    // For the prover: no more blocks are decided than units are settled.
    let _count = left.settled_count();
    audit(alloc, left, right)
}
