//! Audits of two nodes.

ghost use Rattle.std.specs.Prelude.{◌≡◌, length};
ghost use Rattle.hw_c.specs.Audits.{audited_of, IsAudit};

use crate::codes::Fault;
use crate::put::WithBytes;
use hw_audit::{AuditError, Verdict, audit, audit_text};
use hw_core::Core;
use std::alloc::Global;

/// What an audit of two nodes found, and how many bytes its text has.
#[repr(C)]
#[derive(Clone, Copy)]
pub struct Audited {
    pub kind: u32,
    pub length: u64,
    pub height: u64,
    pub culprits: u64,
    pub weight: u64,
    pub left: [u8; 32],
    pub right: [u8; 32],
}

fn audited_of(verdict: &Verdict, length: u64) -> Audited
    ensures { result ≡ audited_of verdict.now length }
{
    let mut audited = Audited {
        kind: 0,
        length,
        height: 0,
        culprits: 0,
        weight: 0,
        left: [0; 32],
        right: [0; 32],
    };
    match verdict {
        Verdict::Agree { common } => audited.height = *common,
        Verdict::Conflict {
            height,
            left,
            right,
            culprits,
            weight,
        } => {
            audited.kind = 1;
            audited.height = *height;
            audited.culprits = culprits.len() as u64;
            audited.weight = *weight;
            let left = left.0;
            let right = right.0;
            audited.left = left;
            audited.right = right;
        }
        Verdict::Clash { .. } => audited.kind = 2,
    }
    audited
}

/// Audits the journals of two nodes against each other. `OtherInstance` where their configurations differ.
pub fn audit_of(alloc: Global, left: &Core, right: &Core) -> Result<WithBytes<Audited>, Fault>
    ensures { IsAudit left.now right.now result }
{
    let verdict = match audit(alloc, left, right) {
        Ok(verdict) => verdict,
        Err(AuditError::Instances) => return Err(Fault::OtherInstance),
        Err(AuditError::OutOfMemory) => return Err(Fault::OutOfMemory),
    };
    let text = audit_text(alloc, &verdict, left.state().config())?;
    Ok(WithBytes {
        value: audited_of(&verdict, text.len() as u64),
        bytes: text,
    })
}
