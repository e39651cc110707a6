//! The making of a certificate.

ghost use Rattle.std.specs.{Prelude.{◌≡◌, ◌<◌, length, None, Some, slice_get, IfOk}, List.{All}};
ghost use Rattle.hw_types.specs.{Limits.{config_fault}, Spelling.{VertexFits}};
ghost use Rattle.hw_core.specs.{Decided.{decided_in}, Readers.{exceeded_in}};
ghost use Rattle.hw_light.specs.{Spelling.{CertificateFits}, Certify.{IsCertifiedAs, IsCounted, IfMade, IsYesFor}};

use crate::answers::Certified;
use crate::certificate::{Certificate, VertexList};
use crate::extract::vertices_for;
use crate::summit::summit_units;
use hw_core::Core;
use hw_types::{Config, Digest, OutOfMemory};
use std::alloc::Global;

/// The certificate of the decided block of that place, for a reader that needs no other part of the log.
///
/// Its vertices are, in this order: evidence against each validator that one of its units marks as faulty,
/// in rising order; the journal's endorsements of what the units list, in the journal's order; and the
/// units, in the order in which they settled. They are the settled units at or below the latest units of
/// the first committee of the block's greatest summit.
///
/// `NotNow` is answered exactly when the faulty validators weigh more than the threshold or
/// [`Core::summit_now`] is false. `TooLong` is answered, with the number of the vertices, exactly when they are
/// more than a journal may have. The evidence is that of [`hw_needs::evidence_of`].
pub fn certify(alloc: Global, core: &mut Core, index: u64) -> Result<Certified, OutOfMemory>
    requires { index < length (decided_in core.old) }
    // Each answer is given exactly when it is due.
    ensures answer { IfOk result (IsCertifiedAs core.old index) }

    // The certificate is answered yes where its signatures are right.
    ensures yes { IfOk result (IfMade IsYesFor) }

    // It may be spelled.
    ensures fits { IfOk result (IfMade CertificateFits) }
    ensures unchanged { core.new ≡ core.old }
{
    if core.exceeded().is_some() {
        return Ok(Certified::NotNow);
    }
    certify_if_standing(alloc, core, index)
}

/// The certificate of the decided block of that place, if it has a summit now. The faulty don't weigh too much.
fn certify_if_standing(alloc: Global, core: &Core, index: u64) -> Result<Certified, OutOfMemory>
    requires known { index < length (decided_in core.now) }
    requires few_faulty { exceeded_in core.now ≡ None }
    ensures answer { IfOk result (IsCertifiedAs core.now index) }
    ensures yes { IfOk result (IfMade IsYesFor) }
    ensures fits { IfOk result (IfMade CertificateFits) }
{
    let state = core.state();
    let config = state.config();
    let dag = state.dag();
    let decision = core.decision(index);
    let Some(numbers) = summit_units(alloc, core, state, decision, index)? else {
        return Ok(Certified::NotNow);
    };
    let vertices = vertices_for(alloc, core, dag, numbers.as_slice())?;
    counted(config, decision.block, vertices)
}

/// The certificate of these vertices, unless they are too many.
fn counted(config: &Config, block: Digest, vertices: VertexList) -> Result<Certified, OutOfMemory>
    requires lawful { config_fault config.now ≡ None }
    requires fits { All VertexFits vertices }
    ensures counted { IfOk result (IsCounted config.now block vertices) }
    ensures fits { IfOk result (IfMade CertificateFits) }
{
    let count = vertices.len() as u64;
    if count > u64::from(config.max_records) {
        return Ok(Certified::TooLong(count));
    }
    let config = config.copy()?;
    Ok(Certified::Made(Certificate {
        config,
        block,
        vertices,
    }))
}
