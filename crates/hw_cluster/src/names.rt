//! The names of several units, worked out together.

ghost use Rattle.std.specs.Prelude.{◌≡◌, map, IfOk};
ghost use Rattle.sha2.specs.Sha256.{sha256};
ghost use Rattle.hw_types.specs.Spelling.{unit_bytes};
ghost use Rattle.hw_cluster.specs.Made.{AllUnitsFit};

use hw_codec::encode_unit;
use hw_lanes::Messages;
use hw_types::{OutOfMemory, WireUnit};
use std::alloc::Global;

/// The digests of these units, in their order. Four side by side take about half the time.
pub fn digests_of(alloc: Global, units: &[WireUnit]) -> Result<Vec<[u8; 32]>, OutOfMemory>
    requires { AllUnitsFit units.now }
    ensures { IfOk result (λ digests. digests.items ≡ map (λ unit. sha256 (unit_bytes unit)) units.now) }
{
    Ok(spellings(alloc, units)?.digests()?)
}

/// The spelling of each of these units.
fn spellings(alloc: Global, units: &[WireUnit]) -> Result<Messages, OutOfMemory>
    requires { AllUnitsFit units.now }
    ensures { IfOk result (λ spellings. spellings ≡ map unit_bytes units.now) }
{
    let mut spellings = Messages::new(alloc);
    for unit in units {
        let spelling = encode_unit(alloc, unit)?;
        spellings.push(spelling.as_slice())?;
    }
    Ok(spellings)
}
