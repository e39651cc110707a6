//! The quorum of each level.

ghost use Rattle.std.specs.Prelude.{◌≡◌, None, IfOk};
ghost use Rattle.hw_types.specs.Limits.{config_fault};
ghost use Rattle.hw_horizon.specs.Detected.{AreQuorums};

use hw_types::{Config, OutOfMemory, quorum};
use std::alloc::Global;

/// The quorum of each level from 1 on, of a lawful configuration.
pub(crate) fn quorums_of(alloc: Global, config: &Config) -> Result<Vec<u64>, OutOfMemory>
    requires { config_fault config.now ≡ None }
    ensures { IfOk result (λ quorums. AreQuorums config.now quorums.items) }
{
    let total = config.total();
    let mut quorums = Vec::with_capacity(alloc, usize::from(config.levels))?;
    for below in 0..u32::from(config.levels) {
        quorums.push(quorum(total, config.ftt, below + 1))?;
    }
    Ok(quorums)
}
