//! One consumer and the blocks that it hasn't taken.

ghost use Rattle.std.specs.Prelude.{◌≡◌, ℕ, ◌≤◌, length};
ghost use Rattle.hw_replay.specs.{Fates.{seen, ending_of}, Chain.{told_chain}, Told.{IsTold}};

use crate::chain::{block_at, chain_length};
use crate::ending::Ending;
use crate::one::give;
use hw_core::Core;
use hw_io::Consumer;

/// Gives a consumer the decided blocks from this place on, until it fails.
pub(crate) fn tell(consumer: &mut Box<dyn Consumer>, core: &Core, from: u64) -> Result<(), Ending>
    requires { from ≤ length (told_chain core.now) }
    ensures { (place : ℕ) → IsTold (seen (λ b. consumed b) (λ b. faults b) (λ b. wants b) (λ b. b.vtable)) (told_chain core.now) from (record { place = place; before = consumer.old; after = consumer.new; ended = ending_of result }) }
{
    for index in from..chain_length(core) {
        let (height, value) = block_at(core, index);
        give(consumer, height, value)?;
    }
    Ok(())
}
