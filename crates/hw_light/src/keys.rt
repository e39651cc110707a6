//! The keys of a text.

ghost use Rattle.hw_light.specs.Keys.{ReadsKeys};

use hw_keys::{Keys, KeysFault};
use std::alloc::Global;

/// The keys in the text, one for each validator, as [`Keys::read`] answers them. Which they are, and
/// where the text is wrong, is worked out from its bytes.
#[tactic(auto, using(crate::proofs::KeyLaws::reads_keys))]
pub fn read_keys(alloc: Global, text: &[u8], validators: u32) -> Result<Keys, KeysFault>
    ensures { ReadsKeys validators text.now result }
{
    Keys::read(alloc, text, validators)
}
