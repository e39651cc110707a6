//! Needs as the keys of a table.

ghost use Rattle.std.specs.Prelude.{◌≡◌};
ghost use Rattle.hw_park.specs.Keys.{key_of as key_that};

use hw_types::{Digest, Need};

/// A need as the key of an ordered table.
#[derive(Clone, Copy, PartialEq, Eq, PartialOrd, Ord)]
pub enum NeedKey {
    Unit(Digest),
    Evidence(u32),
    Endorsed(Digest),
}

/// The key of a need.
pub fn key_of(need: &Need) -> NeedKey
    ensures { result ≡ key_that need.now }
{
    match need {
        Need::Unit(digest) => NeedKey::Unit(*digest),
        Need::Evidence(validator) => NeedKey::Evidence(*validator),
        Need::Endorsed(digest) => NeedKey::Endorsed(*digest),
    }
}
