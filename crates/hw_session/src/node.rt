//! A node, and what it reports of itself.

ghost use Rattle.std.specs.{Prelude.{◌≡◌}, Option.{option_copied, option_map}};

use hw_core::Core;
use hw_keys::Keys;
use hw_log::Lasts;
use hw_types::Bytes;
use std::alloc::Global;
use std::marker::Model;

/// Two different units of one digest, as they are spelled.
#[derive(Drop)]
pub struct ClashUnits {
    /// The one that was known.
    pub known: Bytes,
    /// The one that came.
    pub other: Bytes,
}

/// A node with its log. Contracts see what it received, its keys, the name of its log and the last units
/// there, its three counts, and the last clash.
#[derive(Drop)]
pub struct Node {
    pub(crate) alloc: Global,
    pub(crate) core: Core,
    pub(crate) keys: Keys,
    /// The name of the log.
    pub(crate) log: String,
    /// The last unit of each validator in the log.
    pub(crate) lasts: Lasts,
    pub(crate) refused: u64,
    pub(crate) repeats: u64,
    pub(crate) limited: u64,
    pub(crate) clash: Option<ClashUnits>,
}

impl Model for Node {
    ghost use Rattle.std.specs.Prelude.{string_bytes};
    ghost use Rattle.hw_session.specs.Node.{NodeState, IsKeptWith};

    ghost Value = { NodeState };

    ghost view = { λ n. record {
      core = n.core;
      keys = n.keys;
      log = string_bytes n.log;
      lasts = n.lasts;
      refused = n.refused;
      repeats = n.repeats;
      limited = n.limited;
      clash = n.clash;
    } };

    ghost invariant = { λ n. IsKeptWith n.core n.keys };
}

impl Node {
    /// What it received, and all that follows from it.
    pub fn core(&self) -> &Core
        ensures { result.now ≡ self.now.core }
    {
        &self.core
    }

    /// How many vertices of peers and own units it refused for a limit: the length of the journal, or the
    /// number of parked units.
    pub fn limit_hits(&self) -> u64
        ensures { result ≡ self.now.limited }
    {
        self.limited
    }

    /// How many entries of the log at the start and vertices of peers since then were refused.
    pub fn refused_count(&self) -> u64
        ensures { result ≡ self.now.refused }
    {
        self.refused
    }

    /// How many entries of the log at the start and vertices of peers since then came again.
    pub fn repeat_count(&self) -> u64
        ensures { result ≡ self.now.repeats }
    {
        self.repeats
    }

    /// The spelling of the known unit of the last clash with a peer's vertex, None where there was none. Of
    /// an evidence whose own two units clash it is the left one.
    pub fn clash_known(&self) -> Option<&Bytes>
        ensures { option_copied result ≡ option_map (λ c. c.known) self.now.clash }
    {
        Some(&self.clash.as_ref()?.known)
    }

    /// The spelling of the unit that came in the last clash with a peer's vertex, None where there was none.
    pub fn clash_other(&self) -> Option<&Bytes>
        ensures { option_copied result ≡ option_map (λ c. c.other) self.now.clash }
    {
        Some(&self.clash.as_ref()?.other)
    }
}
