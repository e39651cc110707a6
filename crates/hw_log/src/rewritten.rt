//! How much of a log is whole, and what is written of it.

use hw_types::Bytes;

/// The whole entries of a log.
#[derive(Clone, Copy)]
pub struct WholeEntries {
    /// How many they are.
    pub count: u64,
    /// Where the torn entry behind them begins, None where there is none.
    pub torn_at: Option<u64>,
}

/// A log written anew.
#[derive(Drop)]
pub struct Rewritten {
    /// How many entries it has.
    pub count: u64,
    pub bytes: Bytes,
}
