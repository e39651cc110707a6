//! What was seen of a validator's units so far.

/// What was seen of a validator's units so far.
#[derive(Clone, Copy, Debug, PartialEq, Eq)]
pub(crate) enum Mark {
    /// None.
    Unseen,
    /// Some, all on one lane.
    Whole,
    /// One that isn't on that lane.
    Broken,
}
