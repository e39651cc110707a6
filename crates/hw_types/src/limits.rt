//! The limits of the formats, and what a configuration has where its text doesn't say. A configuration's limits are
//! beside it.

/// The most bytes of a block's value.
pub const MAX_VALUE: usize = 4_096;

/// The most digests that a unit endorses, and the most needs that a frame wants.
pub const MAX_LIST: usize = 256;

/// The most bytes of an entry of a log, of a frame, and of a part of a certificate.
pub const MAX_LENGTH: usize = 1_048_576;

/// Times are below this number of milliseconds.
pub const END_OF_TIME: u64 = 1 << 63;

/// How long a journal may be where a script or a file of settings doesn't say.
pub const USUAL_RECORDS: u32 = 131_072;

/// How many units may wait at a time where a script or a file of settings doesn't say.
pub const USUAL_PARKED: u32 = 4_096;
