//! Where consumers failed.

use hw_io::IoFault;

/// Where a consumer failed.
#[derive(Clone, Copy)]
pub struct Ending {
    /// The height of the block that it failed to take, or None where it failed to finish.
    pub height: Option<u64>,
    /// What it answered.
    pub fault: IoFault,
}

/// A consumer that was dropped.
#[derive(Clone, Copy)]
pub struct Dropped {
    /// Its place in the first list: that of all consumers, as if none was dropped.
    pub place: usize,
    pub ending: Ending,
}
