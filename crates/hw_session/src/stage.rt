//! How far a session is that a node drives.

/// How far a node and a peer that it dials have sent each other their journals.
#[derive(Clone, Copy, Debug, PartialEq, Eq)]
pub struct PeerMark {
    /// The place of the own journal up to which it was pushed to the peer.
    pub pushed: u64,
    /// The place of the peer's journal up to which it was pulled, by the peer's last Have.
    pub pulled: u64,
}

/// What a node waits for that drives a session.
#[derive(Clone, Copy, Debug, PartialEq, Eq)]
pub(crate) enum Stage {
    /// The peer's Hello.
    Greeting,
    /// The Want for the vertex that was pushed. This many are to be pushed after it.
    Pushing(u64),
    /// Vertices up to a Have, which may be asked for this many more times.
    Pulling(u64),
    /// Vertices and Missing up to a Have.
    Wanting,
    /// The peer's Done.
    Leaving,
}

/// The place after a frame, and what is waited for then.
#[derive(Clone, Copy, Debug, PartialEq, Eq)]
pub(crate) struct Onward {
    pub(crate) place: u64,
    pub(crate) stage: Stage,
}
