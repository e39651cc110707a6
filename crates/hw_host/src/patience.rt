//! How long a peer is waited for.
ghost use Rattle.std.specs.Prelude.{◌≡◌, ◌⊎◌, ◌+◌, ◌*◌, ◌/◌, ◌<◌, ◌≤◌, min, IfSome, IsNone, IsTrue, ◌↔◌};
ghost use Rattle.hw_host.specs.Patience.{answered_time, earned_time, unbounded_time};

/// No read and no write waits longer for a peer, and no dial for an address of one. A peer that works
/// answers in milliseconds; in five seconds the sixteen validators of a hub are served on a busy machine.
const WAIT_MILLISECONDS: u64 = 5_000;

/// A session may take this long, however little it moves: two waits.
const SESSION_MILLISECONDS: u64 = 10_000;

/// A session with a peer that a validator dialled may take this long, however much it moves: others are dialled after
/// it. A peer that has more to say goes on in its next session.
const DIALLED_MILLISECONDS: u64 = 20_000;

/// A session with a stranger may take this long, while others are known.
const STRANGER_MILLISECONDS: u64 = 2_000;

/// For how long the node is blocked at first on a stranger, and for how much longer by each of its answers. Those of
/// an honest one come from the other side of the earth in 300 milliseconds, and most in 200.
const STRANGER_STEP_MILLISECONDS: u64 = 200;

/// A session may take a second more for each 65,536 bytes that went either way. Links that are slower than
/// 64 KB a second keep up with no network.
const BYTES_A_SECOND: u64 = 65_536;

/// A peer that hung the last time that it was dialled is given a tenth of each time.
const HUNG_SHARE: u64 = 10;

/// For how long in all the node is blocked on a peer that came, while others wait. A session of few units has some
/// six answers, so a peer that answers in 300 milliseconds ends it; one with more units goes on in its next session.
const GUEST_MILLISECONDS: u64 = 2_000;

/// For how long the node is blocked at first on a peer whose address is suspect, and for how much longer by each of
/// its answers. An honest peer that shares the address answers in a millisecond on the same machine, and in 20 on
/// a busy one; and who comes each time to hang delays the others by no more.
const SUSPECT_MILLISECONDS: u64 = 20;

/// A peer that came and answers as fast as this doesn't hang: the other side of the earth answers in 300.
const ANSWER_MILLISECONDS: u64 = 500;

/// How much time a peer is given.
#[derive(Clone, Copy, Debug, PartialEq, Eq)]
pub(crate) enum Patience {
    /// All of it, for a peer that a validator dialled.
    Full,
    /// A tenth, since the peer hung the last time that it was dialled.
    Tenth,
    /// That of a peer that came.
    Guest,
    /// That of a peer that came from an address of which one hung.
    Suspect,
    /// That of a peer that came from where no vertex came that the node hadn't.
    Stranger,
    /// That of a peer in a meeting, in which each takes all that the other has: it is let speak as long as it does.
    Meeting,
}

/// How far a session is.
#[derive(Clone, Copy, Debug, PartialEq, Eq)]
pub(crate) struct Progress {
    /// How many milliseconds it has taken.
    pub(crate) taken: u64,
    /// For how many of them the node was blocked on the peer.
    pub(crate) blocked: u64,
    /// How many bytes went either way.
    pub(crate) moved: u64,
    /// How often the peer answered what was sent to it.
    pub(crate) answers: u32,
}

impl Patience {
    ghost use Rattle.hw_host.specs.Patience.{share_of, session_time, blocked_time};

    /// How many milliseconds a read, a write or a dial waits at most.
    pub(crate) fn wait(self) -> u64
        ensures { result ≡ 5000 / share_of self }
    {
        WAIT_MILLISECONDS / self.share()
    }

    /// How many milliseconds a session may take in which `moved` bytes went either way.
    fn session(self, moved: u64) -> u64
        ensures { result ≡ session_time self moved }
    {
        match self {
            Patience::Full | Patience::Tenth => {
                unbounded(moved).min(DIALLED_MILLISECONDS) / self.share()
            }
            Patience::Guest | Patience::Suspect | Patience::Meeting => unbounded(moved),
            Patience::Stranger => STRANGER_MILLISECONDS,
        }
    }

    /// For how many milliseconds in all the node may be blocked on the peer of such a session.
    fn blocked(self, answers: u32, moved: u64) -> u64
        ensures { result ≡ blocked_time self answers moved }
    {
        match self {
            Patience::Full | Patience::Tenth | Patience::Meeting => self.session(moved),
            Patience::Guest => GUEST_MILLISECONDS,
            Patience::Suspect => by_answers(SUSPECT_MILLISECONDS, answers),
            Patience::Stranger => by_answers(STRANGER_STEP_MILLISECONDS, answers),
        }
    }

    /// How many milliseconds the next read or write may wait in a session with this progress, or none where its time
    /// is up.
    pub(crate) fn next_wait(self, session: Progress) -> Option<u64>
        ensures up { IsNone result ↔ ((session_time self session.moved ≤ session.taken)
            ⊎ (blocked_time self session.answers session.moved ≤ session.blocked)) }
        ensures left { IfSome result (λ wait. (0 < wait) × (session.taken + wait ≤ session_time self session.moved)) }
        ensures blocked { IfSome result (λ wait.
            session.blocked + wait ≤ blocked_time self session.answers session.moved) }
        ensures most { IfSome result (λ wait. wait ≤ 5000 / share_of self) }
    {
        let left = left_of(self.session(session.moved), session.taken)?;
        let allowed = self.blocked(session.answers, session.moved);
        let wait = left_of(allowed, session.blocked)?;
        Some(left.min(wait).min(self.wait()))
    }

    /// By what each time is divided.
    fn share(self) -> u64
        ensures value { result ≡ share_of self }
        ensures some { 0 < result }
    {
        match self {
            Patience::Tenth => HUNG_SHARE,
            Patience::Full
            | Patience::Guest
            | Patience::Suspect
            | Patience::Stranger
            | Patience::Meeting => 1,
        }
    }
}

/// How many milliseconds a session may take in which `moved` bytes went either way, if nothing else bounds it.
fn unbounded(moved: u64) -> u64
    ensures { result ≡ unbounded_time moved }
{
    SESSION_MILLISECONDS + moved / BYTES_A_SECOND * 1_000
}

/// A step of milliseconds, and one more for each answer, up to what a guest is given.
fn by_answers(step: u64, answers: u32) -> u64
    requires { step ≤ 1000 }
    ensures { result ≡ answered_time step answers }
{
    (step * (1 + u64::from(answers))).min(GUEST_MILLISECONDS)
}

/// What is left of a time, or none where it is up.
fn left_of(time: u64, taken: u64) -> Option<u64>
    ensures up { IsNone result ↔ (time ≤ taken) }
    ensures left { IfSome result (λ left. (0 < left) × (taken + left ≡ time)) }
{
    match time.checked_sub(taken) {
        None | Some(0) => None,
        Some(left) => Some(left),
    }
}

/// Whether a peer that came hung: the node was blocked on it for more milliseconds than it earned by its answers and
/// by the bytes that came.
pub(crate) fn has_hung(blocked: u64, answers: u32, received: u64) -> bool
    ensures { IsTrue result ↔ (earned_time answers received < blocked) }
{
    u64::from(answers) * ANSWER_MILLISECONDS + received / BYTES_A_SECOND * 1_000 < blocked
}

/// Whether a session with a peer that was dialled took longer than one of use: a wait, and the time that the peer earned
/// by its answers.
pub(crate) fn has_dragged(taken: u64, answers: u32) -> bool
    ensures { IsTrue result ↔ (5000 + earned_time answers 0 < taken) }
{
    WAIT_MILLISECONDS + u64::from(answers) * ANSWER_MILLISECONDS < taken
}
