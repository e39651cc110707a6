//! What the definitions answer with: rules, causes, receipts, decisions, culprits and plans.

ghost use Rattle.std.specs.Prelude.{◌≡◌};
ghost use Rattle.hw_types.specs.declared.answers.CodecError.TheVariants as CodecErrors;

use crate::items::{Bytes, NeedList, OutOfMemory};
use crate::unit::{Digest, Need, Vertex, WireUnit};

/// The rules that a unit keeps, in the order in which they are tested. The first eight read the
/// unit and the configuration alone, the others read the units below it too.
#[derive(Clone, Copy, Debug, PartialEq, Eq)]
pub enum Rule {
    /// Its instance isn't that of the configuration.
    WrongInstance,
    /// Its creator is no validator.
    UnknownCreator,
    /// Its panorama hasn't one observation for each validator.
    PanoramaLength,
    /// Its observation of its own creator is Faulty.
    FaultySelf,
    /// That observation is Absent and its number isn't 0, or it is Correct and its number is 0.
    FirstSequence,
    /// Its exponent is outside the configuration's range.
    RoundExponent,
    /// Its endorsed list isn't strictly rising by bytes.
    EndorsedOrder,
    /// It has no value, and cites nothing.
    NoBlock,
    /// A correct observation names a unit of another creator.
    SlotCreator,
    /// Its number isn't one more than that of its creator's cited unit.
    SequenceNumber,
    /// Its panorama isn't consistent.
    Inconsistent,
    /// A cited unit has a greater time.
    TimeGoesBack,
    /// Its exponent isn't that of its creator's cited unit, and it doesn't lie in a later round of the
    /// greater exponent.
    RoundChange,
    /// It is its creator's third unit in its round.
    ThirdInRound,
    /// It has a value, and isn't its round's one block by the round's leader.
    NotLeader,
    /// A cited unit's endorsed list has a digest that its own hasn't.
    EndorsedShrinks,
    /// A digest of its endorsed list is no unit below it.
    EndorsedUnseen,
    /// Two units of one creator, both naive for it, aren't comparable.
    Naive,
    /// It has a value, and stands on the configuration's last block.
    AfterTerminal,
}

/// Why bytes are no spelling. The number is the place of the byte at which the refused field
/// begins, counted from 0.
#[derive(Clone, Copy, Debug, PartialEq, Eq)]
pub enum CodecError {
    /// The field doesn't fit in the bytes that are left.
    Truncated(u64),
    /// The value ended, and this is the first byte behind it.
    Trailing(u64),
    /// A tag, flag, kind or version that has no meaning.
    BadTag(u64),
    /// A count above the limit of its list.
    TooLong(u64),
    /// A number outside its range.
    OutOfRange(u64),
    /// There was no memory.
    OutOfMemory,
}

impl From<OutOfMemory> for CodecError {
    ghost from_gives = { λ _ e. e ≡ CodecErrors.OutOfMemory };

    fn from(_e: OutOfMemory) -> CodecError {
        CodecError::OutOfMemory
    }
}

/// Why two signed units don't show an equivocation. The first that holds is answered.
#[derive(Clone, Copy, Debug, PartialEq, Eq)]
pub enum PairFault {
    /// The creators differ, or are no validators.
    Creator,
    /// The sequence numbers differ.
    Sequence,
    /// One of the two isn't of the configuration's instance.
    Instance,
    /// The two units are equal.
    Same,
}

/// What became of a vertex that was accepted.
#[derive(Clone, Copy, Debug, PartialEq, Eq)]
pub enum Receipt {
    /// It went last in the journal, and so many units settled.
    Admitted { settled: u32 },
    /// It went last in the journal, and waits for so many needs.
    Parked { missing: u32 },
    /// It went last in the journal, and breaks this rule of the units below it.
    Dropped(Rule),
    /// The journal had it already, and nothing changed.
    Repeat,
}

/// Why a vertex was refused.
#[derive(Clone, Copy, Debug, PartialEq, Eq)]
pub enum Cause {
    /// The verdict on its signatures was false.
    BadSignature,
    /// A unit breaks this rule of its own, or the endorser is no validator.
    Local(Rule),
    /// An evidence isn't a pair of one creator's units with one number.
    Pair(PairFault),
    /// Another unit has the same digest, which is `known`.
    Clash { known: Digest },
    /// The journal is as long as it may be.
    RecordsFull,
    /// As many units are parked as may be, and this one would be one more.
    ParkFull,
    /// There was no memory.
    OutOfMemory,
}

/// A final block: when it was decided, and by which summit.
#[derive(Clone, Copy, Debug, PartialEq, Eq)]
pub struct Decision {
    pub block: Digest,
    /// How many blocks lead from it to the root.
    pub height: u64,
    /// The least level that had a summit at that moment.
    pub level: u32,
    /// The weight that a committee of that level needs.
    pub quorum: u64,
    /// How long the journal was then.
    pub at: u64,
}

/// What a node was asked last: whether one of its decided blocks has a summit.
#[derive(Clone, Copy)]
pub struct LastQuestion {
    /// The place of the decided block, from 0.
    pub decision: u64,
    /// How long the journal was then.
    pub at: u64,
}

/// A validator that equivocated, shown by two signed units as they are spelled in a vertex.
#[derive(Drop)]
pub struct Culprit {
    pub validator: u32,
    pub first: Bytes,
    pub second: Bytes,
}

/// What a validator's unit is for.
#[derive(Clone, Copy, Debug, PartialEq, Eq)]
pub enum PlanKind {
    /// The leader's block.
    Propose,
    /// Another validator's answer to it.
    Confirm,
    /// What a validator saw of the round.
    Witness,
}

/// A unit that a validator may make now.
#[derive(Drop)]
pub struct Plan {
    pub kind: PlanKind,
    pub unit: WireUnit,
}

/// What two nodes say to each other.
#[derive(Drop)]
pub enum Frame {
    /// The instance that the sender is of.
    Hello(Digest),
    /// A vertex of the sender's journal.
    Vertex(Vertex),
    /// A place in a journal.
    Have(u64),
    /// What the sender waits for.
    Want(NeedList),
    /// The sender has nothing more to say.
    Done,
    /// The sender hasn't got what was wanted.
    Missing(Need),
}
