//! Why a node can't make a unit, or accept a vertex.

ghost use Rattle.std.specs.Prelude.{◌≡◌};
ghost use Rattle.hw_session.specs.declared.fault.MakeFault.TheVariants as fault;
ghost use Rattle.hw_session.specs.declared.fault.AcceptFault.TheVariants as accept;

use hw_types::{Cause, OutOfMemory};

/// Why a node can't make a unit.
#[derive(Clone, Copy, Debug, PartialEq, Eq)]
pub enum MakeFault {
    /// The append to the log failed. The unit is in the journal, and the log holds a first part of its
    /// entry: the node has to be given up.
    AppendFault,
    /// The journal is as long as it may be.
    RecordsFull,
    /// Out of memory. Where that was in the append, the same holds as after `AppendFault`.
    OutOfMemory,
}

impl From<OutOfMemory> for MakeFault {
    ghost from_gives = { λ _ e. e ≡ fault.OutOfMemory };

    fn from(_error: OutOfMemory) -> MakeFault {
        MakeFault::OutOfMemory
    }
}

/// Why a node doesn't accept a peer's vertex.
#[derive(Clone, Copy, Debug, PartialEq, Eq)]
pub enum AcceptFault {
    /// The node refuses it with this cause, which is never `OutOfMemory`.
    Refused(Cause),
    /// The append to the log failed. The vertex is in the journal, and the log holds a first part of its
    /// entry: the node has to be given up.
    AppendFault,
    /// Out of memory. Where that was in the append, the same holds as after `AppendFault`.
    OutOfMemory,
}

impl From<OutOfMemory> for AcceptFault {
    ghost from_gives = { λ _ e. e ≡ accept.OutOfMemory };

    fn from(_error: OutOfMemory) -> AcceptFault {
        AcceptFault::OutOfMemory
    }
}
