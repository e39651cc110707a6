//! A node with its log takes the vertices of a node that it meets.
//!
//! A vertex gets the verdict of the node's keys. An accepted one is appended to the journal, and then its entry to the
//! log, as in any session of the node.

ghost use Rattle.std.specs.Prelude.{◌≡◌, ◌⊎◌, false, All};
ghost use Rattle.hw_io.specs.Faults.{raised};
ghost use Rattle.hw_keys.specs.Signed.{verdict_of};
ghost use Rattle.hw_meeting_node.specs.Meeting.{met_said};
ghost use Rattle.hw_meeting_node.specs.Sessions.{CallsPeer, HostsPeer, MeetsNone, IsLinkEnd, IsTakerEnd};
ghost use Rattle.hw_meeting_node.specs.declared.meeter.Side.TheVariants as side;
ghost use Rattle.hw_service.specs.{Talk.{talker}, Meets.{NodeCalls, NodeHosts}};
ghost use Rattle.hw_link.specs.{Asked.{IsPrompt}, Told.{door_told}};

use crate::taker::NodeTaker;
use hw_io::{Door, Files};
use hw_meeting_node::{MeetEnd, host_one, meet_one};
use hw_session::Node;
use std::alloc::Global;

/// Dials the node at this address and meets it, as `meet_one` does.
///
/// The node takes each vertex of the peer as in any session. An accepted one is appended to the journal, and then its
/// entry to the log. A repeat, a refused one and one that met a limit are counted, and a clash is kept. After the
/// meeting node and log are as the vertices of the frames read leave them, one after the other. After `AppendFault`
/// the last one is in the journal alone, and after `OutOfMemory` it may be.
pub fn meet_node<D: Door, F: Files>(
    alloc: Global,
    node: &mut Node,
    files: &mut F,
    address: &str,
    door: &mut D,
) -> MeetEnd
    ensures met { CallsPeer address.now node.old.core (verdict_of node.old.keys) node.new.core (door_told (D.sessions door.old) (D.ends door.old)) (door_told (D.sessions door.new) (D.ends door.new)) result
        ⊎ MeetsNone node.old.core node.new.core (D.sessions door.old) (D.sessions door.new) result }
    ensures node { NodeCalls address.now F.tells (talker F.Files D.Door node.old files.old door.old) (talker F.Files D.Door node.new files.new door.new) result }
    ensures prompt { All (IsPrompt (met_said side.Caller node.old.core (verdict_of node.old.keys))) (D.asks door.new) }
    ensures link { IsLinkEnd (D.faults door.old) (D.faults door.new) result }
    ensures appends { IsTakerEnd (F.append_faults files.old) (F.append_faults files.new) result }

    ensures config { node.new.core.config ≡ node.old.core.config }
    ensures closed { D.is_open door.new ≡ false }
    ensures dials { D.dials door.new ≡ raised (D.dials door.old) }
    ensures accepts { D.accepts door.new ≡ D.accepts door.old }
    ensures begun { F.begun files.new ≡ F.begun files.old }
    ensures allowance { F.allowance files.new ≡ F.allowance files.old }
    ensures reads { F.read_faults files.new ≡ F.read_faults files.old }
{
    let mut taker = NodeTaker { node, files };
    meet_one(alloc, &mut taker, address, door)
}

/// Takes a node that dials and meets it, as `host_one` does. The rest is as in `meet_node`.
pub fn host_node<D: Door, F: Files>(
    alloc: Global,
    node: &mut Node,
    files: &mut F,
    door: &mut D,
) -> MeetEnd
    ensures met { HostsPeer node.old.core (verdict_of node.old.keys) node.new.core (door_told (D.sessions door.old) (D.ends door.old)) (door_told (D.sessions door.new) (D.ends door.new)) result
        ⊎ MeetsNone node.old.core node.new.core (D.sessions door.old) (D.sessions door.new) result }
    ensures node { NodeHosts F.tells (talker F.Files D.Door node.old files.old door.old) (talker F.Files D.Door node.new files.new door.new) result }
    ensures prompt { All (IsPrompt (met_said side.Host node.old.core (verdict_of node.old.keys))) (D.asks door.new) }
    ensures link { IsLinkEnd (D.faults door.old) (D.faults door.new) result }
    ensures appends { IsTakerEnd (F.append_faults files.old) (F.append_faults files.new) result }

    ensures config { node.new.core.config ≡ node.old.core.config }
    ensures closed { D.is_open door.new ≡ false }
    ensures accepts { D.accepts door.new ≡ raised (D.accepts door.old) }
    ensures dials { D.dials door.new ≡ D.dials door.old }
    ensures begun { F.begun files.new ≡ F.begun files.old }
    ensures allowance { F.allowance files.new ≡ F.allowance files.old }
    ensures reads { F.read_faults files.new ≡ F.read_faults files.old }
{
    let mut taker = NodeTaker { node, files };
    host_one(alloc, &mut taker, door)
}
