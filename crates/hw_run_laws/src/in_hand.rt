//! The laws of nodes in hand. Each makes the call and recalls what holds of the node. So it asks only what its caller
//! can show. Beside the law is the call's own promise, so the answer is that of the call.

ghost use Rattle.std.specs.Prelude.{◌≡◌, ◌⊎◌, ◌<◌, ◌≤◌, ◌^◌, ℕ, None, Some, length, IsTrue, IfOk, IfErr, IfSome};
ghost use Rattle.hw_types.specs.{Limits.{config_fault}, Real.{setting_of, received_in}, Spelling.{VertexFits}, Step.{step}};
ghost use Rattle.hw_io.specs.{Faults.{raised}, Files.{Appended}};
ghost use Rattle.hw_log.specs.{Log.{header_bytes}, Rewritten.{mended_of}, RewriteCauses.{IsOutside, IsWhy}};
ghost use Rattle.hw_link.specs.Told.{door_told};
ghost use Rattle.hw_session.specs.{Accept.{Accepts, WritesAccepted}, Drives.{DrivesPeer, DrivesNone}, Make.{planned_by, Makes, WritesOwn}};
ghost use Rattle.hw_session.specs.{Node.{new_node, IsSound}, Sessions.{ServesPeer, ServesNone}, Standing.{Standing, standing, driver_standing}};
ghost use Rattle.hw_session.specs.Start.{IsUnwritten, Starts, StartsLog, HasStartCause, HasAppendedCause};
ghost use Rattle.hw_meeting_node.specs.declared.meeter.Side.TheVariants as side;
ghost use Rattle.hw_meeting_node.specs.Sessions.{CallsPeer, HostsPeer, MeetsNone};
ghost use Rattle.hw_service.specs.{Meets.{NodeCalls, NodeHosts}, Talk.{talker}};
ghost use Rattle.hw_run_laws.specs.Calls.{Attempt, IsFairVertex, IsMade, IsReady};
ghost use Rattle.hw_run_laws.specs.InHand.{MayTake, StaysOnLine, StartsMended, IsFairTold, IsFairDialled, IsFairMeeting, AreCrossed, Agree, AreDone};
ghost use Rattle.hw_run_laws.specs.InHand.{RestsOnLine, QuietIsFair, QuietDialIsFair, QuietMeetingIsFair, CrossedAreThere};
ghost use Rattle.hw_run_laws.specs.Restart.{IsJudged, IsLogged, IsMetLogged};

use hw_core::Core;
use hw_io::{Door, Files};
use hw_link::SessionEnd;
use hw_log::{RewriteFault, mend};
use hw_meeting_node::{MeetEnd, Taker, host_one, meet_one};
use hw_service::{host_node, meet_node};
use hw_session::{AcceptFault, Keys, MakeFault, Node, PeerMark, StartFault, recall_core};
use hw_types::{Config, OutOfMemory, Plan, Receipt, Vertex};
use hw_validator::next_unit;
use std::alloc::Global;

/// The unit that the validator may make now, by the state of a core. Below the limit of records that core takes it, or
/// has another unit of its digest: `plan_is_admitted` (hw_honest) of a plan in hand.
pub fn a_planned_unit_may_be_taken(
    alloc: Global,
    core: &Core,
    me: u32,
    now: u64,
    value: &[u8],
) -> Result<Option<Plan>, OutOfMemory>
    requires me { me < length core.now.config.weights }
    requires now { now < 2 ^ 63 }
    requires value { length value.now ≤ 4096 }
    ensures planned { IfOk result (λ made. made ≡ step (setting_of core.now.config) (received_in core.now) me now value.now) }
    ensures taken { IfOk result (λ made. IfSome made (MayTake core.now)) }
{
    next_unit(alloc, core.state(), me, now, value)
}

/// A new node whose log wasn't there is as a law on its calls asks for. Its own units are on one line, whichever
/// validator's it is. Its log is that of its journal.
pub fn a_new_node_is_ready<F: Files>(
    alloc: Global,
    files: &mut F,
    log: &str,
    config: Config,
    keys: Keys,
) -> Result<Node, StartFault>
    requires lawful { config_fault config ≡ None }
    requires keys { length keys ≡ length config.weights }
    ensures node { IfOk result (λ node. node ≡ new_node config keys log.now) }
    ensures error { IfErr result IsUnwritten }
    ensures log { IsTrue F.tells → Appended (F.held files.old) (F.held files.new) log.now (header_bytes 2 config) result }
    ensures cause { HasAppendedCause (F.append_faults files.old) (F.append_faults files.new) result }
    ensures ready { IsTrue F.tells → F.held files.old log.now ≡ None → (me : ℕ) → IfOk result (λ node. IsReady me (standing node (F.held files.new))) }
{
    let node = Node::begin(alloc, files, log, config, keys)?;
    node.recall();
    Ok(node)
}

/// A `make` of a node that is ready leaves it ready: `calls_keep_one_line` of a node in hand.
pub fn a_make_keeps_one_line<F: Files>(
    node: &mut Node,
    files: &mut F,
    me: u32,
    now: u64,
    value: &[u8],
) -> Result<Option<Plan>, MakeFault>
    requires me { me < length node.old.core.config.weights }
    requires now { now < 2 ^ 63 }
    requires value { length value.now ≤ 4096 }
    ensures made { Makes node.old (planned_by node.old me now value.now) node.new result }
    ensures log { IsTrue F.tells → WritesOwn node.old (planned_by node.old me now value.now) node.new (F.held files.old) (F.held files.new) result }
    ensures line { IsTrue F.tells → IsReady me (standing node.old (F.held files.old)) → IsMade result
        → StaysOnLine me (standing node.old (F.held files.old)) (standing node.new (F.held files.new)) }
{
    node.recall();
    let made = node.make(files, me, now, value);
    node.recall();
    made
}

/// An `accept` of a node that is ready, of a vertex that brings no new unit by the validator, leaves it ready.
pub fn an_accept_keeps_one_line<F: Files>(
    node: &mut Node,
    files: &mut F,
    vertex: Vertex,
) -> Result<Receipt, AcceptFault>
    requires fits { VertexFits vertex }
    ensures accepted { Accepts node.old vertex node.new result }
    ensures log { IsTrue F.tells → WritesAccepted node.old vertex node.new (F.held files.old) (F.held files.new) result }
    ensures line { IsTrue F.tells → (me : ℕ) → me < length node.old.core.config.weights → IsReady me (standing node.old (F.held files.old))
        → IsFairVertex me node.old vertex → IsJudged result
        → StaysOnLine me (standing node.old (F.held files.old)) (standing node.new (F.held files.new)) }
{
    node.recall();
    let receipt = node.accept(files, vertex);
    node.recall();
    receipt
}

/// A session that a node serves which is ready, with a peer that brings no new unit by the validator, leaves it ready.
pub fn a_session_keeps_one_line<D: Door, F: Files>(
    node: &mut Node,
    door: &mut D,
    files: &mut F,
) -> SessionEnd
    ensures served { ServesPeer F.tells (standing node.old (F.held files.old)) (standing node.new (F.held files.new)) (door_told (D.sessions door.old) (D.ends door.old)) (door_told (D.sessions door.new) (D.ends door.new)) result
        ⊎ ServesNone F.tells (standing node.old (F.held files.old)) (standing node.new (F.held files.new)) (D.sessions door.old) (D.sessions door.new) result }
    ensures accepts { D.accepts door.new ≡ raised (D.accepts door.old) }
    ensures line { IsTrue F.tells → (me : ℕ) → me < length node.old.core.config.weights → IsReady me (standing node.old (F.held files.old))
        → IsFairTold me node.old (D.sessions door.old) (D.sessions door.new) result → IsLogged result
        → StaysOnLine me (standing node.old (F.held files.old)) (standing node.new (F.held files.new)) }
{
    node.recall();
    let end = node.serve_one(door, files);
    node.recall();
    end
}

/// So does a session that it drives with the peer of this address.
pub fn a_driven_session_keeps_one_line<D: Door, F: Files>(
    node: &mut Node,
    mark: &mut PeerMark,
    address: &str,
    door: &mut D,
    files: &mut F,
) -> SessionEnd
    ensures driven { DrivesPeer F.tells address.now (driver_standing node.old mark.old (F.held files.old)) (driver_standing node.new mark.new (F.held files.new)) (door_told (D.sessions door.old) (D.ends door.old)) (door_told (D.sessions door.new) (D.ends door.new)) result
        ⊎ DrivesNone F.tells (driver_standing node.old mark.old (F.held files.old)) (driver_standing node.new mark.new (F.held files.new)) (D.sessions door.old) (D.sessions door.new) result }
    ensures dials { D.dials door.new ≡ raised (D.dials door.old) }
    ensures line { IsTrue F.tells → (me : ℕ) → me < length node.old.core.config.weights → IsReady me (standing node.old (F.held files.old))
        → IsFairDialled me node.old mark.old address.now (D.sessions door.old) (D.sessions door.new) result → IsLogged result
        → StaysOnLine me (standing node.old (F.held files.old)) (standing node.new (F.held files.new)) }
{
    node.recall();
    let end = node.drive_one(mark, address, door, files);
    node.recall();
    end
}

/// So does a meeting with the node of this address,
pub fn a_meeting_keeps_one_line<D: Door, F: Files>(
    alloc: Global,
    node: &mut Node,
    files: &mut F,
    address: &str,
    door: &mut D,
) -> MeetEnd
    ensures met { NodeCalls address.now F.tells (talker F.Files D.Door node.old files.old door.old) (talker F.Files D.Door node.new files.new door.new) result }
    ensures dials { D.dials door.new ≡ raised (D.dials door.old) }
    ensures line { IsTrue F.tells → (me : ℕ) → me < length node.old.core.config.weights → IsReady me (standing node.old (F.held files.old))
        → IsFairMeeting me side.Caller (Some address.now) node.old (D.sessions door.old) (D.sessions door.new) result → IsMetLogged result
        → StaysOnLine me (standing node.old (F.held files.old)) (standing node.new (F.held files.new)) }
{
    node.recall();
    let end = meet_node(alloc, node, files, address, door);
    node.recall();
    end
}

/// and one with a node that dials.
pub fn a_hosted_meeting_keeps_one_line<D: Door, F: Files>(
    alloc: Global,
    node: &mut Node,
    files: &mut F,
    door: &mut D,
) -> MeetEnd
    ensures met { NodeHosts F.tells (talker F.Files D.Door node.old files.old door.old) (talker F.Files D.Door node.new files.new door.new) result }
    ensures accepts { D.accepts door.new ≡ raised (D.accepts door.old) }
    ensures line { IsTrue F.tells → (me : ℕ) → me < length node.old.core.config.weights → IsReady me (standing node.old (F.held files.old))
        → IsFairMeeting me side.Host None node.old (D.sessions door.old) (D.sessions door.new) result → IsMetLogged result
        → StaysOnLine me (standing node.old (F.held files.old)) (standing node.new (F.held files.new)) }
{
    node.recall();
    let end = host_node(alloc, node, files, door);
    node.recall();
    end
}

/// A node that is ready is given up, and starts again from its log, which has this name: then it is ready.
pub fn a_start_keeps_one_line<F: Files>(
    alloc: Global,
    node: &Node,
    files: &mut F,
    log: &str,
    config: Config,
    keys: Keys,
) -> Result<Node, StartFault>
    requires log { log.now ≡ node.now.log }
    requires config { config ≡ node.now.core.config }
    requires keys { keys ≡ node.now.keys }
    ensures said { IsTrue F.tells → Starts config keys log.now (F.held files.old log.now) result }
    ensures log { IsTrue F.tells → StartsLog config log.now (F.held files.old) (F.held files.new) (F.held files.old log.now) result }
    ensures cause { HasStartCause (F.read_faults files.old) (F.read_faults files.new) (F.append_faults files.old) (F.append_faults files.new) result }
    ensures line { IsTrue F.tells → (me : ℕ) → me < length node.now.core.config.weights → IsReady me (standing node.now (F.held files.old))
        → IfOk result (λ next. StaysOnLine me (standing node.now (F.held files.old)) (standing next (F.held files.new))) }
{
    node.recall();
    let next = Node::start(alloc, files, log, config, keys)?;
    next.recall();
    Ok(next)
}

/// A node that was ready is given up after one of these calls, however that ended, as by a failed append. Its log,
/// which has the first name, is mended into a new file of the second. The node starts again from that: then it is
/// ready. That the node was sound before the call is what `Node::recall` said then.
pub fn a_node_given_up_keeps_one_line<F: Files>(
    alloc: Global,
    node: &Node,
    files: &mut F,
    log: &str,
    new: &str,
    config: Config,
    keys: Keys,
) -> Result<Result<Node, StartFault>, RewriteFault>
    requires log { log.now ≡ node.now.log }
    requires config { config ≡ node.now.core.config }
    requires keys { keys ≡ node.now.keys }
    ensures unmended { IsTrue F.tells → IfErr result (λ fault. IsOutside fault ⊎ IsWhy mended_of (F.held files.old log.now) (F.held files.old new.now) fault) }
    ensures again { IsTrue F.tells → IfOk result (StartsMended node.now new.now (F.held files.old) (F.held files.new)) }
    ensures line { IsTrue F.tells → (me : ℕ) (before : Standing) → me < length before.node.core.config.weights → IsSound before.node → IsReady me before
        → Attempt me before (standing node.now (F.held files.old))
        → IfOk result (λ started. IfOk started (λ next. StaysOnLine me before (standing next (F.held files.new)))) }
{
    node.recall();
    let _whole = mend(alloc, files, log, new)?;
    Ok(start_soundly(alloc, files, new, config, keys))
}

/// Starts a node, and recalls what holds of it.
fn start_soundly<F: Files>(
    alloc: Global,
    files: &mut F,
    log: &str,
    config: Config,
    keys: Keys,
) -> Result<Node, StartFault>
    requires lawful { config_fault config ≡ None }
    requires keys { length keys ≡ length config.weights }
    ensures said { IsTrue F.tells → Starts config keys log.now (F.held files.old log.now) result }
    ensures log { IsTrue F.tells → StartsLog config log.now (F.held files.old) (F.held files.new) (F.held files.old log.now) result }
    ensures sound { IfOk result (λ node. IsSound node) }
{
    let started = Node::start(alloc, files, log, config, keys)?;
    started.recall();
    Ok(started)
}

/// Two nodes of one configuration meet, the one as the caller and the other as the host. Where both are done with
/// nothing refused, and each read what the other wrote, they agree: `meetings_converge` (hw_meeting_node) of nodes in
/// hand.
pub fn nodes_that_met_agree<D: Door, E: Door, T: Taker, U: Taker>(
    alloc: Global,
    caller: &mut T,
    host: &mut U,
    address: &str,
    dialled: &mut D,
    hosted: &mut E,
) -> (MeetEnd, MeetEnd)
    requires { (T.received caller.old).config ≡ (U.received host.old).config }
    ensures called { CallsPeer address.now (T.received caller.old) (T.verdict caller.old) (T.received caller.new) (door_told (D.sessions dialled.old) (D.ends dialled.old)) (door_told (D.sessions dialled.new) (D.ends dialled.new)) result.0
        ⊎ MeetsNone (T.received caller.old) (T.received caller.new) (D.sessions dialled.old) (D.sessions dialled.new) result.0 }
    ensures hosted { HostsPeer (U.received host.old) (U.verdict host.old) (U.received host.new) (door_told (E.sessions hosted.old) (E.ends hosted.old)) (door_told (E.sessions hosted.new) (E.ends hosted.new)) result.1
        ⊎ MeetsNone (U.received host.old) (U.received host.new) (E.sessions hosted.old) (E.sessions hosted.new) result.1 }
    ensures dials { D.dials dialled.new ≡ raised (D.dials dialled.old) }
    ensures accepts { E.accepts hosted.new ≡ raised (E.accepts hosted.old) }
    ensures agree { AreDone result.0 result.1 → AreCrossed address.now (D.sessions dialled.old) (D.sessions dialled.new) (E.sessions hosted.old) (E.sessions hosted.new)
        → Agree (T.received caller.new) (U.received host.new) }
{
    recall_core(caller.core());
    recall_core(host.core());
    let one = meet_one(alloc, caller, address, dialled);
    let other = host_one(alloc, host, hosted);
    (one, other)
}

/// What these laws ask of doors is there. A session with a peer that sends nothing is a fair one. There are two doors
/// by which each node read what the other wrote. A node that does nothing stays on its line.
pub fn fair_sessions_are_there()
    ensures rests { RestsOnLine }
    ensures served { QuietIsFair }
    ensures driven { QuietDialIsFair }
    ensures met { QuietMeetingIsFair }
    ensures crossed { CrossedAreThere }
{}
