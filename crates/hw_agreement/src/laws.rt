//! The laws.

ghost use Rattle.hw_replay.specs.Fates.{Sight};
ghost use Rattle.hw_agreement.specs.Lives.{WhoLivedSignsOnce, NoInnocentIsNamed, HostsAgree};
ghost use Rattle.hw_agreement.specs.Logs.{LogsAgree, NodesLogsAgree, LivesLogsAgree};
ghost use Rattle.hw_agreement.specs.Members.{LivesBegin, OwnJournalsAreLived, CopiesAreThere, OneIsHeavy};
ghost use Rattle.hw_agreement.specs.Runs.{TurnsAreCalls, ServesAreCalls, HostsAreCalls, MeetsAreCalls, NewRunsBegin, LaterRunsGoOn};
ghost use Rattle.hw_agreement.specs.RunMembers.{TurnIsTaken, SessionsAreServed};
ghost use Rattle.hw_agreement.specs.Reports.{AuditsAccuseRightly, ChecksAccuseRightly, EraAuditsAccuseRightly};

/// Take validators whose nodes lived so, whatever their numbers, with whatever stops and starts, and for whom nobody
/// else signed. Two journals have one unit for each number of each of them, and none of them is a culprit of the two.
/// While all others weigh no more than the threshold, the two are in no conflict.
pub fn hosts_agree()
    ensures once { WhoLivedSignsOnce }
    ensures named { NoInnocentIsNamed }
    ensures agree { HostsAgree }
{}

/// While all others weigh no more than the threshold, an audit of two logs of one configuration reports that they agree,
/// or that two different units have one digest. So it is of any logs that can be replayed, of those of two nodes, and of
/// those that two such validators write through their lives.
pub fn logs_agree()
    ensures any { LogsAgree }
    ensures nodes { NodesLogsAgree }
    ensures lives { LivesLogsAgree }
{}

/// The runs of a validator's node are parts of its life, one run after another, if no peer brings a new unit by it. Each
/// turn that it takes is calls, and so is each session that it serves and each meeting, until one ends the run. A run
/// over a new log begins a life. A later one over the log that was left, mended where that is torn, goes on with it.
pub fn runs_are_lives<B, K>()
    ensures turns { (sight : Sight B K) → TurnsAreCalls sight }
    ensures serves { (sight : Sight B K) → ServesAreCalls sight }
    ensures hosts { (sight : Sight B K) → HostsAreCalls sight }
    ensures meets { (sight : Sight B K) → MeetsAreCalls sight }
    ensures begins { (sight : Sight B K) → NewRunsBegin sight }
    ensures goes_on { (sight : Sight B K) → LaterRunsGoOn sight }
{}

/// Where the top call reports a conflict with status 3, each culprit is shown by two different signed units by it of one
/// number. None of them is a validator that lived so, and those who didn't weigh more than the threshold.
pub fn reports_accuse_rightly()
    ensures audit { AuditsAccuseRightly }
    ensures check { ChecksAccuseRightly }
    ensures era_audit { EraAuditsAccuseRightly }
{}

/// What these laws speak of is there, so none of them holds only because there is no case.
///
/// From each node that is sound and ready there is a life of whatever calls. Its journal at any moment is such that the
/// validator has lived. Two copies of its log meet the premises on the logs of two validators, where it weighs enough.
/// There is a turn in which a validator makes its unit, and each sound node has a session with a peer that sends
/// nothing. hw_samples has validators beside one that equivocates.
pub fn hosts_are_there()
    ensures lives { LivesBegin }
    ensures own { OwnJournalsAreLived }
    ensures copies { CopiesAreThere }
    ensures heavy { OneIsHeavy }
    ensures turn { TurnIsTaken }
    ensures session { SessionsAreServed }
{}
