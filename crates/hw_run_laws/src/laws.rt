//! The laws.

ghost use Rattle.hw_replay.specs.Fates.{Sight};
ghost use Rattle.hw_run_laws.specs.Calls.{CallsKeepOneLine, AttemptsKeepOneLine, AttemptsSayNoNew, CallsKeepApart, CutLogIsMended};
ghost use Rattle.hw_run_laws.specs.Complete.{ServesAreComplete, DrivesAreComplete};
ghost use Rattle.hw_run_laws.specs.CutMembers.{ReplaysAreFed, ReplaysStop, RunsAreCut};
ghost use Rattle.hw_run_laws.specs.MeetMembers.{MeetingsAreThere, OneMeets};
ghost use Rattle.hw_run_laws.specs.Members.{NewNodesAreReady, OneBegins, LivesAreThere, WholeSessionsAreThere, WholeDrivesAreThere, NothingDisturbs, VerticesAreSaid, VerticesAreTaken, TornLogsAreThere, TornAcceptsAreThere};
ghost use Rattle.hw_run_laws.specs.Restart.{ServedIsALife, DrivenIsALife, MetIsALife, ServesIsALife, DrivesIsALife, MeetsIsALife, AcceptsIsALife, ServesKeepsLog, DrivesKeepsLog, MeetsKeepsLog, AcceptsKeepsLog, ServesLeavesLog, DrivesLeavesLog, MeetsLeavesLog, AcceptsLeavesLog, MakeLeavesLog, ServedSaysOfLog, DrivenSaysOfLog, MetSaysOfLog, ServesSaysOfLog, DrivesSaysOfLog, ServesWritesOfLog, DrivesWritesOfLog, MeetsSaysOfLog};
ghost use Rattle.hw_run_laws.specs.Taken.{ServedTakesThese, DrivenTakesThese};
ghost use Rattle.hw_run_laws.specs.Prefixes.{StoppedReplays, StoppedParts, CutServices, CutTurns, CutHosts, CutCalls};

/// Where a replay or a run stops, take a consumer that is left, and had taken nothing before. It has taken the first
/// blocks of the chain that the node had decided by then: in order, and each once.
///
/// Of a replay, `parts` is the clause to read. It says which entries of the log had been read by then, and that nothing
/// after them was passed on. `replays` leaves open which entries these are.
pub fn cut_runs_leave_prefixes<B, K>()
    ensures replays { (sight : Sight B K) → StoppedReplays sight }
    ensures parts { (sight : Sight B K) → StoppedParts sight }
    ensures services { (sight : Sight B K) → CutServices sight }
    ensures turns { (sight : Sight B K) → CutTurns sight }
    ensures hosts { (sight : Sight B K) → CutHosts sight }
    ensures calls { (sight : Sight B K) → CutCalls sight }
{}

/// Take a session that nothing outside disturbs, with a peer that sends the frames of a whole session. It ends as
/// Done, or out of memory.
pub fn undisturbed_sessions_are_whole()
    ensures serving { ServesAreComplete }
    ensures driving { DrivesAreComplete }
{}

/// A session or a meeting does one thing to the journal and the log of a node. The first of the peer's vertices reach
/// it. So its life is one of those that start again without a second unit of one number. That holds too of a vertex
/// that a host hands over. The frames that a session handles say which vertices it takes.
pub fn sessions_are_lives()
    ensures served_takes { ServedTakesThese }
    ensures driven_takes { DrivenTakesThese }
    ensures served { ServedIsALife }
    ensures driven { DrivenIsALife }
    ensures met { MetIsALife }
    ensures serves { ServesIsALife }
    ensures drives { DrivesIsALife }
    ensures meets { MeetsIsALife }
    ensures accepts { AcceptsIsALife }
{}

/// A session or a meeting keeps the log of the node's journal, and so does an `accept`.
pub fn sessions_keep_the_log()
    ensures serves { ServesKeepsLog }
    ensures drives { DrivesKeepsLog }
    ensures meets { MeetsKeepsLog }
    ensures accepts { AcceptsKeepsLog }
{}

/// What goes out of a node in a session is of its log. It is a vertex that is in it, or evidence of two units that are.
/// That is so of each byte that was written, however the session ends, also by a failed append or out of memory. What
/// goes out in a meeting was in the log before it.
pub fn sessions_say_what_is_logged()
    ensures served { ServedSaysOfLog }
    ensures driven { DrivenSaysOfLog }
    ensures met { MetSaysOfLog }
    ensures serves { ServesSaysOfLog }
    ensures drives { DrivesSaysOfLog }
    ensures serves_writes { ServesWritesOfLog }
    ensures drives_writes { DrivesWritesOfLog }
    ensures meets { MeetsSaysOfLog }
{}

/// A node that begins with its own units on one line and the log of its journal keeps both through any calls. These are
/// `make`, `accept` of fair vertices, sessions and meetings with fair peers, and starts. No two different units by it
/// of one number were ever in its log or went out. A peer is fair if no vertex that the node takes from it brings a
/// new unit by the node.
///
/// Where an append fails or memory runs out, and at the end of any other call, the node may be given up. It is started
/// again from its log, mended where that is torn. What it said until then has no unit of its own that couldn't go out
/// of its log before.
pub fn calls_keep_one_line()
    ensures kept { CallsKeepOneLine }
    ensures attempts { AttemptsKeepOneLine }
    ensures said { AttemptsSayNoNew }
    ensures apart { CallsKeepApart }
{}

/// However a call ends, it leaves the log of its node; or the node took one vertex more than its log has. Then
/// the file is the log of the node before it, with a first part of that vertex's entry after it.
pub fn cut_calls_leave_a_log()
    ensures serves { ServesLeavesLog }
    ensures drives { DrivesLeavesLog }
    ensures meets { MeetsLeavesLog }
    ensures accepts { AcceptsLeavesLog }
    ensures makes { MakeLeavesLog }
{}

/// A log that a call left cut, mended, is the log of a node that goes on.
pub fn a_cut_log_is_mended()
    ensures { CutLogIsMended }
{}

/// What these laws speak of is there, so none of them holds only because there is no case.
///
/// A new node with its log is a beginning, and one is written out. From each beginning there is a life of whatever
/// calls, in any order. These are units that are made, and whatever vertices that are handed over and hold no unit by
/// the validator. They are also sessions and meetings with peers that send nothing, starts, and nodes that are given
/// up. Each node has a whole session that nothing disturbs, dialled or, where no unit waits, dialling. It says the
/// vertices of its journal to a peer that asks for them, and takes a vertex that a peer sends. Wherever the append of a
/// unit fails, or that of a vertex that is handed over, the node may be given up. It starts again from its log, mended.
pub fn lives_are_there()
    ensures begins { NewNodesAreReady }
    ensures one { OneBegins }
    ensures lives { LivesAreThere }
    ensures served { WholeSessionsAreThere }
    ensures driven { WholeDrivesAreThere }
    ensures undisturbed { NothingDisturbs }
    ensures said { VerticesAreSaid }
    ensures taken { VerticesAreTaken }
    ensures torn { TornLogsAreThere }
    ensures torn_accepts { TornAcceptsAreThere }
{}

/// There are replays and runs that are cut short, with consumers that take what they are passed.
///
/// Wherever a replay comes to, they were passed what its entries so far decide. Where an entry or the log's error stops
/// it, they were passed no more. A run over the files of whatever node with its log, whose settings and keys are read,
/// can be cut at its report. One that serves can be cut at the line of a session too.
pub fn cut_runs_are_there()
    ensures fed { ReplaysAreFed }
    ensures stopped { ReplaysStop }
    ensures runs { RunsAreCut }
{}

/// There are meetings of two nodes after their first words.
///
/// Two nodes of one configuration have met, wherever what they say keeps its limits and neither refuses what is due to
/// it. Two nodes with logs are written out, of which one brings the other a block.
pub fn meetings_are_there()
    ensures all { MeetingsAreThere }
    ensures one { OneMeets }
{}
