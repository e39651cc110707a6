//! What the program says of logs, in words of the logs: their bytes, what these write, what that decides, and who
//! equivocated.
//!
//! The definitions of the layers below are worked out as the program works: an entry is taken, a replay stops or goes
//! on, a culprit is searched. These laws say the same by relations, which a person can read without them.
#![tactic(auto)]

ghost use Rattle.hw_theorem.specs.Counts.{EntriesAreTaken, EntriesStop, ReplayIsAnswered, ReplayStops};
ghost use Rattle.hw_theorem.specs.Drawn.{FirstIsFound};
ghost use Rattle.hw_theorem.specs.Equal.{UnitsAreTold, NeedsAreTold};
ghost use Rattle.hw_theorem.specs.Equivocators.{CulpritsAreEquivocators};
ghost use Rattle.hw_theorem.specs.Reports.{ReplayIsSaid, ExplainIsSaid, AuditIsSaid, LogsAreReported};

/// Entries are taken where no answer stops them. Then the node is the one to which they were delivered. As many
/// deliveries were refused as there are refusals among the answers, and as many came again as answers say so.
/// Otherwise they stop at the first answer that stops. So does a replay of a log.
pub fn a_replay_counts()
    ensures taken { EntriesAreTaken }
    ensures stop { EntriesStop }
    ensures replay { ReplayIsAnswered }
    ensures stops { ReplayStops }
{}

/// Where a number is below the sum of the weights, the validator that it draws is the first at which the weights add
/// up to more.
pub fn a_leader_is_found()
    ensures { FirstIsFound }
{}

/// The tests of the definitions that ask whether two units or two needs are equal pass exactly where they are.
pub fn equal_values_are_told()
    ensures units { UnitsAreTold }
    ensures needs { NeedsAreTold }
{}

/// The culprits of two journals are exactly the validators with two different signed units of one number among what
/// the journals settle and their evidence.
pub fn culprits_are_equivocators()
    ensures { CulpritsAreEquivocators }
{}

/// An audit that ends with status 0 or 3 says that its logs agree, or where their decided chains part and who
/// equivocated, with a weight above the threshold.
pub fn an_audit_says()
    ensures { AuditIsSaid }
{}

/// A run of `replay` or `explain` that ends with status 0 says the report or the explanation of its log.
pub fn a_report_says()
    ensures replay { ReplayIsSaid }
    ensures explain { ExplainIsSaid }
{}

/// Where a log can be replayed, it is reported and explained. Where two logs can be replayed, are of one configuration
/// and have no two different units of one digest, an audit says that they agree or that they conflict.
pub fn logs_are_reported()
    ensures { LogsAreReported }
{}
