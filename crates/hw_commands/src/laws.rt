//! What follows of a run.

ghost use Rattle.hw_commands.specs.Laws.{AuditIsTheVerdict, VerdictIsThere, EraAuditIsTheVerdict, EraVerdictIsThere, ConflictIsReported, ReadsTheSame, LogIsAnswered, CheckIsAnswered};

/// An audit of two logs that can be replayed reports the verdict on what their nodes accepted. The decided blocks are
/// any that the definition allows. There is a verdict on any two journals.
pub fn an_audit_tells_the_verdict()
    ensures tells { AuditIsTheVerdict }
    ensures there { VerdictIsThere }
{}

/// An audit of eras whose logs can be replayed reports the verdict on the nodes that they leave, era by era.
/// There is one on the eras of any two nodes that begin with one configuration.
pub fn an_era_audit_tells_the_verdict()
    ensures tells { EraAuditIsTheVerdict }
    ensures there { EraVerdictIsThere }
{}

/// Where two logs report conflicting final blocks, and no two of their units clash, the status is that of a
/// conflict. So the top call's clause on it holds: culprits that weigh more than the threshold are named.
pub fn a_conflict_is_reported()
    ensures { ConflictIsReported }
{}

/// A log that was written anew in version 2 says what the old one says: `replay` and `explain` print the same
/// for both. After `migrate` with status 0 the two files are so, by the top call's clause on what a run leaves.
pub fn a_migrated_log_reads_the_same()
    ensures { ReadsTheSame }
{}

/// With files that can be read, a request about a certificate is answered: the status is one that these clauses list.
/// By the top call's clause `complete` it is that status or 7, where nothing of the outside fails.
pub fn certificates_are_answered()
    ensures asked { LogIsAnswered }
    ensures checked { CheckIsAnswered }
{}
