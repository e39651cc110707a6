//! Laws of nodes with a log.

ghost use Rattle.hw_session.specs.Restart.{LogGivesBack, NewNodeHasLog, MakeKeepsLog, MakeIsAnEvent};

/// Where a log has an entry for each vertex of a journal, in order, a node that starts from it has that journal.
/// This holds in both versions.
pub fn a_log_gives_its_journal_back()
    ensures { LogGivesBack }
{}

/// A node keeps the log of its journal as it makes units. So its life is one of those that start again
/// without a second unit of one number.
pub fn a_node_keeps_the_log_of_its_journal()
    ensures new { NewNodeHasLog }
    ensures kept { MakeKeepsLog }
    ensures event { MakeIsAnEvent }
{}
