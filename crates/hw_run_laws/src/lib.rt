//! Laws of sessions, of meetings and of runs of a node.
//!
//! After a session or a meeting the log is that of the journal, and what went out is in it. A node started from that
//! log makes no second unit of one number. A node is given up where an append fails or memory runs out. It starts again
//! from its log, mended where that is torn.
//!
//! A session that nothing outside disturbs, with a peer that sends what is due, ends as Done, or out of memory.
//!
//! Each law whose premises are about nodes holds of the nodes that a caller has. A call of these recalls what holds of
//! its node, and asks only what its caller can show.
//!
//! The contract of a run that comes to its report says that each consumer that is left took the whole decided chain.
//! Where a fault, a clash or out of memory ends the run, and where a replay stops, each took a prefix of it.
#![tactic(auto)]

mod in_hand;
mod laws;

pub use in_hand::{
    a_driven_session_keeps_one_line, a_hosted_meeting_keeps_one_line, a_make_keeps_one_line,
    a_meeting_keeps_one_line, a_new_node_is_ready, a_node_given_up_keeps_one_line,
    a_planned_unit_may_be_taken, a_session_keeps_one_line, a_start_keeps_one_line,
    an_accept_keeps_one_line, fair_sessions_are_there, nodes_that_met_agree,
};
pub use laws::{
    a_cut_log_is_mended, calls_keep_one_line, cut_calls_leave_a_log, cut_runs_are_there,
    cut_runs_leave_prefixes, lives_are_there, meetings_are_there, sessions_are_lives,
    sessions_keep_the_log, sessions_say_what_is_logged, undisturbed_sessions_are_whole,
};
