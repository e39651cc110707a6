//! Agreement of validators as they run, with stops and starts: laws.
//!
//! A validator's life is whatever calls its node makes, with stops and starts between them. Take validators that lived
//! so, and for whom nobody else signed. No audit of two logs names one of them. While all others weigh no more than the
//! threshold, no audit of two logs of their instance reports a conflict.
#![tactic(auto)]

mod laws;

pub use laws::{hosts_agree, hosts_are_there, logs_agree, reports_accuse_rightly, runs_are_lives};
