//! The values of the Highway protocol, its definitions, and the laws over them.
//!
//! The types are what validators exchange and what a node answers with. The definitions stand in
//! `specs/`, over plain lists and numbers; each contract of the crates above cites them. The laws
//! are public functions without a body, each with a statement about the definitions as its contract.
#![tactic(auto)]

mod answers;
mod committee;
mod config;
mod items;
mod laws;
mod limits;
mod same;
mod shared;
mod unit;
mod words;

pub use answers::{
    Cause, CodecError, Culprit, Decision, Frame, LastQuestion, PairFault, Plan, PlanKind, Receipt,
    Rule,
};
pub use committee::quorum;
pub use config::{
    Config, ConfigFault, FEW_VALIDATORS, Leaders, MAX_EXPONENT, MAX_LEADERS, MAX_LEVELS,
    MAX_PARKED, MAX_RECORDS, MAX_RECORDS_OF_MANY, MAX_TOTAL, MAX_VALIDATORS, MIN_EXPONENT,
};
pub use items::{
    Bytes, CulpritList, DigestList, IndexList, Items, NeedList, OutOfMemory, WeightList,
};
pub use laws::{
    a_block_stands, decisions_are_one, fork_is_the_walk, journal_is_bounded, lanes_are_histories,
    longer_journal_grows, more_units_change_nothing, order_does_not_count, reach_is_a_chain,
    receipt_tells_where, rounds_are_enough, settled_fork_is_the_walk, settled_is_lawful,
    step_is_settled, tip_is_one, union_is_lawful,
};
pub use limits::{END_OF_TIME, MAX_LENGTH, MAX_LIST, MAX_VALUE, USUAL_PARKED, USUAL_RECORDS};
pub use same::is_same_unit;
pub use shared::{ObsList, Shared};
pub use unit::{Digest, Endorsement, Evidence, Need, Obs, Signature, SignedUnit, Vertex, WireUnit};
