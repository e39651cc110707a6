//! What the journals of two nodes say of each other.
//!
//! Where neither of the two chains of decided blocks begins the other, validators that weigh more than
//! the threshold equivocated. The audit names all who did, each with two signed units that show it.
//! A clash comes first: two different units of one digest, one in each journal. Then nothing else is said.
//!
//! The cost is that of reading each journal once: units are found by their names, and equivocations by
//! creator and sequence number.
#![tactic(auto)]

mod chains;
mod clash;
mod culprits;
mod held;
mod nodes;
mod same;
mod text;
mod twins;
mod verdict;

pub use hw_safety::Verdict;
pub use hw_types::Culprit;
pub use nodes::{AuditError, audit};
pub use text::{AGREE, CONFLICT, audit_text, status_of};
