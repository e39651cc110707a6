//! Light certificates: a block, and the vertices that give it a summit.
//!
//! The check of a certificate needs nothing else of the log that it comes from.
//!
//! A certificate has one spelling. Reading answers the certificate exactly when all of the bytes
//! are its spelling. Otherwise it answers the first error in the order of the bytes, with its place.
//!
//! `certify` makes the certificate of a decided block: the settled units that its greatest summit depends on,
//! with the evidence and the endorsements that they need.
//!
//! A check delivers the vertices to a new node. It answers yes where no vertex is refused, the faulty weigh no
//! more than the threshold, and the block has a summit. So a yes shows that the vertices certify the block: it is
//! decided. Another node that decided another block of that height is in a conflict with it, or the two clash. In a
//! conflict the culprits weigh more than the threshold. A certificate that was made is answered yes where its
//! signatures are right.
#![tactic(auto)]

mod answers;
mod asked;
mod certificate;
mod certifying;
mod checked;
mod checking;
mod decoding;
mod encoding;
mod error;
mod errors;
mod extract;
mod keys;
mod laws;
mod lines;
mod needed;
mod ranges;
mod reader;
mod standing;
mod summit;
mod under;

pub use answers::{Certified, CheckFault, Checked};
pub use asked::{Asked, certify_block, decision_of};
pub use certificate::{Certificate, VertexList};
pub use certifying::certify;
pub use checked::{check_by_keys, checked_text};
pub use checking::check;
pub use decoding::decode_certificate;
pub use encoding::encode_certificate;
pub use error::CertError;
pub use errors::put_error;
pub use keys::read_keys;
pub use laws::{
    a_yes_is_accountable, answers_are_worked_out, keys_are_read_alike,
    who_decided_otherwise_is_accountable,
};
pub use lines::{put_asked, put_fault};
pub use ranges::certificate_is_in_range;
