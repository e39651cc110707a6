//! Who equivocated, and who did not, by what two journals hold: laws.
//!
//! A culprit comes with two byte strings. They spell two different signed units by it of one number, so whoever gets it
//! can check it. A validator that signed one unit for each number is no culprit. While the validators that did not
//! weigh no more than the threshold, two journals are in no conflict.
#![tactic(auto)]

mod laws;

pub use laws::{culprits_equivocated, who_sign_once_agree};
