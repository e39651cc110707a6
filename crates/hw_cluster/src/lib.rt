//! Several nodes that hear each other, runs of them that random words choose, and large journals that a number makes.
//!
//! A [`Cluster`] is some honest validators, each with a node of its own, and the vertices that were sent. It
//! does one action after the other, in whatever order they come. An action is a validator's step, the delivery
//! of a sent vertex to a node, or a vertex by somebody who is no node.
//!
//! What an action is answered and what it leaves are those of the definitions, so all that is proved of these
//! holds of it. Whatever the order, and whatever is forged, no node equivocates. While the validators that are
//! no nodes weigh no more than the threshold, the nodes decide one chain.
//!
//! [`simulate`] lets the words of a number choose the actions. [`generate`] gives a node large valid input that a
//! number makes.
#![tactic(auto)]

mod acts;
mod counts;
mod drawn;
mod generated;
mod lanes;
mod laws;
mod made;
mod named;
mod names;
mod nodes;
mod order;
mod simulated;
mod words;

pub use generated::{GenSummary, generate};
pub use hw_honest::{Acted, Action};
pub use laws::{nodes_agree, nodes_never_equivocate, numbers_are_worked_out};
pub use nodes::Cluster;
pub use simulated::{SimSummary, simulate};
