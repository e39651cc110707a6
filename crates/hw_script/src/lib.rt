//! Scripts: small worlds of validators as text, and what a node prints as their vertices are delivered.
//!
//! A script is read whole before anything of it runs. Then each step is done in order. Either a vertex is
//! delivered, and what became of it is printed; or what the node says at that moment is shown, blocks by their
//! names.
#![tactic(auto)]

mod answers;
mod finals;
mod laws;
mod named;
mod run;
mod shows;
mod steps;

pub use hw_script_grammar::ScriptError;
pub use laws::output_is_printed;
pub use run::run_script;
