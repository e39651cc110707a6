//! The grammar of scripts.
//!
//! A script is a text that sets a configuration, and defines units and evidence by name. It also says what is delivered
//! and shown. Reading a script gives its configuration, its definitions, and its steps; or the number of the first line
//! outside the grammar. `specs/Grammar.antt` defines which text writes which script, and which line is the first that
//! is wrong.
#![tactic(auto)]

mod acts;
mod adds;
mod body;
mod citation;
mod digests;
mod evidence;
mod fault;
mod head;
mod laws;
mod lines;
mod lists;
mod named;
mod names;
mod samples;
mod script;
mod setting;
mod unit;
mod wording;
mod words;

pub use acts::{Act, Acts};
pub use fault::ScriptError;
pub use laws::{numbers_are_decimal, writes_is_script_of};
pub use named::Named;
pub use names::Names;
pub use samples::small_scripts_are_read;
pub use script::{Script, read_script};
