//! The settings of a node, which are its configuration as a JSON value.
//!
//! The value is an object with the members `weights`, `threshold`, `levels`, `exponents` and `leaders`,
//! and perhaps `records`, `parked` and `end`, and with no other. `specs/Settings.antt` says what each
//! member may be. Which value a text is, and that there is none, is what `serde_json` says.
#![tactic(auto)]

mod fault;
mod numbers;
mod samples;
mod settings;

pub use fault::SettingsFault;
pub use samples::small_settings_are_read;
pub use settings::read_settings;
