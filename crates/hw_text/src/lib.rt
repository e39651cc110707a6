//! Parts of printed texts: numbers, digests, words, the names of rules, and what is wrong with bytes and with
//! configurations. And what is read of texts: decimal numbers, and hexadecimal digits.
//!
//! Each call puts its part last in a list of bytes. Where there is no memory for it, the list stays
//! as it was, but for `put_numbered`, of whose two parts the first may stay, and for `put_codec` and
//! `put_limit`, which put a word and a number by it. `specs/Text.antt` has the printed forms.
#![tactic(auto)]

mod digits;
mod errors;
mod numbers;
mod parts;
mod rules;

pub use digits::{are_lower_digits, is_lower_digit};
pub use errors::{put_codec, put_limit};
pub use numbers::{is_digit, number_up_to};
pub use parts::{end_line, put_digest, put_number, put_numbered, put_word};
pub use rules::{rule_name, rule_number};
