//! Units, vertices, configurations and frames as bytes.
//!
//! Each value has one spelling. An encoder gives it, and makes room for it once. A decoder answers
//! with the value exactly where all of the bytes are its spelling; otherwise it answers the first
//! field that is refused, in the order of the bytes, with the place where that field begins. It
//! goes over the bytes once, and makes no room for more than the bytes that are left can hold.
//! Either may want memory in place of any answer.
//!
//! [`Reader`] takes one field after the other, and a [`Field`] is an item of a list; other formats use both.
//!
//! The laws say that no spelling begins another of its kind, that equal spellings are of equal
//! values, and that reading gives back what was spelled, whatever follows.
#![tactic(auto)]

mod compact;
mod config;
mod decoding;
mod encoding;
mod field;
mod frame;
mod last;
mod laws;
mod ranges;
mod reader;
mod unit;
mod vertex;

pub use compact::{decode_vertex_after, encode_vertex_after};
pub use decoding::{decode_config, decode_frame, decode_unit, decode_vertex};
pub use encoding::{
    digest_of, encode_config, encode_frame, encode_unit, encode_vertex, instance_of,
};
pub use field::{Field, put_list, read_list};
pub use hw_types::{CodecError, Frame, NeedList};
pub use last::Last;
pub use laws::{
    equal_spellings_are_of_equal_values, no_spelling_begins_another,
    reading_gives_back_what_was_spelled, reading_is_spelling, what_was_read_is_spelled,
};
pub use ranges::{
    array_is_in_range, config_is_in_range, frame_is_in_range, unit_is_in_range, vertex_is_in_range,
};
pub use reader::Reader;
pub use unit::fits;
pub use vertex::{SIGNATURE_LENGTH, UNIT_KIND};
