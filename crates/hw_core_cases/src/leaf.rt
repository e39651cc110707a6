//! What the small layers answer for the lines of its input, one line for each.
//!
//! The lines, and what each answers:
//!
//! - `quorum TOTAL THRESHOLD LEVEL`: the quorum.
//! - `round TIME EXPONENT`: the round's beginning, and its witness time.
//! - `change BEFORE EXPONENT TIME EXPONENT`: whether the exponent may change so.
//! - `way FROM TO`: the numbers to which the jumps lead.
//! - `pointers NUMBER`: how many pointers it keeps.
//! - `check WEIGHTS THRESHOLD LEVELS LEAST GREATEST LEADERS RECORDS PARKED`: whether the configuration keeps all
//!   limits; WEIGHTS are words `COUNTxWEIGHT` joined by `+`, LEADERS a table in that form or a key of 64 digits.
//! - `leaders WEIGHTS LEADERS COUNT`: the leaders of the rounds 0, 16, 32 and so on.
//! - `pair VALIDATORS LEFT RIGHT`: the creator, or the fault; a unit is `instance,creator,number,time`.
//! - `print NUMBER`, `digest HEX`, `rule NUMBER`: printed parts.
//! - `park LIMIT STEP ..`: what becomes of items: `p:NEEDS:ITEM` parks, `m:NEED` meets, `n` asks for the next, `c`
//!   counts; a need is `uN`, `eN` or `dN`.
//! - `parks COUNT`: COUNT items with chosen needs are parked, met and handed out in order.
//! - `endorse VALIDATORS STEP ..`: `a:UNIT:ENDORSER` adds, `q:UNIT` asks, `h:UNIT:ENDORSER` asks for a pair.
//! - `endorsers VALIDATORS`: how many of them, one after the other, make a unit endorsed.
//! - `KIND HEX`: what the bytes spell: their length and room, their name, and what is in them; KIND is `unit`,
//!   `vertex`, `config` or `frame`.
//! - `KIND HEX PLACE HEX`: the same with other bytes put at a place first.
//! - `cut KIND HEX`: each length from which a cut value is refused in another way.
//! - `keys read VALIDATORS TEXT`: `read`, or the place of the fault; in TEXT a `/` stands for a line feed.
//! - `keys unit VALIDATORS TEXT CREATOR DIGEST`, `keys endorse VALIDATORS TEXT ENDORSER DIGEST`: what the creator signs
//!   for the unit, and the endorser for the endorsement.
//! - `keys verdict VALIDATORS TEXT VERTEX`: the verdict on the vertex that these bytes spell.
//! - `settings TEXT`, `settings hex HEX`: the configuration that the settings of this text, or of these bytes, are,
//!   member by member; or what is wrong.
//!
//! HEX and VERTEX are bytes as hexadecimal digits.
//!
//! Covered:
//!
//! - quorums that were worked by hand, and the edges of every limit of a configuration;
//! - worked leaders, jumps, rounds, pairs and endorsements, and the printed names;
//! - parks and meets worked by hand, a full park, and 20,000 items whose needs a peer may have chosen;
//! - the codec: bytes and names from two other implementations, every prefix of two vertices and a configuration,
//!   every error;
//! - texts of keys and their faults, signatures and verdicts, worked out with another implementation of SHA-256;
//! - 833 settings, whole, spoiled and random, against an independent reading of JSON and of settings.

mod configs;
mod endorsing;
mod keys;
mod lines;
mod numbers;
mod parking;
mod printed;
mod settings;
mod spelled;

use hw_case_words::Answer;

/// Answers a line.
pub fn tell(answer: &mut Answer, line: &str) {
    lines::tell(answer, line);
    answer.put("\n");
}
