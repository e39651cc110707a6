//! Configurations as lines of hexadecimal digits.

ghost use Rattle.std.specs.Prelude.{◌≡◌, None};
ghost use Rattle.hw_types.specs.Limits.{config_fault};

use crate::spelled::{config_of, digest_of, put_error};
use hw_case_words::Answer;
use hw_codec::encode_config;
use hw_eras::next_config;
use hw_types::Config;

/// The next configuration, where the last block of an era of this one has this digest and this value.
pub fn next(answer: &mut Answer, config: &str, block: &str, value: &str) {
    match config_of(answer, config) {
        Ok(config) => next_of(answer, &config, block, value),
        Err(error) => put_error(answer, error),
    }
}

/// The same of a configuration, or the limit that it breaks.
fn next_of(answer: &mut Answer, config: &Config, block: &str, value: &str) {
    match config.check() {
        Ok(()) => lawful_next(answer, config, block, value),
        Err(fault) => answer.debug(&fault),
    }
}

/// The same of a configuration that keeps its limits.
fn lawful_next(answer: &mut Answer, config: &Config, block: &str, value: &str)
    requires { config_fault config.now ≡ None }
{
    let block = digest_of(answer, block);
    let value = answer.bytes(value);
    match next_config(answer.alloc(), config, &block, value.as_slice()) {
        Ok(next) => put_config(answer, &next),
        Err(_) => answer.refuse(),
    }
}

/// The configuration's bytes as digits.
pub fn put_config(answer: &mut Answer, config: &Config)
    requires { config_fault config.now ≡ None }
{
    match encode_config(answer.alloc(), config) {
        Ok(bytes) => answer.hex(bytes.as_slice()),
        Err(_) => answer.refuse(),
    }
}
