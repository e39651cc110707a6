//! A state to begin with.

use hw_admit::{State, StateFault};
use hw_case_words::{Answer, config_of};

/// Begins a state with the configuration that the words give. Where there is none, why.
pub fn weights(answer: &mut Answer, held: &mut Option<State>, words: &[&str]) {
    let config = config_of(answer, words);
    match State::new(answer.alloc(), config) {
        Ok(state) => {
            *held = Some(state);
            answer.put("began");
        }
        Err(StateFault::Fault(fault)) => answer.debug(&fault),
        Err(StateFault::OutOfMemory) => answer.refuse(),
    }
}
