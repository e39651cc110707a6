//! What the state shows.

use crate::graph::panoramas::put_fork;
use crate::graph::views::put_views;
use hw_admit::State;
use hw_case_words::Answer;

/// What the state observes, its fork choice, who is faulty and how much they weigh.
pub fn show(answer: &mut Answer, state: &mut State) {
    let fork = state.fork();
    let again = state.fork();
    let fork = if fork == again { fork } else { None };
    put_views(answer, state.dag(), state.panorama());
    answer.put(" ");
    put_fork(answer, state.dag(), fork);
    answer.put(" faulty");
    for validator in 0..state.dag().validators() {
        put_fault(answer, state, validator);
    }
    answer.put(" weight ");
    answer.number(state.faulty_weight());
}

/// The validator where it is faulty, marked by a star where there is evidence against it.
fn put_fault(answer: &mut Answer, state: &State, validator: u32) {
    if state.config().weights.len() <= validator as usize || !state.is_faulty(validator) {
        return;
    }
    answer.put(" ");
    answer.number(validator as u64);
    if state.is_marked(validator) {
        answer.put("*");
    }
}
