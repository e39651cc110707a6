//! Lines of words. A line that isn't of the language is refused, and so is one that runs out of memory.

use crate::graph::begin::weights;
use crate::graph::lanes::{ancestor, chain, lane, on_lane, sees};
use crate::graph::naivety::naive_fork;
use crate::graph::panoramas::{at_most_of, choice, consistency, joined};
use crate::graph::random::random;
use crate::graph::settling::{endorse, mark, unit};
use crate::graph::shown::show;
use crate::graph::steps::{make, step};
use crate::graph::summits::summit;
use hw_admit::State;
use hw_case_words::Answer;

/// Answers a line, for the state that is held.
pub fn tell(answer: &mut Answer, held: &mut Option<State>, line: &str) {
    let words = answer.words(line, ' ');
    match words.as_slice() {
        ["#", ..] => answer.put(line),
        ["weights", ..] => weights(answer, held, words.as_slice()),
        ["random", rest @ ..] => random(answer, held, rest),
        [kind, rest @ ..] => asked(answer, held, kind, rest),
        [] => answer.refuse(),
    }
}

/// The answer of the state that is held.
fn asked(answer: &mut Answer, held: &mut Option<State>, kind: &str, words: &[&str]) {
    match held {
        Some(state) => moved(answer, state, kind, words),
        None => answer.refuse(),
    }
}

/// The answer of the state, which may change.
fn moved(answer: &mut Answer, state: &mut State, kind: &str, words: &[&str]) {
    match kind {
        "unit" => unit(answer, state, words),
        "mark" => mark(answer, state, words),
        "endorse" => endorse(answer, state, words),
        "show" => show(answer, state),
        "chain" => chain(answer, state, words),
        "make" => make(answer, state, words),
        _ => read_state(answer, state, kind, words),
    }
}

/// The answer of the state that stays as it is.
fn read_state(answer: &mut Answer, state: &State, kind: &str, words: &[&str]) {
    match kind {
        "choice" => choice(answer, state, words),
        "consistent" => consistency(answer, state.dag(), words),
        "most" => at_most_of(answer, state.dag(), words),
        "join" => joined(answer, state.dag(), words),
        "naive" => naive_fork(answer, state, words),
        "summit" => summit(answer, state, words),
        "step" => step(answer, state, words),
        _ => looked_up(answer, state, kind, words),
    }
}

/// What is where on lanes and chains.
fn looked_up(answer: &mut Answer, state: &State, kind: &str, words: &[&str]) {
    let [first, second] = words else {
        return answer.refuse();
    };
    match kind {
        "lane" => lane(answer, state.dag(), first, second),
        "ancestor" => ancestor(answer, state.dag(), first, second),
        "on" => on_lane(answer, state.dag(), first, second),
        "sees" => sees(answer, state.dag(), first, second),
        _ => answer.refuse(),
    }
}
