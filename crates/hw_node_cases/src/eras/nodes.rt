//! Nodes as words give them.

use crate::eras::acts::{begin, deliver};
use hw_case_words::{Answer, small};
use hw_eras::{EraOpen, Eras};

/// Puts the eras of the node that these words give last, if they begin with a configuration. What is said of it
/// meanwhile is no part of the answer.
pub fn tell_of(answer: &mut Answer, nodes: &mut Vec<Eras>, words: &[&str]) {
    let mut unheard = Answer::new(answer.alloc());
    if let [config, rest @ ..] = words {
        begin(&mut unheard, nodes, config);
        if let [.., eras] = nodes.as_mut_slice() {
            act_all(&mut unheard, eras, rest);
        }
    }
    if unheard.finish().is_none() {
        answer.refuse();
    }
}

/// Does what the words say, in turn.
fn act_all(answer: &mut Answer, eras: &mut Eras, words: &[&str]) {
    let mut era = 0;
    let mut is_era = false;
    for word in words {
        match *word {
            "to" => is_era = true,
            "open" => era = open(answer, eras, era),
            _ if is_era => {
                era = small(word);
                is_era = false;
            }
            _ => deliver(answer, eras, era, word, true),
        }
    }
}

/// Opens the next era, if it may be: the era that vertices are for then.
fn open(answer: &mut Answer, eras: &mut Eras, era: u32) -> u32 {
    match eras.open_next() {
        Ok(Some(number)) => number,
        Ok(None) | Err(EraOpen::Full) => era,
        Err(EraOpen::OutOfMemory) => {
            answer.refuse();
            era
        }
    }
}
