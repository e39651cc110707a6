//! Panoramas in words.

ghost use Rattle.std.specs.Prelude.{◌≡◌, ◌<◌, ◌≤◌, length};
ghost use Rattle.hw_dag.specs.Dag.{count_of};

use hw_case_words::Answer;
use hw_dag::{Dag, Panorama, UnitNo, View};

/// The name of a unit, after this word.
pub fn put_name(answer: &mut Answer, dag: &Dag, word: &str, no: UnitNo) {
    answer.put(word);
    if no.0 < dag.count() {
        answer.name(dag.unit(no).digest());
    } else {
        answer.refuse();
    }
}

/// A slot in a word, with a space before it.
fn put_view(answer: &mut Answer, dag: &Dag, view: View) {
    match view {
        View::Absent => answer.put(" -"),
        View::Faulty => answer.put(" !"),
        View::Correct(no) => put_name(answer, dag, " ", no),
    }
}

/// The slots of the panorama in words.
pub fn put_views(answer: &mut Answer, dag: &Dag, panorama: &Panorama)
    requires { length panorama.now ≡ dag.now.validators }
{
    answer.put("panorama");
    for validator in 0..dag.validators() {
        put_view(answer, dag, panorama.get(validator));
    }
}
