//! Which calls are to fail.

use hw_case_words::Answer;
use hw_doubles::Plan;

/// Plans that the calls of these numbers fail.
pub fn plan(answer: &mut Answer, plan: &mut Plan, calls: &str) {
    let calls = answer.numbers(calls);
    for call in calls.as_slice() {
        let planned = plan.fail_at(*call);
        answer.keep(planned);
    }
}
