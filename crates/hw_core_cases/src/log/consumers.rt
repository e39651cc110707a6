//! Consumers in memory.

use crate::log::counts::{Count, done, put_count};
use crate::log::plans::plan;
use hw_case_words::{Answer, number};
use hw_doubles::{ListConsumer, TakenBlock};
use hw_io::Consumer;

/// What a consumer answers to the steps, and what it took.
pub fn consumer_text(answer: &mut Answer, calls: &str, steps: &str) {
    let mut consumer = ListConsumer::new(answer.alloc());
    plan(answer, &mut consumer.plan, calls);
    walk(answer, &mut consumer, steps);
    put_blocks(answer, consumer.blocks());
    answer.labelled("finishes ", consumer.finishes());
    answer.labelled(" faults ", consumer.faults());
}

/// Takes the steps, and puts down what is answered to each.
fn walk(answer: &mut Answer, consumer: &mut ListConsumer, steps: &str) {
    for step in steps.split(',') {
        put_count(answer, take_step(consumer, step));
    }
}

fn take_step(consumer: &mut ListConsumer, step: &str) -> Count {
    match step.split_once(':') {
        Some((height, value)) => done(consumer.take(number(height), value.as_bytes())),
        None => done(consumer.finish()),
    }
}

fn put_blocks(answer: &mut Answer, blocks: &[TakenBlock]) {
    for block in blocks {
        answer.number(block.height());
        answer.put(":");
        answer.characters(block.value());
        answer.put(" ");
    }
}
