//! The consumers of the program over the real outside.

use crate::host::answers::{put_bytes, put_done, put_word};
use hw_case_words::Answer;
use hw_doubles::MemSink;
use hw_host::{BlockCount, HostFiles, HostSink, ValueFile};
use hw_io::Consumer;

/// What a consumer answers that is given these blocks, and then the end.
fn feed<C: Consumer>(answer: &mut Answer, consumer: &mut C, blocks: &str) {
    let mut height = 0u64;
    for block in blocks.split(',') {
        put_done(answer, consumer.take(height, block.as_bytes()));
        height = height.saturating_add(1);
    }
    put_done(answer, consumer.finish());
}

/// What the consumer of values answers over the real files.
pub fn values_text(rt: HostRuntime, answer: &mut Answer, blocks: &str) {
    let mut values = ValueFile::new(answer.alloc(), HostFiles::new(rt));
    feed(answer, &mut values, blocks);
}

/// What the consumer that counts blocks answers over the real output, or over a sink in memory.
pub fn count_text(rt: HostRuntime, answer: &mut Answer, words: &str) {
    match words.strip_prefix("memory ") {
        Some(blocks) => count_in_memory(answer, blocks),
        None => count_on_output(rt, answer, words),
    }
}

fn count_on_output(rt: HostRuntime, answer: &mut Answer, blocks: &str) {
    let mut count = BlockCount::new(answer.alloc(), HostSink::new(rt.stdout()));
    feed(answer, &mut count, blocks);
}

fn count_in_memory(answer: &mut Answer, blocks: &str) {
    let mut count = BlockCount::new(answer.alloc(), MemSink::new(answer.alloc()));
    feed(answer, &mut count, blocks);
    put_word(answer, "taken ");
    put_bytes(answer, count.into_out().taken());
}
