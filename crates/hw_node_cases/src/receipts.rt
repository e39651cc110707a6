//! What becomes of a delivery, in words.

use hw_case_words::Answer;
use hw_types::Receipt;

/// The words for receipts.
#[derive(Clone, Copy)]
pub struct ReceiptWords {
    admitted: &'static str,
    parked: &'static str,
    dropped: &'static str,
    repeat: &'static str,
    /// What comes after a number or a rule.
    end: &'static str,
}

/// Words with a space before the number or the rule.
pub const SPACED: ReceiptWords = ReceiptWords {
    admitted: "admitted ",
    parked: "parked ",
    dropped: "dropped ",
    repeat: "repeat",
    end: "",
};

/// Names with the number or the rule in brackets.
pub const BRACKETED: ReceiptWords = ReceiptWords {
    admitted: "Admitted(",
    parked: "Parked(",
    dropped: "Dropped(",
    repeat: "Repeat",
    end: ")",
};

/// Puts the receipt in these words.
pub fn put_receipt(answer: &mut Answer, words: &ReceiptWords, receipt: Receipt) {
    match receipt {
        Receipt::Admitted { settled } => put_count(answer, words.admitted, settled, words.end),
        Receipt::Parked { missing } => put_count(answer, words.parked, missing, words.end),
        Receipt::Dropped(rule) => {
            answer.put(words.dropped);
            answer.debug(&rule);
            answer.put(words.end);
        }
        Receipt::Repeat => answer.put(words.repeat),
    }
}

fn put_count(answer: &mut Answer, word: &str, count: u32, end: &str) {
    answer.labelled(word, u64::from(count));
    answer.put(end);
}
