//! The answer to a line, as it is made.

use hex::FromHexError;
use hw_types::{Digest, Items, OutOfMemory};
use std::alloc::{AllocError, Global};
use std::fmt::{Debug, Display};

/// An answer in the making. Where memory ended, or a line isn't of the language, it is refused, which shows at its end
/// alone: so nothing that writes an answer has to ask.
#[derive(Drop)]
pub struct Answer {
    alloc: Global,
    /// What is written so far. What is written past the methods is to be kept by `keep`.
    pub text: String,
    is_refused: bool,
}

impl Answer {
    /// An answer that says nothing yet.
    pub fn new(alloc: Global) -> Answer {
        Answer {
            alloc,
            text: String::new(alloc),
            is_refused: false,
        }
    }

    pub fn alloc(&self) -> Global {
        self.alloc
    }

    /// Puts the word last.
    pub fn put(&mut self, word: &str) {
        let put = self.text.push_str(word);
        self.keep(put);
    }

    /// Puts the number last.
    pub fn number(&mut self, number: u64) {
        let put = write!(self.text, "{number}");
        self.keep(put);
    }

    /// Puts the value last as it displays.
    pub fn show<T: Display>(&mut self, value: &T) {
        let put = write!(self.text, "{value}");
        self.keep(put);
    }

    /// Puts the value last as its derive spells it.
    pub fn debug<T: Debug>(&mut self, value: &T) {
        let put = write!(self.text, "{value:?}");
        self.keep(put);
    }

    /// Puts the label last, and the number after it.
    pub fn labelled(&mut self, label: &str, number: u64) {
        self.put(label);
        self.number(number);
    }

    /// Puts the text before its first `#` last, and then the number. Answers the text after that `#`.
    fn fill_one<'a>(&mut self, text: &'a str, number: u64) -> &'a str {
        match text.split_once('#') {
            Some((before, left)) => {
                self.put(before);
                self.number(number);
                left
            }
            None => text,
        }
    }

    /// The text with the number in the place of its `#`; none where there is no memory for it.
    pub fn filled(&mut self, text: &str, number: u64) -> String {
        let mut part = Answer::new(self.alloc);
        let left = part.fill_one(text, number);
        part.put(left);
        match part.finish() {
            Some(text) => text,
            None => {
                self.refuse();
                String::new(self.alloc)
            }
        }
    }

    /// Puts `true` or `false` last.
    pub fn truth(&mut self, is_so: bool) {
        self.put(if is_so { "true" } else { "false" });
    }

    /// Puts the bytes last as a text.
    pub fn utf8(&mut self, bytes: &[u8]) {
        match String::from_utf8_lossy(self.alloc, bytes) {
            Ok(text) => self.put(text.as_str()),
            Err(_) => self.refuse(),
        }
    }

    /// Puts the bytes last as a text, without the white space at its end.
    pub fn utf8_line(&mut self, bytes: &[u8]) {
        match String::from_utf8_lossy(self.alloc, bytes) {
            Ok(text) => self.put(text.as_str().trim_end()),
            Err(_) => self.refuse(),
        }
    }

    /// Puts the bytes last as hexadecimal digits.
    pub fn hex(&mut self, bytes: &[u8]) {
        match hex::encode(self.alloc, bytes) {
            Ok(digits) => self.put(digits.as_str()),
            Err(_) => self.refuse(),
        }
    }

    /// Puts the digest last as hexadecimal digits, where there was memory to find it.
    pub fn digest(&mut self, found: Result<Digest, OutOfMemory>) {
        match found {
            Ok(digest) => self.hex(digest.0.as_slice()),
            Err(_) => self.refuse(),
        }
    }

    /// Puts the word last that the digest stands for.
    pub fn name(&mut self, name: &Digest) {
        for byte in name.0.as_slice() {
            if *byte != 0 {
                self.character(*byte);
            }
        }
    }

    /// Puts each byte last as the character that it is in ASCII.
    pub fn characters(&mut self, bytes: &[u8]) {
        for byte in bytes {
            self.character(*byte);
        }
    }

    /// Puts the character last that the byte is in ASCII.
    pub fn character(&mut self, byte: u8) {
        let put = self.text.push(char::from(byte));
        self.keep(put);
    }

    /// The words of the line, with this between them; none where there is no memory for them.
    pub fn words<'a>(&mut self, line: &'a str, between: char) -> Vec<&'a str> {
        match split(self.alloc, line, between) {
            Some(words) => words,
            None => {
                self.refuse();
                Vec::new(self.alloc)
            }
        }
    }

    /// The bytes of the hexadecimal digits; none where they are no such digits, or there is no memory for them.
    pub fn bytes(&mut self, digits: &str) -> Vec<u8> {
        match hex::decode(self.alloc, digits) {
            Ok(bytes) => bytes,
            Err(fault) => {
                if fault == FromHexError::OutOfMemory {
                    self.refuse();
                }
                Vec::new(self.alloc)
            }
        }
    }

    /// This many bytes 0; none where there is no memory for them.
    pub fn zeros(&mut self, count: usize) -> Vec<u8> {
        match vec![in self.alloc; 0u8; count] {
            Ok(bytes) => bytes,
            Err(_) => {
                self.refuse();
                Vec::new(self.alloc)
            }
        }
    }

    /// The numbers between the commas; a word that is none is left out.
    pub fn numbers(&mut self, words: &str) -> Vec<u64> {
        let mut numbers = Vec::new(self.alloc);
        for word in words.split(',') {
            if let Ok(number) = word.parse() {
                self.push_to(&mut numbers, number);
            }
        }
        numbers
    }

    /// A list of these items; none where there is no memory for it.
    pub fn list<T: Copy>(&mut self, items: &[T]) -> Items<T> {
        match Vec::from_slice(self.alloc, items) {
            Ok(items) => Items::from_vec(items),
            Err(_) => {
                self.refuse();
                Items::new(self.alloc)
            }
        }
    }

    /// Puts the item last in the list.
    pub fn push<T: Drop>(&mut self, list: &mut Items<T>, item: T) {
        if list.push(item).is_err() {
            self.refuse();
        }
    }

    /// Puts the item last in the vector.
    pub fn push_to<T: Drop>(&mut self, items: &mut Vec<T>, item: T) {
        if items.push(item).is_err() {
            self.refuse();
        }
    }

    /// The same text; none where there is no memory for it.
    pub fn copy(&mut self, text: &str) -> String {
        match text.to_string(self.alloc) {
            Ok(text) => text,
            Err(_) => {
                self.refuse();
                String::new(self.alloc)
            }
        }
    }

    /// The answer is refused where this was.
    pub fn keep(&mut self, written: Result<(), AllocError>) {
        if written.is_err() {
            self.refuse();
        }
    }

    /// The answer is refused where this other one was. Nothing else of that one is used.
    pub fn join(&mut self, unheard: Answer) {
        if unheard.is_refused {
            self.refuse();
        }
    }

    /// Refuses the answer, since memory ran out or the line isn't of the language.
    pub fn refuse(&mut self) {
        self.is_refused = true;
    }

    /// The whole text, unless the answer is refused.
    pub fn finish(self) -> Option<String> {
        if self.is_refused {
            None
        } else {
            Some(self.text)
        }
    }
}

fn split<'a>(alloc: Global, line: &'a str, between: char) -> Option<Vec<&'a str>> {
    line.split(between).collect(alloc).ok()
}
