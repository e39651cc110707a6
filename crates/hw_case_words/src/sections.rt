//! The sections of a program's input.

use crate::answer::Answer;
use std::io;

/// A section of the input, with what its lines left so far.
pub trait Sections<R> {
    /// Begins the section of this name.
    fn begin(&mut self, answer: &mut Answer, name: &str);

    /// Answers a line of the section.
    fn tell(&mut self, rt: &R, answer: &mut Answer, line: &str);
}

/// Answers each line of the input. A line `section NAME` begins a section.
pub fn answer_all<R: Input + Print + AllocGlobal, S: Sections<R>>(
    rt: &R,
    section: &mut S,
) -> io::Result<()> {
    for line in rt.lines(rt.alloc()) {
        answer_line(rt, section, line?.as_str())?;
    }
    Ok(())
}

fn answer_line<R: Print + AllocGlobal, S: Sections<R>>(
    rt: &R,
    section: &mut S,
    line: &str,
) -> io::Result<()> {
    let mut answer = Answer::new(rt.alloc());
    match line.strip_prefix("section ") {
        Some(name) => section.begin(&mut answer, name),
        None => section.tell(rt, &mut answer, line),
    }
    match answer.finish() {
        Some(text) => print!(rt; "{text}"),
        None => Err(io::ErrorKind::InvalidInput.into()),
    }
}
