//! A call with other bytes in its last file.

use crate::calls::Call;
use std::alloc::{AllocError, Global};
use std::io;
use std::sync::Wait;
use std::thread::Threads;

/// Numbers from 0 on with an answer each, of which those with equal answers are told together.
#[derive(Drop)]
struct Answers {
    text: String,
    /// The answer of the last number, and the first number of those before it that have the same.
    last: String,
    first: u32,
}

impl Answers {
    fn new(alloc: Global) -> Answers {
        Answers {
            text: String::new(alloc),
            last: String::new(alloc),
            first: 0,
        }
    }

    /// The answer of this number, which comes behind those before.
    fn add(&mut self, number: u32, answer: String) -> Result<(), AllocError> {
        if number == 0 {
            self.last = answer;
        } else if answer.as_str() != self.last.as_str() {
            self.tell()?;
            self.last = answer;
            self.first = number;
        }
        Ok(())
    }

    /// From which number on the last answer comes.
    fn tell(&mut self) -> Result<(), AllocError> {
        let (first, last) = (self.first, &self.last);
        write!(self.text, " from {first} {last},")
    }

    fn into_text(self) -> Result<String, AllocError> {
        let mut answers = self;
        answers.tell()?;
        Ok(answers.text)
    }
}

/// How the call ends with these bytes in its last file.
fn answer_of<R: Threads + Wait + Sync>(
    rt: &R,
    alloc: Global,
    call: &Call,
    bytes: &[u8],
) -> Result<String, AllocError> {
    match call.with_last(alloc, bytes)?.outcome(rt, alloc) {
        Ok(found) => {
            let cause = &found.end.cause;
            format!(in alloc; "{cause:?}")
        }
        Err(_) => String::from_str(alloc, "no memory"),
    }
}

/// The answers to the first bytes of the last file, by their number.
fn cuts<R: Threads + Wait + Sync>(
    rt: &R,
    alloc: Global,
    call: &Call,
) -> Result<String, AllocError> {
    let mut answers = Answers::new(alloc);
    let mut cut = Vec::new(alloc);
    for (byte, number) in call.last_bytes().iter().zip(0..) {
        answers.add(number, answer_of(rt, alloc, call, &cut)?)?;
        cut.push(*byte)?;
    }
    answers.into_text()
}

/// The answers to the last file with each byte at this place.
fn changes_at<R: Threads + Wait + Sync>(
    rt: &R,
    alloc: Global,
    call: &Call,
    place: usize,
) -> Result<String, AllocError> {
    let mut answers = Answers::new(alloc);
    let mut bytes = Vec::from_slice(alloc, call.last_bytes())?;
    for byte in 0..=u8::MAX {
        if let Some(there) = bytes.get_mut(place) {
            *there = byte;
        }
        answers.add(u32::from(byte), answer_of(rt, alloc, call, &bytes)?)?;
    }
    answers.into_text()
}

/// Prints how the call ends with each cut of its last file, and with each byte at each place there.
pub fn print_changes<R: Threads + Wait + Sync + Print>(
    rt: &R,
    alloc: Global,
    call: &Call,
) -> io::Result<()> {
    let text = cuts(rt, alloc, call)?;
    println!(rt; "    cuts{text}")?;
    for place in 0..call.last_bytes().len() {
        let text = changes_at(rt, alloc, call, place)?;
        println!(rt; "    place {place}{text}")?;
    }
    Ok(())
}
