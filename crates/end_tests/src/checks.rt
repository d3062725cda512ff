//! Results, as words that are appended to a text.

use ipdl_base::{Items, Reason, SendRefusal, What};
use nesting_core::{Answer, StackTop};
use std::alloc::{AllocError, Global};
use std::process::Abort;

/// Compares the result with the expected one.
pub fn check(rt: &impl Abort, found: &str, wanted: &str) {
    assert_eq!(rt; found, wanted);
}

/// The value of a hexadecimal digit.
fn value_of(digit: u8) -> u8 {
    if digit <= b'9' {
        digit & 15
    } else {
        (digit & 15) + 9
    }
}

/// The byte that a pair of hexadecimal digits spells.
fn byte_of(pair: &[u8]) -> u8 {
    match pair {
        [high, low] => value_of(*high) << 4 | value_of(*low),
        _ => 0,
    }
}

/// The bytes that pairs of hexadecimal digits spell.
pub fn frame(alloc: Global, digits: &str) -> Result<Items<u8>, AllocError> {
    let mut bytes = Vec::new(alloc);
    for pair in digits.as_bytes().chunks(2) {
        bytes.push(byte_of(pair))?;
    }
    Ok(Items::from_vec(bytes))
}

/// Appends bytes as pairs of hexadecimal digits.
pub fn push_digits(log: &mut String, bytes: &[u8]) -> Result<(), AllocError> {
    for byte in bytes {
        write!(log, "{byte:02x}")?;
    }
    Ok(())
}

/// Appends a number, or `none`.
pub fn push_number(log: &mut String, number: Option<i32>) -> Result<(), AllocError> {
    match number {
        None => log.push_str("none"),
        Some(number) => write!(log, "{number}"),
    }
}

/// Appends three numbers, with a blank between each two.
pub fn push_three(log: &mut String, numbers: [Option<i32>; 3]) -> Result<(), AllocError> {
    let [first, second, third] = numbers;
    push_number(log, first)?;
    log.push(' ')?;
    push_number(log, second)?;
    log.push(' ')?;
    push_number(log, third)
}

/// Appends two words, with a blank after each.
pub fn push_two(log: &mut String, first: &str, second: &str) -> Result<(), AllocError> {
    write!(log, "{first} {second} ")
}

/// Returns the word for a refusal, or `none`.
pub fn refusal_text(refusal: Option<SendRefusal>) -> &'static str {
    match refusal {
        None => "none",
        Some(SendRefusal::Closed) => "Closed",
        Some(SendRefusal::DeadActor) => "DeadActor",
        Some(SendRefusal::DeadValue) => "DeadValue",
        Some(_) => "other",
    }
}

/// Returns the word for the frame on top.
pub fn top_text(top: StackTop) -> &'static str {
    match top {
        StackTop::Empty => "empty",
        StackTop::Dispatch(_) => "dispatch",
        StackTop::Unanswered(_) => "unanswered",
        StackTop::Answered(_) => "answered",
    }
}

/// Returns the word for an answer.
pub fn answer_text(answer: &Answer) -> &'static str {
    match answer {
        Answer::Ok(_) => "ok",
        Answer::Fault(Reason::ActorDestroyed) => "ActorDestroyed",
        Answer::Fault(Reason::ChannelClosed) => "ChannelClosed",
        Answer::Fault(_) => "fault",
    }
}

/// The kind of a line.
pub fn what_text(what: &What) -> &'static str {
    match what {
        What::Send(..) => "send",
        What::Call(..) => "call",
        What::ResumeOk(..) => "resume ok",
        What::ResumeFault(..) => "resume fault",
        What::Close => "close",
        What::Fails(_) => "fails",
        What::Rejected(..) => "rejected",
        What::Fall(..) => "fall",
        _ => "other",
    }
}
