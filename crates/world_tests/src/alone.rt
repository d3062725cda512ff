//! A plain test of the law of one end (docs/laws.md, "One end by itself"), by the numbers in its lines.

ghost use Rattle.ipdl_base.specs.Sound.{IsSound};

use ipdl_base::{Line, Reason, Schema, What, is_effect};

/// Returns whether lines show that a reply to the request with a number was delivered.
fn has_reply(lines: &[Line], number: i32) -> bool {
    for line in lines {
        if let What::DeliverReply(seq) = line.what {
            if seq == number {
                return true;
            }
        }
    }
    false
}

/// Returns whether lines show that the call with a number has failed.
fn has_failed(lines: &[Line], number: i32) -> bool {
    for line in lines {
        if let What::Fails(seq) = line.what {
            if seq == number {
                return true;
            }
        }
    }
    false
}

/// Returns how often lines show that the promise with a number is settled.
fn settled(lines: &[Line], number: i32) -> u32 {
    let mut count = 0u32;
    for line in lines {
        match &line.what {
            What::Resolved(seq, _) | What::Rejected(seq, _) if *seq == number => {
                count = count.wrapping_add(1);
            }
            _ => {}
        }
    }
    count
}

/// Returns whether a line closes its end, by a close, a shutdown or a death.
fn is_closing(what: &What) -> bool {
    matches!(
        what,
        What::Close | What::ShutNormal | What::ShutAbnormal | What::Die
    )
}

/// Returns whether the last event in these lines closes the end.
fn closes(lines: &[Line]) -> bool {
    let mut closing = false;
    for line in lines {
        if !is_effect(&line.what) {
            closing = is_closing(&line.what);
        }
    }
    closing
}

/// Returns whether what a line shows of a promise or a call has its cause in the lines before it.
fn has_cause(before: &[Line], what: &What) -> bool {
    match what {
        What::Resolved(seq, _) => settled(before, *seq) == 0 && has_reply(before, *seq),
        What::Rejected(seq, Reason::ChannelClosed) => settled(before, *seq) == 0 && closes(before),
        What::Rejected(seq, Reason::ActorDestroyed) => settled(before, *seq) == 0,
        What::Rejected(seq, _) => settled(before, *seq) == 0 && has_reply(before, *seq),
        What::ResumeOk(seq, _) => has_reply(before, *seq),
        What::ResumeFault(seq, Reason::ChannelClosed) => has_failed(before, *seq),
        What::ResumeFault(seq, _) => has_reply(before, *seq),
        _ => true,
    }
}

/// Returns whether a request makes a promise.
fn wants_reply(schema: &Schema, number: u32) -> bool
    requires { IsSound schema.now }
{
    match schema.message(number) {
        None => false,
        Some(row) => row.returns.is_some(),
    }
}

/// Returns whether all promises are settled if an event closes the end.
fn all_settled(schema: &Schema, lines: &[Line]) -> bool
    requires { IsSound schema.now }
{
    let mut closed = false;
    for line in lines {
        closed = closed || is_closing(&line.what);
    }
    for line in lines {
        if let What::Send(seq, _, number, _) = &line.what {
            if closed && wants_reply(schema, *number) && settled(lines, *seq) != 1 {
                return false;
            }
        }
    }
    true
}

/// Returns whether lines of one end obey the law.
pub fn is_alone(schema: &Schema, lines: &[Line]) -> bool
    requires { IsSound schema.now }
{
    for (place, line) in lines.iter().enumerate() {
        let (before, _) = lines.split_at(place);
        if !has_cause(before, &line.what) {
            return false;
        }
    }
    all_settled(schema, lines)
}
