//! Whether lines can be read.
ghost use Rattle.std.specs.Prelude.{◌≡◌};
ghost use Rattle.ipdl_base.specs.Sound.{IsSound};
ghost use Rattle.ipdl_base.specs.Lines.{same_side};
ghost use Rattle.history_reading.specs.Holds as the;
ghost use Rattle.history_reading.specs.Readings.{reading_view};

use history_reading::{CallFrame, CallStack, Reading, is_request_number};
use ipdl_base::{Line, Schema, Side, What, is_effect};

/// Whether the dispatch of a request is on top.
fn is_dispatch_on_top(stack: &CallStack, n: i32) -> bool
    ensures { result ≡ the.is_dispatch_on_top stack.now n }
{
    match stack.top() {
        Some(CallFrame::Dispatch(handled)) => handled.seq == n,
        _ => false,
    }
}

/// Whether the answered wait of a call is on top.
fn is_answer_on_top(stack: &CallStack, n: i32) -> bool
    ensures { result ≡ the.is_answer_on_top stack.now n }
{
    match stack.top() {
        Some(CallFrame::Answered(call)) => call.seq == n,
        _ => false,
    }
}

/// Whether the content of a line can be read.
fn is_readable_what(schema: &Schema, stack: &CallStack, what: &What) -> bool
    requires { IsSound schema.now }
    ensures { result ≡ the.is_readable_what schema.now stack.now what.now }
{
    match what {
        What::Send(_, _, number, _)
        | What::Call(_, _, _, number, _)
        | What::RefusedSend(_, number)
        | What::Take(_, _, number, _)
        | What::Drop(_, _, number, _) => is_request_number(schema, *number),
        What::Return(n) => is_dispatch_on_top(stack, *n),
        What::ResumeOk(n, _) | What::ResumeFault(n, _) => is_answer_on_top(stack, *n),
        _ => true,
    }
}

/// Whether both are the same end.
pub fn same_side(a: Side, b: Side) -> bool
    ensures { result ≡ same_side a b }
{
    matches!(
        (a, b),
        (Side::Parent, Side::Parent) | (Side::Child, Side::Child)
    )
}

/// Whether an end is the one of the last event.
fn is_of_event(side: Side, last: Option<Side>) -> bool
    ensures { result ≡ the.is_of_event side last }
{
    match last {
        Some(last) => same_side(last, side),
        None => false,
    }
}

/// Whether a line can be read after what was read before it.
#[tactic(auto, unfolding(history_reading::specs::Holds::is_readable))]
pub fn is_readable(schema: &Schema, reading: &Reading<'_>, line: &Line) -> bool
    requires { IsSound schema.now }
    ensures { result ≡ the.is_readable schema.now (reading_view reading.now) line.now }
{
    let follows = !is_effect(&line.what) || is_of_event(line.side, reading.last);
    let own = reading.end(line.side);
    follows && is_readable_what(schema, &own.stack, &line.what)
}
