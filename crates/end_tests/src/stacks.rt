//! Tests of the stack of an end.
ghost use Rattle.std.specs.Prelude.{◌≡◌, []};

use super::checks::{answer_text, check, push_three, refusal_text, top_text};
use super::parts::{Case, told};
use super::schemas::{ASK, CALL, TOP};
use end_parts::{CopiedAnswer, DispatchEntry, StackEntries};
use ipdl_base::{Body, Level, Message, Reason, Values};
use nesting_core::{Answer, Head, SendHead};
use std::alloc::AllocError;
use std::test::Fail;

/// The head of a sync message of level `inside_sync`.
pub fn head_of(seq: i32) -> Head
    ensures { result.seq ≡ seq }
{
    Head {
        sync: true,
        level: Level::InsideSync,
        seq,
        transaction: seq,
    }
}

/// Whether the innermost call waits for the reply without values to the call of a number.
fn waits_for(stack: &StackEntries, seq: i32) -> bool {
    let reply = Message {
        route: TOP,
        number: CALL + 1,
        seq,
        transaction: seq,
        made: 0,
        body: Body::Reply(Values::Nothing),
    };
    stack.is_waited_for(&reply)
}

/// Appends what the calls of a stack return, before it changes.
#[derive(Clone, Copy)]
struct StackReport {
    top: &'static str,
    has_wait: bool,
    refusal: &'static str,
    transaction: i32,
}

fn shown(stack: &StackEntries) -> StackReport {
    let send = SendHead {
        sync: true,
        level: Level::InsideSync,
    };
    StackReport {
        top: top_text(stack.top()),
        has_wait: stack.has_wait(),
        refusal: refusal_text(stack.refusal(&send)),
        transaction: stack.transaction(9),
    }
}

fn push_shown(log: &mut String, shown: StackReport) -> Result<(), AllocError> {
    let StackReport {
        top,
        has_wait,
        refusal,
        transaction,
    } = shown;
    write!(log, "{top} {has_wait} {refusal} {transaction}")
}

/// Appends what was on top, where it was a dispatch.
fn push_dispatch(log: &mut String, entry: Option<DispatchEntry>) -> Result<(), AllocError> {
    match entry {
        None => log.push_str("none, "),
        Some(entry) => write!(
            log,
            "{} {} {}, ",
            entry.head.seq, entry.number, entry.resolves
        ),
    }
}

/// A call that resumed.
#[derive(Clone, Copy)]
struct Resumed {
    seq: i32,
    number: u32,
    answer: &'static str,
}

/// Resumes a call, if one may.
fn resume(stack: &mut StackEntries) -> Option<Resumed> {
    let call = stack.take_answered()?;
    let (seq, number) = (call.seq, call.number);
    let answer = answer_text(&call.given.answer);
    Some(Resumed {
        seq,
        number,
        answer,
    })
}

/// Appends a call that resumed, and what the stack returned then.
fn push_resumed(
    log: &mut String,
    call: Option<Resumed>,
    left: StackReport,
) -> Result<(), AllocError> {
    match call {
        None => log.push_str("none, ")?,
        Some(call) => write!(log, "{} {} {}, ", call.seq, call.number, call.answer)?,
    }
    push_shown(log, left)
}

/// A call under a handler: it is answered, and then resumes.
pub fn call_under_handler(stack: &mut StackEntries, log: &mut String) -> Result<(), AllocError>
    requires { stack.old ≡ [] }
{
    stack.push_dispatch(head_of(-1), TOP, ASK, true);
    push_dispatch(log, stack.dispatch_on_top())?;
    stack.release(-1);
    push_dispatch(log, stack.dispatch_on_top())?;
    stack.push_wait(head_of(1), TOP, CALL);
    push_shown(log, shown(stack))?;
    let (mine, other) = (waits_for(stack, 1), waits_for(stack, 2));
    write!(log, ", {mine} {other}, ")?;
    stack.answer_wait(
        1,
        CopiedAnswer {
            answer: Answer::Fault(Reason::ActorDestroyed),
            copy: None,
        },
    );
    let resumed = resume(stack);
    push_resumed(log, resumed, shown(stack))
}

/// The other end dies under two waits.
pub fn death_under_waits(stack: &mut StackEntries, log: &mut String) -> Result<(), AllocError>
    requires { stack.old ≡ [] }
{
    stack.push_wait(head_of(1), TOP, CALL);
    stack.push_wait(head_of(2), TOP, CALL);
    let failed = [stack.fail_next(), stack.fail_next(), stack.fail_next()];
    let resumed = resume(stack);
    stack.clear();
    push_three(log, failed)?;
    log.push_str(", ")?;
    push_resumed(log, resumed, shown(stack))
}

/// A handler that returns.
pub fn return_of_handler(stack: &mut StackEntries, log: &mut String) -> Result<(), AllocError>
    requires { stack.old ≡ [] }
{
    stack.push_dispatch(head_of(-1), TOP, ASK, false);
    stack.pop_dispatch();
    push_shown(log, shown(stack))
}

#[test]
fn stacks_of_an_end(rt: HostRuntime) -> Result<(), Fail> {
    let cases = [
        Case::CallUnderHandler,
        Case::DeathUnderWaits,
        Case::ReturnOfHandler,
    ];
    let found = told(rt.alloc(), &cases)?;
    check(
        &rt,
        found.as_str(),
        "-1 65538 true, -1 65538 false, unanswered true none 1, true false, 1 65540 ActorDestroyed, dispatch false none -1
2 1 none, 2 65540 ChannelClosed, empty false none 9
empty false none 9
",
    );
    Ok(())
}
