//! The stacks of worked runs. Each expected value is that of the run, whose lines the comments name.

use super::checks::{check, cut};
use ipdl_base::{Level, Reason, SendRefusal, Side, Values};
use nesting_core::{Answer, Head, PoppedFrame, SendHead, Stack, StackTop};
use std::alloc::Global;
use std::process::Abort;
use std::test::Fail;

/// Both ends call at once: the parent defers the child's call, and the child serves the parent's.
const BOTH_CALL_AT_ONCE: &str = "parent transaction 1: 1
child transaction -1: -1
parent push_wait call 1/1: pushed
child push_wait call -1/-1: pushed
parent defers call -1/-1: true
child defers call 1/1: false
child push_dispatch call 1/1: pushed
child top: dispatch call 1/1
child awaited: -1
child pop: dispatch call 1/1
child pop: none
child len: 1
parent answer -1: false
parent answer 1: true
parent top: answered call 1/1
parent has_wait: true
parent defers call -1/-1: false
parent pop: wait call 1/1 ok
parent top: empty
parent has_wait: false
child clear: 0
child len: 0";

/// Four nested calls on one transaction beside a base call of the child: each call has the number of
/// the first as its transaction, so neither end defers it, and the base call stays deferred.
const FOUR_CALLS_ON_ONE_TRANSACTION: &str = "child push_wait base -1/-1: pushed
parent transaction 1: 1
child defers call 1/1: false
parent refusal call: none
parent push_wait call 1/1: pushed
child push_dispatch call 1/1: pushed
parent defers base -1/-1: true
child transaction -2: 1
parent defers call -2/1: false
child refusal call: none
child push_wait call -2/1: pushed
parent push_dispatch call -2/1: pushed
parent transaction 2: 1
child defers call 2/1: false
parent refusal call: none
parent push_wait call 2/1: pushed
child push_dispatch call 2/1: pushed
child transaction -3: 1
parent defers call -3/1: false
child refusal call: none
child push_wait call -3/1: pushed
parent push_dispatch call -3/1: pushed
parent awaited: 2
parent defers base -1/-1: false
child defers call 3/3: false";

/// A reply that comes under a handler goes into the wait below it.
const REPLY_UNDER_A_HANDLER: &str = "parent push_wait call 1/1: pushed
parent defers poke -1/0: false
parent push_dispatch poke -1/0: pushed
parent answer 1: true
parent awaited: none
parent top: dispatch poke -1/0
parent pop: dispatch poke -1/0
parent top: answered call 1/1";

/// The peer dies under two waits: the innermost fails first.
const DEATH_UNDER_NESTED_WAITS: &str = "parent push_wait call 1/1: pushed
parent push_dispatch call -1/1: pushed
parent push_wait call 2/1: pushed
parent top: unanswered call 2/1
parent fail_next: 2
parent fail_next: 1
parent fail_next: none
parent pop: wait call 2/1 ChannelClosed
parent pop: dispatch call -1/1
parent pop: wait call 1/1 ChannelClosed
parent pop: none";

/// Each cause where it is the first that holds, and where none holds.
const REFUSALS: &str = "parent push_dispatch base -1/-1: pushed
parent refusal call: NestedInNormal
parent refusal async call: none

parent push_dispatch poke -1/0: pushed
parent refusal call: InsideCpow
parent refusal async call: none

parent push_dispatch call 1/1: pushed
parent refusal base: LevelTooLow
parent refusal async base: none

parent push_dispatch base -1/-1: pushed
parent push_dispatch poke -2/0: pushed
parent refusal call: NestedInNormal
parent refusal async call: none

parent push_dispatch call 1/1: pushed
parent push_dispatch poke -2/0: pushed
parent refusal base: InsideCpow
parent refusal async base: none

parent push_dispatch call 1/1: pushed
parent refusal call: none
parent refusal async call: none

parent refusal base: none
parent refusal async base: none";

/// The level of a message of this kind: a call, a base call, or else a poke.
fn level_of(kind: &str) -> Level {
    match kind {
        "call" => Level::InsideSync,
        "base" => Level::Not,
        _ => Level::InsideCpow,
    }
}

/// The head that a text spells: a sync message of level `inside_sync` is a call and one of level `not`
/// a base call, and an async message of level `inside_cpow` is a poke.
fn head_of(text: &str) -> Result<Head, Fail> {
    let (kind, numbers) = cut(text, " ");
    let (seq, transaction) = cut(numbers, "/");
    Ok(Head {
        sync: kind != "poke",
        level: level_of(kind),
        seq: seq.parse::<i32>()?,
        transaction: transaction.parse::<i32>()?,
    })
}

fn kind_text(head: Head) -> &'static str {
    match (head.sync, head.level) {
        (true, Level::InsideSync) => "call",
        (true, Level::Not) => "base",
        (false, Level::InsideCpow) => "poke",
        _ => "other",
    }
}

/// A word, a head, and the rest.
fn head_text(alloc: Global, word: &str, head: Head, end: &str) -> Result<String, Fail> {
    let kind = kind_text(head);
    let Head {
        seq,
        transaction,
        ..
    } = head;
    Ok(format!(in alloc; "{word} {kind} {seq}/{transaction}{end}")?)
}

fn top_text(alloc: Global, top: StackTop) -> Result<String, Fail> {
    match top {
        StackTop::Empty => Ok(String::from_str(alloc, "empty")?),
        StackTop::Dispatch(head) => head_text(alloc, "dispatch", head, ""),
        StackTop::Unanswered(head) => head_text(alloc, "unanswered", head, ""),
        StackTop::Answered(head) => head_text(alloc, "answered", head, ""),
    }
}

fn answer_text(answer: &Answer) -> &'static str {
    match answer {
        Answer::Ok(Values::Nothing) => " ok",
        Answer::Fault(Reason::ChannelClosed) => " ChannelClosed",
        _ => " other",
    }
}

fn popped_text(alloc: Global, popped: Option<PoppedFrame>) -> Result<String, Fail> {
    match popped {
        None => Ok(String::from_str(alloc, "none")?),
        Some(PoppedFrame::Dispatch(head)) => head_text(alloc, "dispatch", head, ""),
        Some(PoppedFrame::Wait(head, answer)) => head_text(
            alloc,
            "wait",
            head,
            answer_text(&answer),
        ),
    }
}

/// Returns the word for a refusal, or `none`.
fn refusal_text(refusal: Option<SendRefusal>) -> &'static str {
    match refusal {
        None => "none",
        Some(SendRefusal::NestedInNormal) => "NestedInNormal",
        Some(SendRefusal::InsideCpow) => "InsideCpow",
        Some(SendRefusal::LevelTooLow) => "LevelTooLow",
        Some(SendRefusal::TooDeep) => "TooDeep",
        Some(_) => "other",
    }
}

/// Why a message is not sent, of this kind, or an async one of the level of that.
fn refusal(stack: &Stack, argument: &str) -> &'static str {
    let (word, kind) = cut(argument, " ");
    let send = SendHead {
        sync: word != "async",
        level: level_of(if word == "async" { kind } else { word }),
    };
    refusal_text(stack.refusal(&send))
}

fn push(stack: &mut Stack, word: &str, head: Head) -> &'static str {
    if stack.len() >= 63 {
        return "full";
    }
    if word == "push_wait" {
        stack.push_wait(head);
    } else {
        stack.push_dispatch(head);
    }
    "pushed"
}

fn bool_text(holds: bool) -> &'static str {
    if holds { "true" } else { "false" }
}

/// A call whose answer is a word.
fn word_answer(stack: &mut Stack, side: Side, call: &str) -> Result<&'static str, Fail> {
    let (word, argument) = cut(call, " ");
    match word {
        "has_wait" => Ok(bool_text(stack.has_wait())),
        "answer" => {
            let seq = argument.parse::<i32>()?;
            Ok(bool_text(stack.answer(seq, Answer::Ok(Values::Nothing))))
        }
        "defers" => Ok(bool_text(stack.defers(side, &head_of(argument)?))),
        "refusal" => Ok(refusal(stack, argument)),
        _ => Ok(push(stack, word, head_of(argument)?)),
    }
}

fn number_text(alloc: Global, number: Option<i32>) -> Result<String, Fail> {
    match number {
        None => Ok(String::from_str(alloc, "none")?),
        Some(number) => Ok(format!(in alloc; "{number}")?),
    }
}

fn len_text(alloc: Global, stack: &Stack) -> Result<String, Fail> {
    Ok(format!(in alloc; "{}", stack.len())?)
}

/// Makes a call and writes its result.
fn answer(alloc: Global, stack: &mut Stack, side: Side, call: &str) -> Result<String, Fail> {
    let (word, argument) = cut(call, " ");
    match word {
        "top" => top_text(alloc, stack.top()),
        "pop" => popped_text(alloc, stack.pop()),
        "awaited" => number_text(alloc, stack.awaited()),
        "fail_next" => number_text(alloc, stack.fail_next()),
        "transaction" => { number_text(alloc, Some(stack.transaction(argument.parse::<i32>()?))) }
        "len" => len_text(alloc, stack),
        "clear" => {
            stack.clear();
            len_text(alloc, stack)
        }
        _ => Ok(String::from_str(alloc, word_answer(stack, side, call)?)?),
    }
}

/// Makes the call of a line `END CALL: ANSWER` on the stack of that end.
fn step(
    rt: &impl Abort,
    alloc: Global,
    parent: &mut Stack,
    child: &mut Stack,
    line: &str,
) -> Result<(), Fail> {
    let (given, wanted) = cut(line, ": ");
    let (end, call) = cut(given, " ");
    let found = match end {
        "parent" => answer(alloc, parent, Side::Parent, call)?,
        _ => answer(alloc, child, Side::Child, call)?,
    };
    check(rt, line, found.as_str(), wanted);
    Ok(())
}

/// Makes the calls of the lines on the empty stacks of both ends.
fn run(rt: &impl Abort, alloc: Global, lines: &str) -> Result<(), Fail> {
    let mut parent = Stack::new();
    let mut child = Stack::new();
    for line in lines.split("\n") {
        step(rt, alloc, &mut parent, &mut child, line)?;
    }
    Ok(())
}

#[test]
fn both_call_at_once(rt: HostRuntime) -> Result<(), Fail> {
    run(&rt, rt.alloc(), BOTH_CALL_AT_ONCE)
}

#[test]
fn four_calls_on_one_transaction(rt: HostRuntime) -> Result<(), Fail> {
    run(&rt, rt.alloc(), FOUR_CALLS_ON_ONE_TRANSACTION)
}

#[test]
fn reply_under_a_handler(rt: HostRuntime) -> Result<(), Fail> {
    run(&rt, rt.alloc(), REPLY_UNDER_A_HANDLER)
}

#[test]
fn death_under_nested_waits(rt: HostRuntime) -> Result<(), Fail> {
    run(&rt, rt.alloc(), DEATH_UNDER_NESTED_WAITS)
}

#[test]
fn refusals(rt: HostRuntime) -> Result<(), Fail> {
    for lines in REFUSALS.split("\n\n") {
        run(&rt, rt.alloc(), lines)?;
    }
    Ok(())
}

/// Sends a call on the transaction 1, where the sender does not refuse it, and handles it.
fn call_across(sender: &mut Stack, receiver: &mut Stack, seq: i32) {
    let head = Head {
        sync: true,
        level: Level::InsideSync,
        seq,
        transaction: 1,
    };
    if refusal(sender, "call") == "none" && sender.len() < 63 && receiver.len() < 64 {
        sender.push_wait(head);
        receiver.push_dispatch(head);
    }
}

/// Calls back and forth until the next is refused: the number of frames at each end, why the child
/// refuses the next, and whether it still has room for a dispatch.
fn nest(alloc: Global) -> Result<String, Fail> {
    let mut parent = Stack::new();
    let mut child = Stack::new();
    for round in 0..40 {
        call_across(&mut parent, &mut child, round + 1);
        call_across(&mut child, &mut parent, -1 - round);
    }
    let (parents, children) = (parent.len(), child.len());
    let refusal = refusal(&child, "call");
    if children < 64 {
        child.push_dispatch(Head {
            sync: false,
            level: Level::InsideCpow,
            seq: 1,
            transaction: 0,
        });
    }
    Ok(format!(in alloc; "{parents} {children} {refusal} {}", child.len())?)
}

/// Calls back and forth on one transaction: 63 are made, each a frame at each end, and the next, of
/// the child, is refused. A dispatch still has room.
#[test]
fn calls_nest_63_deep(rt: HostRuntime) -> Result<(), Fail> {
    let found = nest(rt.alloc())?;
    check(&rt, "nested", found.as_str(), "63 63 TooDeep 64");
    Ok(())
}
