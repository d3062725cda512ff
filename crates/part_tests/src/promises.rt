//! Tests of promises.
use super::checks::{check, cut};
use ipdl_base::{Reason, Values};
use promise_table::{Outcome, Promises, Settling};
use std::alloc::Global;
use std::process::Abort;
use std::test::Fail;

/// One promise: settled once, whatever comes later; another number was never made.
const A_PROMISE_IS_SETTLED_ONCE: &str = "settle -1 rejected: now
settle -1 rejected: already
settle -1 resolved: already
settle -2 rejected: unknown";

/// The oldest of an actor, and of all, comes first; what is settled is passed over.
const THE_OLDEST_IS_REJECTED_FIRST: &str = "settle -1 rejected: now
reject_of 4: -3
reject_of 12: none
reject_all: -2
reject_of 8: none
reject_all: -4
reject_all: none
settle -4 rejected: already";

/// The promise -1 of the actor 4.
fn one(alloc: Global) -> Result<Promises, Fail> {
    let mut promises = Promises::new(alloc)?;
    promises.make(-1, 4)?;
    Ok(promises)
}

/// Promises -1 to -4 of the actors 4, 8, 4 and 4.
fn four(alloc: Global) -> Result<Promises, Fail> {
    let mut promises = Promises::new(alloc)?;
    promises.make(-1, 4)?;
    promises.make(-2, 8)?;
    promises.make(-3, 4)?;
    promises.make(-4, 4)?;
    Ok(promises)
}

/// Settles the promise of a number with an outcome.
fn settle(promises: &mut Promises, argument: &str) -> Result<&'static str, Fail> {
    let (seq, word) = cut(argument, " ");
    let seq = seq.parse::<i32>()?;
    let outcome = match word {
        "resolved" => Outcome::Resolved(Values::Nothing),
        _ => Outcome::Rejected(Reason::HandlerRejected),
    };
    match promises.settle(seq, outcome) {
        Settling::Now => Ok("now"),
        Settling::Already => Ok("already"),
        Settling::Unknown => Ok("unknown"),
    }
}

fn seq_text(alloc: Global, seq: Option<i32>) -> Result<String, Fail> {
    match seq {
        None => Ok(String::from_str(alloc, "none")?),
        Some(seq) => Ok(format!(in alloc; "{seq}")?),
    }
}

/// Makes a call and writes its result.
fn answer(alloc: Global, promises: &mut Promises, call: &str) -> Result<String, Fail> {
    let (word, argument) = cut(call, " ");
    match word {
        "reject_of" => {
            let actor = argument.parse::<i32>()?;
            seq_text(alloc, promises.reject_of(actor, Reason::ActorDestroyed))
        }
        "reject_all" => seq_text(alloc, promises.reject_all(Reason::ChannelClosed)),
        _ => Ok(String::from_str(alloc, settle(promises, argument)?)?),
    }
}

/// Makes the calls of the lines `CALL: ANSWER`.
fn run(rt: &impl Abort, alloc: Global, mut promises: Promises, lines: &str) -> Result<(), Fail> {
    for line in lines.split("\n") {
        let (call, wanted) = cut(line, ": ");
        let found = answer(alloc, &mut promises, call)?;
        check(rt, line, found.as_str(), wanted);
    }
    Ok(())
}

#[test]
fn a_promise_is_settled_once(rt: HostRuntime) -> Result<(), Fail> {
    let alloc = rt.alloc();
    run(&rt, alloc, one(alloc)?, A_PROMISE_IS_SETTLED_ONCE)
}

#[test]
fn the_oldest_is_rejected_first(rt: HostRuntime) -> Result<(), Fail> {
    let alloc = rt.alloc();
    run(&rt, alloc, four(alloc)?, THE_OLDEST_IS_REJECTED_FIRST)
}
