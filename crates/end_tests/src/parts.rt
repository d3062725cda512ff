//! The parts of an end that cases are tried on. What owns much is destroyed field by field on each way out
//! of its function, so each part has one function that owns it and lends it to the next.
ghost use Rattle.std.specs.Prelude.{◌≡◌, []};
ghost use Rattle.ipdl_base.specs.Sound.{IsSound};

use super::checks::frame;
use super::schemas::the_schema;
use super::{closings, outputs, packets, promises, requests, stacks};
use end_parts::{EndOutput, PromiseEntries, StackEntries};
use ipdl_base::Schema;
use std::alloc::{AllocError, Global};
use std::test::Fail;

/// The cases.
#[derive(Clone, Copy)]
pub enum Case {
    CallUnderHandler,
    DeathUnderWaits,
    ReturnOfHandler,
    ThreePromises,
    TwoLazyRequests,
    Goodbye,
    LineAndMark,
    Rejection,
    Fall,
    Failure,
}

/// The results of the cases, each on a line of its own.
pub fn told(alloc: Global, cases: &[Case]) -> Result<String, AllocError> {
    let mut log = String::new(alloc);
    tell_all(alloc, cases, &mut log)?;
    Ok(log)
}

fn tell_all(alloc: Global, cases: &[Case], log: &mut String) -> Result<(), AllocError> {
    for case in cases {
        tell(alloc, *case, log)?;
        log.push('\n')?;
    }
    Ok(())
}

/// Tries a case on new parts, and appends the results.
fn tell(alloc: Global, case: Case, log: &mut String) -> Result<(), AllocError> {
    let mut promises = PromiseEntries::new(alloc)?;
    let done = tell_with_promises(alloc, case, &mut promises, log);
    drop(promises);
    done
}

fn tell_with_promises(
    alloc: Global,
    case: Case,
    promises: &mut PromiseEntries,
    log: &mut String,
) -> Result<(), AllocError>
    requires { promises.old ≡ [] }
{
    let mut stack = StackEntries::new(alloc)?;
    let done = tell_with_stack(alloc, case, promises, &mut stack, log);
    drop(stack);
    done
}

fn tell_with_stack(
    alloc: Global,
    case: Case,
    promises: &mut PromiseEntries,
    stack: &mut StackEntries,
    log: &mut String,
) -> Result<(), AllocError>
    requires no_promise { promises.old ≡ [] }
    requires no_frame { stack.old ≡ [] }
{
    match case {
        Case::CallUnderHandler => stacks::call_under_handler(stack, log),
        Case::DeathUnderWaits => stacks::death_under_waits(stack, log),
        Case::ReturnOfHandler => stacks::return_of_handler(stack, log),
        Case::ThreePromises => promises::three_promises(promises, log),
        _ => tell_with_output(alloc, case, promises, stack, log),
    }
}

fn tell_with_output(
    alloc: Global,
    case: Case,
    promises: &mut PromiseEntries,
    stack: &mut StackEntries,
    log: &mut String,
) -> Result<(), AllocError>
    requires no_promise { promises.old ≡ [] }
    requires no_frame { stack.old ≡ [] }
{
    let goodbye = frame(alloc, "99")?;
    let mut out = EndOutput::new(alloc, goodbye)?;
    let done = match case {
        Case::TwoLazyRequests => outputs::two_lazy_requests(alloc, &mut out, log),
        Case::Goodbye => outputs::goodbye(alloc, &mut out, log),
        Case::LineAndMark => outputs::line_and_mark(alloc, &mut out, log),
        Case::Rejection => closings::rejection(alloc, promises, &mut out, log),
        Case::Fall => closings::fall(alloc, promises, &mut out, log),
        Case::Failure => closings::failure(alloc, stack, &mut out, log),
        _ => Ok(()),
    };
    drop(out);
    done
}

/// What is tried under the one schema.
#[derive(Clone, Copy)]
pub enum SchemaCase {
    Packets,
    Messages,
}

fn tell_of_schema(
    alloc: Global,
    case: SchemaCase,
    schema: &Schema,
    log: &mut String,
) -> Result<(), AllocError>
    requires { IsSound schema.now }
{
    match case {
        SchemaCase::Packets => packets::tell(alloc, schema, log),
        SchemaCase::Messages => requests::tell(alloc, schema, log),
    }
}

/// The results of a case under the one schema.
pub fn told_of_schema(alloc: Global, case: SchemaCase) -> Result<String, Fail> {
    let schema = the_schema(alloc)?;
    let mut log = String::new(alloc);
    let done = tell_of_schema(alloc, case, &schema, &mut log);
    drop(schema);
    done?;
    Ok(log)
}
