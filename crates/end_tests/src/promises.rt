//! Tests of the promises of an end.
ghost use Rattle.std.specs.Prelude.{◌≡◌, []};

use super::checks::{check, push_three};
use super::parts::{Case, told};
use super::schemas::{ASK, TOP};
use end_parts::PromiseEntries;
use ipdl_base::{Body, Message, Reason, Values};
use promise_table::Outcome;
use std::alloc::AllocError;
use std::test::Fail;

/// Whether a promise was made for the reply without values to the request of a number.
fn is_promised(promises: &PromiseEntries, seq: i32) -> bool {
    let reply = Message {
        route: TOP,
        number: ASK + 1,
        seq,
        transaction: 0,
        made: 0,
        body: Body::Reply(Values::Nothing),
    };
    promises.is_promised(&reply)
}

/// Makes three promises, of which the second is of another actor.
fn make_three(promises: &mut PromiseEntries) -> Result<(), AllocError>
    requires { promises.old ≡ [] }
{
    promises.make(1, TOP, ASK)?;
    promises.make(2, 6, ASK)?;
    promises.make(3, TOP, ASK)
}

/// Settles the first promise, and the same once more.
fn settle_twice(promises: &mut PromiseEntries) -> (bool, bool) {
    let now = promises.settle(1, Outcome::Resolved(Values::Nothing));
    let again = promises.settle(1, Outcome::Rejected(Reason::HandlerRejected));
    (now, again)
}

/// Rejects the promise of the actor 6, and twice the next one.
fn reject_three(promises: &mut PromiseEntries) -> [Option<i32>; 3] {
    let of_actor = promises.reject_next_of(6, Reason::ActorDestroyed);
    let next = promises.reject_next(Reason::ChannelClosed);
    let over = promises.reject_next(Reason::ChannelClosed);
    [of_actor, next, over]
}

/// Three promises, of which one is settled and two are rejected.
pub fn three_promises(promises: &mut PromiseEntries, log: &mut String) -> Result<(), AllocError>
    requires { promises.old ≡ [] }
{
    make_three(promises)?;
    let (promised, stray) = (is_promised(promises, 3), is_promised(promises, 2));
    let (now, again) = settle_twice(promises);
    let rejected = reject_three(promises);
    write!(log, "{promised} {stray}, {now} {again}, ")?;
    push_three(log, rejected)
}

#[test]
fn promises_of_an_end(rt: HostRuntime) -> Result<(), Fail> {
    let found = told(rt.alloc(), &[Case::ThreePromises])?;
    check(&rt, found.as_str(), "true false, true false, 2 3 none\n");
    Ok(())
}
