//! Requests as they are sent: their numbers, their lines, and the waits and promises that they
//! leave.
ghost use Rattle.std.specs.Prelude.{◌≡◌, ◌≢◌, ◌+◌, ◌<◌, ◌≤◌, pos, true, if◌then◌else◌, length, IfOk, OnOk, OnErr};
ghost use Rattle.std.specs.List.{AllByRecursion};
ghost use Rattle.ipdl_base.specs.declared.message.Body.TheVariants.{Request};
ghost use Rattle.ipdl_base.specs.Plain.{plain_body, plain_message, plain_values};
ghost use Rattle.nesting_core.specs.Deferral.{transaction_of};
ghost use Rattle.channel_model.specs.Numbers.{seq_of, id_of, is_constructor, is_sync_row};
ghost use Rattle.channel_model.specs.Sends.{send_line};
ghost use Rattle.end_parts.specs.PlainLines.{plain_what};
ghost use Rattle.end_steps.specs.SentRequests.{promises_after, stack_after, values_carried};
ghost use Rattle.end_parts.specs.StackDetails.{frames_in};

use end_parts::{PromiseEntries, StackEntries};
use ipdl_base::{Body, Kind, Message, MessageRow, Semantics, Side, Values, What};
use nesting_core::Head;
use std::alloc::{AllocError, Global};

/// Returns the number of the `k`-th request of a side.
pub fn seq_of(side: Side, k: u32) -> i32
    requires { k ≤ 268435456 }
    ensures { result ≡ seq_of side k }
{
    match side {
        Side::Parent => k as i32,
        Side::Child => -(k as i32),
    }
}

/// Returns the id of the `k`-th actor that a side constructs.
pub fn id_of(side: Side, k: u32) -> i32
    requires { k ≤ 536870911 }
    ensures { result ≡ id_of side k }
{
    match side {
        Side::Parent => (4 * k + 2) as i32,
        Side::Child => (4 * k) as i32,
    }
}

/// Whether a request of this kind makes an actor.
pub fn is_constructor(kind: Kind) -> bool
    ensures { result ≡ is_constructor kind }
{
    match kind {
        Kind::Constructor(_) => true,
        Kind::Normal | Kind::Delete => false,
    }
}

/// Returns the request that an end would send, by the numbers of requests and constructors that it
/// has sent. Fails only if memory runs out.
pub fn next_request(
    alloc: Global,
    side: Side,
    sent: u32,
    constructors_sent: u32,
    stack: &StackEntries,
    row: &MessageRow,
    route: i32,
    values: &Values,
) -> Result<Message, AllocError>
    requires few { sent < 268435456 }
    requires fewer { constructors_sent ≤ sent }
    ensures { IfOk result (λ m. plain_message m ≡ record {
      route = route;
      number = row.now.number;
      seq = seq_of side (sent + 1);
      transaction = if is_sync_row row.now then transaction_of (frames_in stack.now) (seq_of side (sent + 1)) else pos 0;
      made = if is_constructor row.now.kind then id_of side (constructors_sent + 1) else pos 0;
      body = Request (plain_values values.now);
    }) }
{
    let seq = seq_of(side, sent + 1);
    let transaction = if row.semantics == Semantics::Sync {
        stack.transaction(seq)
    } else {
        0
    };
    let made = if is_constructor(row.kind) {
        id_of(side, constructors_sent + 1)
    } else {
        0
    };
    Ok(Message {
        route,
        number: row.number,
        seq,
        transaction,
        made,
        body: Body::Request(values.copy(alloc)?),
    })
}

/// Returns the line of a request that is sent, with the values that it carries.
pub fn send_line(row: &MessageRow, message: Message) -> What
    ensures { plain_what result ≡ send_line row.now (plain_message message) (values_carried (plain_body message.body)) }
{
    let Message {
        route,
        number,
        seq,
        transaction,
        body,
        ..
    } = message;
    let values = values_carried(body);
    if row.semantics == Semantics::Sync {
        What::Call(seq, transaction, route, number, values)
    } else {
        What::Send(seq, route, number, values)
    }
}

// Returns the values that a request carries; no values of any other message.
fn values_carried(body: Body) -> Values
    ensures { result ≡ values_carried body }
{
    match body {
        Body::Request(values) => values,
        Body::Reply(_) | Body::Fault(_) | Body::Goodbye => Values::Nothing,
    }
}

/// Adds the wait of a sync request, or the promise of an async one with returns. If memory runs
/// out, nothing changes.
pub fn await_reply(
    row: &MessageRow,
    message: &Message,
    stack: &mut StackEntries,
    promises: &mut PromiseEntries,
) -> Result<(), AllocError>
    requires room { is_sync_row row.now ≡ true → length stack.old < 63 }
    requires free { AllByRecursion (λ e. e.promise.seq ≢ message.now.seq) promises.old }
    ensures stack { OnOk result (stack.new ≡ stack_after row.now message.now stack.old) }
    ensures promises { OnOk result (promises.new ≡ promises_after row.now message.now promises.old) }
    ensures same_stack { OnErr result (stack.new ≡ stack.old) }
    ensures same_promises { OnErr result (promises.new ≡ promises.old) }
{
    if row.semantics == Semantics::Sync {
        let head = Head {
            sync: true,
            level: row.level,
            seq: message.seq,
            transaction: message.transaction,
        };
        stack.push_wait(head, message.route, message.number);
        Ok(())
    } else if row.returns.is_some() {
        promises.make(message.seq, message.route, message.number)
    } else {
        Ok(())
    }
}
