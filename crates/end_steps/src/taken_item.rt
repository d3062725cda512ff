//! What becomes of an item that is taken.
ghost use Rattle.std.specs.Prelude.{◌≡◌, ◌-◌, ◌<◌, if◌then◌else◌, map, option_map, Some, IfOk, IsSome};
ghost use Rattle.ipdl_base.specs.declared.message.Body.TheVariants as body;
ghost use Rattle.ipdl_base.specs.declared.kinds.Reason.TheVariants.{ActorDestroyed};
ghost use Rattle.ipdl_base.specs.Plain.{plain_body, plain_values};
ghost use Rattle.ipdl_base.specs.Sound.{IsSound};
ghost use Rattle.nesting_core.specs.Plain.{plain_answer};
ghost use Rattle.value_types.specs.Fits.{Fits};
ghost use Rattle.channel_model.specs.Outputs.{line_at, reply_to, request_answered};
ghost use Rattle.channel_model.specs.Takes.{is_awaited, outcome_of, settle_line, settled_entry};
ghost use Rattle.end_steps.specs.AnswerPackets.{answer_in, owed_if, IsAnswering, IsPacketFor, FitsOwed};
ghost use Rattle.end_parts.specs.CopiedAnswers.{values_of, IsCopied, IsCopyOf};
ghost use Rattle.end_parts.specs.PlainLines.{plain_what};
ghost use Rattle.end_steps.specs.TakenItems.{dropped_for_by, owed_by_drop, with_settling};

use crate::answer_packet::{AnswerPacket, fault_packet};
use actor_tree::Tree;
use end_parts::{
    ActorTest, AnsweredRequest, CopiedAnswer, EndOutput, PromiseEntries, first_actor, lives_as,
};
use ipdl_base::{Body, Line, Message, MessageRow, Reason, Schema, Semantics, Side, Values, What};
use nesting_core::Answer;
use promise_table::Outcome;
use std::alloc::{AllocError, Global};

/// Returns the id for which a request with these values is dropped: that of the actor that it went
/// to, or else the first one missing among its values. Returns `None` if the request is handled.
pub fn dropped_for(
    schema: &Schema,
    tree: &Tree,
    row: &MessageRow,
    message: &Message,
    values: &Values,
) -> Option<i32>
    ensures { result ≡ dropped_for_by schema.now tree.now row.now message.now values.now }
{
    if lives_as(tree, message.number / 65536, message.route) {
        first_actor(
            values,
            ActorTest::Missing,
            schema,
            tree,
            row.params.as_slice(),
        )
    } else {
        Some(message.route)
    }
}

/// Returns the answer to a request that is dropped, if it expects one and the end is open. Fails
/// only if memory runs out.
pub fn drop_packet(
    alloc: Global,
    schema: &Schema,
    is_open: bool,
    row: &MessageRow,
    message: &Message,
) -> Result<Option<AnswerPacket>, AllocError>
    requires sound { IsSound schema.now }
    requires number { message.now.number < 4294967295 }
    requires fits { FitsOwed schema.now (owed_by_drop row.now message.now) }
    ensures { IfOk result (λ packet. IsPacketFor schema.now (owed_if is_open (owed_by_drop row.now message.now)) packet) }
{
    if !is_open || !(row.semantics == Semantics::Sync || row.returns.is_some()) {
        return Ok(None);
    }
    let request = AnsweredRequest {
        seq: message.seq,
        route: message.route,
        number: message.number,
        transaction: message.transaction,
    };
    let packet = fault_packet(alloc, schema, &request, Reason::ActorDestroyed)?;
    Ok(Some(packet))
}

/// Returns a copy of the values of a reply, or `None` of any other body. Fails only if memory runs
/// out.
pub fn copy_values(alloc: Global, body: &Body) -> Result<Option<Values>, AllocError>
    requires { IsAnswering body.now }
    ensures { IfOk result (λ copy. option_map plain_values copy ≡ values_of (answer_in body.now)) }
{
    match body {
        Body::Reply(values) => Ok(Some(values.copy(alloc)?)),
        Body::Request(_) | Body::Fault(_) | Body::Goodbye => Ok(None),
    }
}

/// Returns the answer of a reply.
pub fn answer_of(body: Body) -> Answer
    requires { IsAnswering body }
    ensures { result ≡ answer_in body }
{
    match body {
        Body::Reply(values) => Answer::Ok(values),
        Body::Fault(reason) => Answer::Fault(reason),
        Body::Request(_) | Body::Goodbye => unreachable!(),
    }
}

// Returns an answer as the outcome of a promise.
fn outcome_of(answer: Answer) -> Outcome
    ensures { result ≡ outcome_of answer }
{
    match answer {
        Answer::Ok(values) => Outcome::Resolved(values),
        Answer::Fault(reason) => Outcome::Rejected(reason),
    }
}

// Returns the line of a promise that is settled by an answer, whose second copy is `copy`.
fn settle_line(seq: i32, answer: &Answer, copy: Option<Values>) -> What
    requires { IsCopyOf answer.now copy }
    ensures { plain_what result ≡ settle_line seq (outcome_of (plain_answer answer.now)) }
{
    match (answer, copy) {
        (Answer::Ok(_), Some(values)) => What::Resolved(seq, values),
        (Answer::Fault(reason), _) => What::Rejected(seq, *reason),
        (Answer::Ok(_), None) => unreachable!(),
    }
}

/// Settles the promise of a number by an answer if it is pending, and prints that. Otherwise
/// nothing changes. The line is among those that the end owes.
pub fn settle_promise(
    side: Side,
    seq: i32,
    given: CopiedAnswer,
    promises: &mut PromiseEntries,
    out: &mut EndOutput,
)
    requires copied { IsCopied given }
    requires line { 0 < out.old.line_spare }
    ensures promises { promises.new ≡ map (settled_entry seq (outcome_of (plain_answer given.answer))) promises.old }
    ensures out { out.new ≡ with_settling (is_awaited seq promises.old) side (settle_line seq (outcome_of (plain_answer given.answer))) out.old }
{
    let CopiedAnswer { answer, copy } = given;
    let what = settle_line(seq, &answer, copy);
    if promises.settle(seq, outcome_of(answer)) {
        out.push_line(Line { side, what });
        out.pay(1);
    }
}
