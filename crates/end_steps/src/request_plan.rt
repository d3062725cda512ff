//! What becomes of a request that is taken, planned before anything changes.
ghost use Rattle.std.specs.Prelude.{◌≡◌, true, find, IfOk};
ghost use Rattle.ipdl_base.specs.Plain.{plain_message, plain_values};
ghost use Rattle.ipdl_base.specs.Sound.{IsSound};
ghost use Rattle.pending_queue.specs.Compression.{is_request};
ghost use Rattle.pending_queue.specs.DeferralContext.{is_free, without_first};
ghost use Rattle.channel_model.specs.ValueActors.{nulled};
ghost use Rattle.value_types.specs.Fits.{Fits};
ghost use Rattle.end_steps.specs.RequestPlans.{IsCopyOfItem, IsFittingRequest, IsMessage, IsPlan, IsPlanOf, IsReplyItem, IsTakenMessage};

use crate::answer_packet::AnswerPacket;
use crate::built_actor::built_by;
use crate::taken_item::{copy_values, drop_packet, dropped_for};
use actor_tree::{Actor, Tree};
use end_parts::null_dead;
use ipdl_base::{Body, Message, MessageRow, Schema, Values};
use pending_queue::{DeferralContext, Item, Pending};
use std::alloc::{AllocError, Global};

/// What becomes of a request that is taken.
#[derive(Drop)]
pub enum RequestPlan {
    /// It is dropped for the actor of this id, with the answer that it is owed.
    Drop(i32, Option<AnswerPacket>),
    /// It is handled, with these values in its line, and builds this actor.
    Handle(Values, Option<Actor>),
}

// Returns what becomes of a request that is taken, with all that needs memory. Fails only if memory
// runs out.
fn plan_request(
    alloc: Global,
    schema: &Schema,
    is_open: bool,
    tree: &Tree,
    message: &Message,
) -> Result<RequestPlan, AllocError>
    requires sound { IsSound schema.now }
    requires fits { Fits schema.now message.now }
    requires request { is_request message.now.body ≡ true }
    ensures { IfOk result (λ plan. IsPlan schema.now is_open tree.now (plain_message message.now) plan) }
{
    let Some(row) = schema.message(message.number) else {
        unreachable!();
    };
    let Body::Request(values) = &message.body else {
        unreachable!();
    };
    match dropped_for(schema, tree, row, message, values) {
        Some(id) => {
            let packet = drop_packet(alloc, schema, is_open, row, message)?;
            Ok(RequestPlan::Drop(id, packet))
        }
        None => {
            let shown = nulled_copy(alloc, schema, tree, row, values)?;
            Ok(RequestPlan::Handle(shown, built_by(row, message)))
        }
    }
}

// Returns a copy of the values of a request, with null for dead actors of nullable types. Fails
// only if memory runs out.
fn nulled_copy(
    alloc: Global,
    schema: &Schema,
    tree: &Tree,
    row: &MessageRow,
    values: &Values,
) -> Result<Values, AllocError>
    ensures { IfOk result (λ copy. plain_values copy ≡ nulled schema.now tree.now row.now.params (plain_values values.now)) }
{
    let mut copy = values.copy(alloc)?;
    null_dead(&mut copy, schema, tree, row.params.as_slice());
    Ok(copy)
}

/// Returns what becomes of the request that is taken next. Fails only if memory runs out.
pub fn plan_next(
    alloc: Global,
    schema: &Schema,
    is_open: bool,
    tree: &Tree,
    pending: &Pending,
    holding: &DeferralContext,
) -> Result<RequestPlan, AllocError>
    requires sound { IsSound schema.now }
    requires request { IsFittingRequest schema.now (find (is_free holding.now) pending.now.items) }
    ensures { IfOk result (λ plan. IsPlanOf schema.now is_open tree.now (find (is_free holding.now) pending.now.items) plan) }
{
    match pending.first(holding) {
        Some(Item::Message { message, .. }) => plan_request(alloc, schema, is_open, tree, message),
        _ => unreachable!(),
    }
}

/// Returns a copy of the values of the reply that is taken next, or `None` if it is a fault. Fails
/// only if memory runs out.
pub fn copy_next(
    alloc: Global,
    pending: &Pending,
    holding: &DeferralContext,
) -> Result<Option<Values>, AllocError>
    requires { IsReplyItem (find (is_free holding.now) pending.now.items) }
    ensures { IfOk result (λ copy. IsCopyOfItem (find (is_free holding.now) pending.now.items) copy) }
{
    match pending.first(holding) {
        Some(Item::Message { message, .. }) => copy_values(alloc, &message.body),
        _ => unreachable!(),
    }
}

/// Takes the oldest item that is not deferred, which is a message.
pub fn take_message(pending: &mut Pending, holding: &DeferralContext) -> Message
    requires { IsMessage (find (is_free holding.now) pending.old.items) }
    ensures taken { IsTakenMessage (find (is_free holding.now) pending.old.items) result }
    ensures rest { pending.new.items ≡ without_first (is_free holding.now) pending.old.items }
{
    match pending.take_first(holding) {
        Some(Item::Message { message, .. }) => message,
        _ => unreachable!(),
    }
}
