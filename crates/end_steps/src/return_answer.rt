//! The answers that returning handlers send.
ghost use Rattle.std.specs.Prelude.{◌≡◌, ◌<◌, option_map, Some, IfOk};
ghost use Rattle.ipdl_base.specs.Plain.{plain_message, plain_values};
ghost use Rattle.ipdl_base.specs.Sound.{IsSound};
ghost use Rattle.value_types.specs.Fits.{Fits};
ghost use Rattle.channel_model.specs.Outputs.{body_of, reply_to};
ghost use Rattle.end_steps.specs.AnswerPackets.{answer_by_values, lost_resolver, return_answer_by, owed_by_return, owed_if, IsPacketFor, FitsOwed};
ghost use Rattle.channel_model.specs.Returns.{dispatch_answered};
ghost use Rattle.end_parts.specs.Replies.{answered_of};
ghost use Rattle.end_parts.specs.StackDetails.{dispatch_entry};

use crate::answer_packet::{AnswerPacket, fault_packet, packet_of_reply};
use crate::refusals::values_refusal;
use actor_tree::Tree;
use end_parts::{AnsweredRequest, DispatchEntry, reply_to};
use ipdl_base::{Body, Message, MessageRow, Reason, Schema, Semantics, Values, returns_of_row};
use std::alloc::{AllocError, Global};
use value_types::boxes_say_nothing;

// Returns the reply by the values that a handler gave. Values that are too large or contain a dead
// actor give a rejection, as no values do. Fails only if memory runs out.
fn reply_by_values(
    alloc: Global,
    schema: &Schema,
    tree: &Tree,
    row: &MessageRow,
    request: &AnsweredRequest,
    values: Option<&Values>,
) -> Result<Message, AllocError>
    requires sound { IsSound schema.now }
    requires number { request.now.number < 4294967295 }
    ensures { IfOk result (λ m. plain_message m
        ≡ reply_to (answered_of request.now)
        (body_of (answer_by_values schema.now tree.now row.now (answered_of request.now)
        (option_map (λ vs. plain_values vs.now) values.entry)))) }
{
    boxes_say_nothing();
    match values {
        None => Ok(reply_to(request, Body::Fault(Reason::HandlerRejected))),
        Some(values) => {
            let reply = reply_to(request, Body::Reply(values.copy(alloc)?));
            if values_refusal(schema, tree, returns_of_row(row), &reply, values).is_some() {
                Ok(reply_to(request, Body::Fault(Reason::HandlerRejected)))
            } else {
                Ok(reply)
            }
        }
    }
}

// Returns the reply to a sync request whose handler returns. Fails only if memory runs out.
fn sync_reply(
    alloc: Global,
    schema: &Schema,
    tree: &Tree,
    row: &MessageRow,
    request: &AnsweredRequest,
    values: Option<&Values>,
) -> Result<Message, AllocError>
    requires sound { IsSound schema.now }
    requires number { request.now.number < 4294967295 }
    ensures { IfOk result (λ m. plain_message m
        ≡ reply_to (answered_of request.now)
        (body_of (return_answer_by schema.now tree.now row.now (answered_of request.now)
        (option_map (λ vs. plain_values vs.now) values.entry)))) }
{
    if row.returns.is_none() {
        Ok(reply_to(request, Body::Reply(Values::Nothing)))
    } else {
        reply_by_values(alloc, schema, tree, row, request, values)
    }
}

/// Returns the packet that is sent when the handler of a dispatch returns these values, or none:
/// the answer to a sync request, or the fault ResolverDestroyed if the resolver of an async one was
/// neither used nor kept. No packet is sent if the end is not open. Fails only if memory runs out.
pub fn return_packet(
    alloc: Global,
    schema: &Schema,
    is_open: bool,
    tree: &Tree,
    row: &MessageRow,
    entry: &DispatchEntry,
    values: Option<&Values>,
) -> Result<Option<AnswerPacket>, AllocError>
    requires sound { IsSound schema.now }
    requires number { entry.now.number < 4294967295 }
    requires fits { FitsOwed schema.now (owed_by_return schema.now tree.now row.now (dispatch_entry entry.now)
        (option_map (λ vs. plain_values vs.now) values)) }
    ensures { IfOk result (λ packet. IsPacketFor schema.now
        (owed_if is_open (owed_by_return schema.now tree.now row.now (dispatch_entry entry.now)
        (option_map (λ vs. plain_values vs.now) values.entry))) packet) }
{
    if !is_open {
        Ok(None)
    } else if row.semantics == Semantics::Sync {
        sync_packet(alloc, schema, tree, row, entry, values)
    } else if entry.resolves {
        lost_packet(alloc, schema, entry)
    } else {
        Ok(None)
    }
}

// Returns the answer to a sync request whose handler returns. Fails only if memory runs out.
fn sync_packet(
    alloc: Global,
    schema: &Schema,
    tree: &Tree,
    row: &MessageRow,
    entry: &DispatchEntry,
    values: Option<&Values>,
) -> Result<Option<AnswerPacket>, AllocError>
    requires sound { IsSound schema.now }
    requires number { entry.now.number < 4294967295 }
    requires fits { Fits schema.now (reply_to (dispatch_answered (dispatch_entry entry.now))
        (body_of (return_answer_by schema.now tree.now row.now (dispatch_answered (dispatch_entry entry.now))
        (option_map (λ vs. plain_values vs.now) values)))) }
    ensures { IfOk result (λ packet. IsPacketFor schema.now
        (Some (record {
          request = dispatch_answered (dispatch_entry entry.now);
          given = return_answer_by schema.now tree.now row.now (dispatch_answered (dispatch_entry entry.now))
              (option_map (λ vs. plain_values vs.now) values.entry);
        })) packet) }
{
    boxes_say_nothing();
    let reply = sync_reply(alloc, schema, tree, row, &entry.answered(), values)?;
    Ok(Some(packet_of_reply(alloc, schema, reply)?))
}

// Returns the fault for a destroyed resolver. Fails only if memory runs out.
fn lost_packet(
    alloc: Global,
    schema: &Schema,
    entry: &DispatchEntry,
) -> Result<Option<AnswerPacket>, AllocError>
    requires sound { IsSound schema.now }
    requires number { entry.now.number < 4294967295 }
    requires fits { Fits schema.now (reply_to (lost_resolver (dispatch_entry entry.now)).request (body_of (lost_resolver (dispatch_entry entry.now)).given)) }
    ensures { IfOk result (λ packet. IsPacketFor schema.now (Some (lost_resolver (dispatch_entry entry.now))) packet) }
{
    let request = AnsweredRequest {
        seq: entry.head.seq,
        route: entry.route,
        number: entry.number,
        transaction: 0,
    };
    Ok(Some(fault_packet(alloc, schema, &request, Reason::ResolverDestroyed)?))
}
