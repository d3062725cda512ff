//! What arrives at an end: requests, replies, and the end of the other side.
ghost use Rattle.std.specs.Prelude.{◌≡◌, ◌+◌, ◌<◌, ◌≤◌, true, Some, IsSome, [], ◌∷◌, ◌++◌, length, map, option_map, IfOk, OnOk, OnErr};
ghost use Rattle.ipdl_base.specs.Plain.{plain_body, plain_message};
ghost use Rattle.ipdl_base.specs.Sound.{IsSound};
ghost use Rattle.nesting_core.specs.Answers.{awaited};
ghost use Rattle.nesting_core.specs.Plain.{plain_answer};
ghost use Rattle.pending_queue.specs.Compression.{replaced, staying};
ghost use Rattle.pending_queue.specs.Plain.{plain_item};
ghost use Rattle.channel_model.specs.Deliveries.{item_of};
ghost use Rattle.channel_model.specs.Numbers.{makes_promise};
ghost use Rattle.end_steps.specs.Arrivals.{reply_answer, replaced_answer, replaced_request, with_replaced, HasAnswered, HasEnded, HasReceivedReply, HasReceivedRequest, IsReplacedFramed, KeepsRoom, MayAnswerReplaced};
ghost use Rattle.end_parts.specs.CopiedAnswers.{IsCopied};
ghost use Rattle.end_steps.specs.FailedWaits.{unanswered_in};
ghost use Rattle.end_parts.specs.PlainLines.{plain_what};
ghost use Rattle.end_parts.specs.Replies.{answered_of};
ghost use Rattle.end_parts.specs.StackDetails.{frames_in};

use crate::closing::fail_all;
use end_parts::{
    AnsweredRequest, CopiedAnswer, EndOutput, Packet, StackEntries, frame_of, reply_to,
};
use ipdl_base::{
    Body, Compress, Items, Line, Message, MessageRow, Reason, Schema, Semantics, Side, What,
};
use nesting_core::Answer;
use pending_queue::{Item, Pending, plain_forms_commute};
use std::alloc::{AllocError, Global};

/// Returns the item of a message that arrives, with the properties of its row.
pub fn item_of(row: &MessageRow, message: Message) -> Item
    ensures { plain_item result ≡ item_of row.now (plain_message message) }
{
    Item::Message {
        message,
        sync: row.semantics == Semantics::Sync,
        level: row.level,
    }
}

// Returns what the answer repeats of the request that an item replaces among those that have
// arrived.
fn replaced_request(pending: &Pending, item: &Item, compress: Compress) -> Option<AnsweredRequest>
    ensures { option_map answered_of result ≡ replaced_request (replaced compress (plain_item item.now) (map plain_item pending.now.items)) }
{
    plain_forms_commute();
    match pending.replaced(item, compress) {
        None => None,
        Some(Item::Broken) => None,
        Some(Item::Message { message, .. }) => Some(AnsweredRequest {
            seq: message.seq,
            route: message.route,
            number: message.number,
            transaction: message.transaction,
        }),
    }
}

// Appends an item for which there is room, and removes the one that it replaces.
fn push_item(pending: &mut Pending, item: Item, compress: Compress)
    requires { 0 < pending.old.spare }
    ensures items { map plain_item pending.new.items ≡ staying compress (plain_item item) (map plain_item pending.old.items) ++ plain_item item ∷ [] }
{
    plain_forms_commute();
    if pending.push(item, compress).is_err() {
        unreachable!();
    }
}

// Whether a request of a row leaves a promise at its sender.
fn makes_promise(row: &MessageRow) -> bool
    ensures { result ≡ makes_promise row.now }
{
    row.semantics != Semantics::Sync && row.returns.is_some()
}

// Returns the frame of the answer to a request that is replaced, if it has a promise.
fn replaced_answer(
    alloc: Global,
    schema: &Schema,
    row: &MessageRow,
    request: Option<AnsweredRequest>,
) -> Result<Option<Items<u8>>, AllocError>
    requires sound { IsSound schema.now }
    requires fits { MayAnswerReplaced schema.now row.now (option_map answered_of request) }
    ensures frame { IfOk result (λ frame. option_map Packet.Bytes frame ≡ replaced_answer schema.now row.now (option_map answered_of request)) }
    ensures framed { OnOk result (IsReplacedFramed schema.now row.now (option_map answered_of request)) }
{
    match request {
        None => Ok(None),
        Some(request) => {
            if makes_promise(row) {
                let reply = reply_to(&request, Body::Fault(Reason::ResolverDestroyed));
                Ok(Some(frame_of(alloc, schema, &reply)?))
            } else {
                Ok(None)
            }
        }
    }
}

// Prints that a request is replaced, and appends the answer to it if there is one.
fn push_replaced(
    side: Side,
    request: Option<AnsweredRequest>,
    answer: Option<Items<u8>>,
    out: &mut EndOutput,
)
    requires lines { 2 ≤ out.old.line_spare }
    requires packets { length out.old.frames + 1 ≤ out.old.packet_spare }
    ensures { out.new ≡ with_replaced side (option_map answered_of request) (option_map Packet.Bytes answer) out.old }
{
    let Some(request) = request else {
        return;
    };
    out.push_line(Line {
        side,
        what: What::Replaced(request.seq),
    });
    if let Some(frame) = answer {
        out.pay(out.waiting());
        out.push_line(Line {
            side,
            what: What::AnswerFault(request.seq, Reason::ResolverDestroyed),
        });
        out.put(Packet::Bytes(frame));
    }
}

// Makes room for a request that arrives, and builds the answer to the one that it replaces. Nothing
// changes but room.
fn prepare_request(
    alloc: Global,
    schema: &Schema,
    row: &MessageRow,
    replaced: Option<AnsweredRequest>,
    pending: &mut Pending,
    out: &mut EndOutput,
) -> Result<Option<Items<u8>>, AllocError>
    requires sound { IsSound schema.now }
    requires fits { MayAnswerReplaced schema.now row.now (option_map answered_of replaced) }
    ensures answer { IfOk result (λ frame. option_map Packet.Bytes frame ≡ replaced_answer schema.now row.now (option_map answered_of replaced)) }
    ensures framed { OnOk result (IsReplacedFramed schema.now row.now (option_map answered_of replaced)) }
    ensures items { pending.new.items ≡ pending.old.items }
    ensures spare { OnOk result (0 < pending.new.spare) }
    ensures room { KeepsRoom out.old out.new }
    ensures lines { OnOk result (out.old.lines_owed + 3 ≤ out.new.line_spare) }
    ensures packets { OnOk result (length out.old.frames + 1 + 1 ≤ out.new.packet_spare) }
{
    let answer = replaced_answer(alloc, schema, row, replaced)?;
    pending.reserve(1)?;
    out.reserve(3, 1)?;
    Ok(answer)
}

/// Appends a request to what has arrived, by the compression of its message. A request that it
/// replaces is answered if it has a promise. If memory runs out, nothing changes but room.
pub fn receive_request(
    alloc: Global,
    schema: &Schema,
    side: Side,
    row: &MessageRow,
    message: Message,
    pending: &mut Pending,
    out: &mut EndOutput,
) -> Result<(), AllocError>
    requires sound { IsSound schema.now }
    requires fits { MayAnswerReplaced schema.now row.now
        (replaced_request (replaced row.now.compress (item_of row.now (plain_message message))
        (map plain_item pending.old.items))) }
    ensures ok { OnOk result (HasReceivedRequest schema.now side row.now (plain_message message)
        (map plain_item pending.old.items) out.old (map plain_item pending.new.items) out.new) }
    ensures same_items { OnErr result (pending.new.items ≡ pending.old.items) }
    ensures same_out { OnErr result (KeepsRoom out.old out.new) }
{
    let seq = message.seq;
    let item = item_of(row, message);
    let replaced = replaced_request(pending, &item, row.compress);
    match prepare_request(alloc, schema, row, replaced, pending, out) {
        Err(fault) => Err(fault),
        Ok(answer) => {
            out.push_line(Line {
                side,
                what: What::DeliverRequest(seq),
            });
            push_item(pending, item, row.compress);
            push_replaced(side, replaced, answer, out);
            Ok(())
        }
    }
}

// Makes room for an item that arrives, and for `lines` lines. Nothing changes but room.
fn prepare_item(pending: &mut Pending, out: &mut EndOutput, lines: usize) -> Result<(), AllocError>
    ensures items { pending.new.items ≡ pending.old.items }
    ensures spare { OnOk result (0 < pending.new.spare) }
    ensures room { KeepsRoom out.old out.new }
    ensures lines { OnOk result (out.old.lines_owed + lines ≤ out.new.line_spare) }
{
    pending.reserve(1)?;
    out.reserve(lines, 0)
}

/// Appends a reply that no call waits for to what has arrived. If memory runs out, nothing changes
/// but room.
pub fn receive_reply(
    side: Side,
    row: &MessageRow,
    message: Message,
    pending: &mut Pending,
    out: &mut EndOutput,
) -> Result<(), AllocError>
    ensures ok { OnOk result (HasReceivedReply side row.now (plain_message message)
        (map plain_item pending.old.items) out.old (map plain_item pending.new.items) out.new) }
    ensures same_items { OnErr result (pending.new.items ≡ pending.old.items) }
    ensures same_out { OnErr result (KeepsRoom out.old out.new) }
{
    let seq = message.seq;
    let item = item_of(row, message);
    match prepare_item(pending, out, 1) {
        Err(fault) => Err(fault),
        Ok(()) => {
            out.push_line(Line {
                side,
                what: What::DeliverReply(seq),
            });
            push_item(pending, item, Compress::Plain);
            Ok(())
        }
    }
}

// Returns the answer of a reply, with a second copy of its values.
fn copied_answer(alloc: Global, body: Body) -> Result<CopiedAnswer, AllocError>
    requires { IsSome (reply_answer body) }
    ensures answer { IfOk result (λ given. reply_answer (plain_body body) ≡ Some (plain_answer given.answer)) }
    ensures copied { IfOk result IsCopied }
{
    match body {
        Body::Reply(values) => {
            let copy = values.copy(alloc)?;
            Ok(CopiedAnswer {
                answer: Answer::Ok(values),
                copy: Some(copy),
            })
        }
        Body::Fault(reason) => Ok(CopiedAnswer {
            answer: Answer::Fault(reason),
            copy: None,
        }),
        Body::Request(_) | Body::Goodbye => unreachable!(),
    }
}

/// Stores the reply to a sync request in the innermost wait, which is one for it. Its line is one
/// that the wait owed. If memory runs out, nothing changes.
pub fn answer_call(
    alloc: Global,
    side: Side,
    message: Message,
    stack: &mut StackEntries,
    out: &mut EndOutput,
) -> Result<(), AllocError>
    requires answer { IsSome (reply_answer message.body) }
    requires waited { awaited (frames_in stack.old) ≡ Some message.seq }
    requires room { 0 < out.old.line_spare }
    ensures ok { OnOk result (HasAnswered side (plain_message message) stack.old out.old stack.new out.new) }
    ensures same_stack { OnErr result (stack.new ≡ stack.old) }
    ensures same_out { OnErr result (out.new ≡ out.old) }
{
    let Message { seq, body, .. } = message;
    match copied_answer(alloc, body) {
        Err(fault) => Err(fault),
        Ok(given) => {
            out.push_line(Line {
                side,
                what: What::DeliverReply(seq),
            });
            stack.answer_wait(seq, given);
            out.pay(1);
            Ok(())
        }
    }
}

// Prints a line, fails all waits and empties the outbox. None of these lines is owed any more.
fn end_sending(side: Side, what: What, stack: &mut StackEntries, out: &mut EndOutput)
    requires { 1 + length (unanswered_in stack.old) ≤ out.old.line_spare }
    ensures { HasEnded side (plain_what what) stack.old out.old stack.new out.new }
{
    let before = out.line_spare();
    out.push_line(Line { side, what });
    fail_all(side, stack, out);
    out.pay(before - out.line_spare());
    out.pay(out.waiting());
    out.drop_outbox();
}

/// Fails all waits, empties the outbox and appends the item of the other side's end to what has
/// arrived. The lines are among those that are owed. If memory runs out, nothing changes but room.
pub fn receive_end(
    side: Side,
    what: What,
    item: Item,
    stack: &mut StackEntries,
    pending: &mut Pending,
    out: &mut EndOutput,
) -> Result<(), AllocError>
    requires { 1 + length (unanswered_in stack.old) ≤ out.old.line_spare }
    ensures ok { OnOk result (HasEnded side (plain_what what) stack.old out.old stack.new out.new) }
    ensures arrived { OnOk result (map plain_item pending.new.items ≡ map plain_item pending.old.items ++ plain_item item ∷ []) }
    ensures same_stack { OnErr result (stack.new ≡ stack.old) }
    ensures same_out { OnErr result (out.new ≡ out.old) }
    ensures same_items { OnErr result (pending.new.items ≡ pending.old.items) }
{
    match pending.reserve(1) {
        Err(fault) => Err(fault),
        Ok(()) => {
            push_item(pending, item, Compress::Plain);
            end_sending(side, what, stack, out);
            Ok(())
        }
    }
}
