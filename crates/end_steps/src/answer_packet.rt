//! Answers to requests, put into frames before anything changes, and sent when nothing can fail.
ghost use Rattle.std.specs.Prelude.{◌≡◌, ◌+◌, ◌<◌, ◌≤◌, length, Some, IfOk};
ghost use Rattle.ipdl_base.specs.declared.message.Body.TheVariants as body;
ghost use Rattle.ipdl_base.specs.Plain.{plain_body, plain_message};
ghost use Rattle.ipdl_base.specs.Sound.{IsSound};
ghost use Rattle.nesting_core.specs.declared.frame.Answer.TheVariants as answer;
ghost use Rattle.value_types.specs.declared.layout.TheConstants.{NEW};
ghost use Rattle.value_codec.specs.Spelling.{FrameOf};
ghost use Rattle.value_types.specs.Fits.{Fits};
ghost use Rattle.channel_model.specs.Outputs.{answer_line, reply_to};
ghost use Rattle.end_steps.specs.AnswerPackets.{answer_in, IsAnswering, IsPacketOf, with_answer_packet};
ghost use Rattle.end_parts.specs.PlainLines.{plain_what};
ghost use Rattle.end_parts.specs.Replies.{answered_of};

use end_parts::{AnsweredRequest, EndOutput, Packet, frame_of, reply_to};
use ipdl_base::{Body, Items, Line, Message, Reason, Schema, Side, What};
use std::alloc::{AllocError, Global};
use value_codec::frames_look_at_no_box;
use value_types::boxes_say_nothing;

/// The answer to a request: its line and its frame.
#[derive(Drop)]
pub struct AnswerPacket {
    what: What,
    frame: Items<u8>,
}

/// Returns the packet of a reply, with the line of an answer. Fails only if memory runs out.
pub fn packet_of_reply(
    alloc: Global,
    schema: &Schema,
    reply: Message,
) -> Result<AnswerPacket, AllocError>
    requires sound { IsSound schema.now }
    requires answers { IsAnswering reply.body }
    requires fits { Fits schema.now reply }
    ensures line { IfOk result (λ packet. plain_what packet.what ≡ answer_line reply.seq (answer_in (plain_body reply.body))) }
    ensures frame { IfOk result (λ packet. FrameOf NEW schema.now (plain_message reply) packet.frame) }
{
    frames_look_at_no_box();
    boxes_say_nothing();
    let frame = frame_of(alloc, schema, &reply)?;
    Ok(AnswerPacket {
        what: answer_line(reply.seq, reply.body),
        frame,
    })
}

// Returns the line of an answer.
fn answer_line(seq: i32, body: Body) -> What
    requires { IsAnswering body }
    ensures { plain_what result ≡ answer_line seq (answer_in (plain_body body)) }
{
    match body {
        Body::Reply(values) => What::AnswerOk(seq, values),
        Body::Fault(reason) => What::AnswerFault(seq, reason),
        Body::Request(_) | Body::Goodbye => unreachable!(),
    }
}

/// Returns the answer to a request by a fault. Fails only if memory runs out.
pub fn fault_packet(
    alloc: Global,
    schema: &Schema,
    request: &AnsweredRequest,
    reason: Reason,
) -> Result<AnswerPacket, AllocError>
    requires sound { IsSound schema.now }
    requires number { request.now.number < 4294967295 }
    requires fits { Fits schema.now (reply_to (answered_of request.now) (body.Fault reason)) }
    ensures { IfOk result (λ packet. IsPacketOf schema.now (record { request = answered_of request.now; given = answer.Fault reason }) packet) }
{
    let reply = reply_to(request, Body::Fault(reason));
    packet_of_reply(alloc, schema, reply)
}

/// Appends the line of an answer, and then its packet, if there is an answer.
pub fn put_answer(side: Side, packet: Option<AnswerPacket>, out: &mut EndOutput)
    requires line { 0 < out.old.line_spare }
    requires packet { length out.old.frames + 1 ≤ out.old.packet_spare }
    ensures { out.new ≡ with_answer_packet side packet out.old }
{
    match packet {
        None => {}
        Some(AnswerPacket { what, frame }) => {
            out.push_line(Line { side, what });
            out.put(Packet::Bytes(frame));
        }
    }
}
