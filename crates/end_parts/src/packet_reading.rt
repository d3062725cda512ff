//! What the bytes of packets are, and the frames of messages.
ghost use Rattle.std.specs.Prelude.{◌≡◌, IfOk};
ghost use Rattle.channel_model.specs.Acts.{goodbye};
ghost use Rattle.ipdl_base.specs.Plain.{plain_message};
ghost use Rattle.ipdl_base.specs.Sound.{IsSound};
ghost use Rattle.value_codec.specs.Spelling.{FrameOf, frame_bytes};
ghost use Rattle.value_types.specs.Fits.{Fits};
ghost use Rattle.end_parts.specs.PacketReading.{IsReading, packet_read};

use crate::packet::Packet;
use ipdl_base::{Body, GOODBYE_NUMBER, Items, Message, Rule, Schema};
use std::alloc::{AllocError, Global};
use value_codec::{DecodeResult, decode, frames_look_at_no_box, new_frame};
use value_types::NEW;

/// What the bytes of a packet are.
#[derive(Drop)]
pub enum PacketReading {
    /// A message that fits the schema.
    Message(Message),
    /// The mark that its sender has died.
    Mark,
    /// Not exactly one frame of a message: the offset and the rule of the first fault.
    Bad(usize, u8),
    NoMemory,
}

/// Reads the bytes of a packet.
pub fn read_packet(alloc: Global, schema: &Schema, packet: &Packet) -> PacketReading
    requires { IsSound schema.now }
    ensures { IsReading schema.now (packet_read schema.now packet.now) result }
{
    match packet {
        Packet::Broken => PacketReading::Mark,
        Packet::Bytes(frame) => {
            let bytes = frame.as_slice();
            match decode(alloc, schema, bytes) {
                DecodeResult::Frame(message, size) => {
                    if size == bytes.len() {
                        PacketReading::Message(message)
                    } else {
                        PacketReading::Bad(size, Rule::NOT_ONE_FRAME.number)
                    }
                }
                DecodeResult::Short(_) => PacketReading::Bad(
                    bytes.len(),
                    Rule::NOT_ONE_FRAME.number,
                ),
                DecodeResult::Bad(offset, rule) => PacketReading::Bad(offset, rule),
                DecodeResult::NoMemory => PacketReading::NoMemory,
            }
        }
    }
}

/// Returns the frame of a message.
pub fn frame_of(alloc: Global, schema: &Schema, message: &Message) -> Result<Items<u8>, AllocError>
    requires sound { IsSound schema.now }
    requires fits { Fits schema.now message.now }
    ensures frame { IfOk result (λ frame. frame ≡ frame_bytes NEW schema.now (plain_message message.now)) }
    ensures spelling { IfOk result (λ frame. FrameOf NEW schema.now message.now frame) }
{
    frames_look_at_no_box();
    match new_frame(alloc, schema, message) {
        Ok(frame) => Ok(Items::from_vec(frame)),
        Err(_) => Err(AllocError),
    }
}

/// Returns the frame of a goodbye.
pub fn goodbye_frame(alloc: Global, schema: &Schema) -> Result<Items<u8>, AllocError>
    requires { IsSound schema.now }
    ensures { IfOk result (λ frame. frame ≡ frame_bytes NEW schema.now goodbye) }
{
    let message = Message {
        route: 0,
        number: GOODBYE_NUMBER,
        seq: 0,
        transaction: 0,
        made: 0,
        body: Body::Goodbye,
    };
    frame_of(alloc, schema, &message)
}
