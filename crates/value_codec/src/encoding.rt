//! Encodes messages as frames.
ghost use Rattle.std.specs.Prelude.{◌≡◌, ◌<◌, ◌≤◌, ◌+◌, ◌++◌, min, Err, OnOk, OnErr, IfOk, IfErr};
ghost use Rattle.ipdl_base.specs.Sound.{IsSound};
ghost use Rattle.value_types.specs.declared.layout.TheConstants.{NEW};
ghost use Rattle.value_types.specs.Fits.{Fits};
ghost use Rattle.value_types.specs.Sizes as size;
ghost use Rattle.value_codec.specs.declared.encoding.EncodeFault.TheVariants.{NoMemory};
ghost use Rattle.value_codec.specs.Encoding.{IsRefused};
ghost use Rattle.value_codec.specs.Frames.{header_size};
ghost use Rattle.value_codec.specs.Spelling.{FrameOf, frame_bytes};

use crate::writing::frame_of;
use ipdl_base::{Message, Schema};
use std::alloc::{AllocError, Global};
use thiserror::Error;
use value_types::{NEW, payload_size};

/// Why a message is not encoded.
#[derive(Clone, Copy, Debug, PartialEq, Eq, Error)]
pub enum EncodeFault {
    /// The payload has more bytes than a frame may have. The number is its size, or the greatest `usize` if
    /// it is larger.
    #[error("a payload of {0} bytes is too large for a frame")]
    TooLarge(usize),
    /// Memory ran out.
    #[error("no memory")]
    NoMemory,
}

impl From<AllocError> for EncodeFault {
    ghost from_gives = { λ _ e. e ≡ NoMemory };

    fn from(_error: AllocError) -> EncodeFault {
        EncodeFault::NoMemory
    }
}

/// Returns the number of bytes of a message's frame in the new layout, or the greatest `usize` if there are
/// more. Takes no memory.
pub fn frame_size(schema: &Schema, message: &Message) -> usize
    requires { IsSound schema.now }
    ensures { result ≡ min (header_size NEW + size.payload_size NEW schema.now message.now) size.greatest_size }
{
    payload_size(schema, NEW, message).saturating_add(NEW.header)
}

/// Returns the frame of a message in the new layout (docs/frames.md), in one buffer of its size. If the
/// payload has more than 4,096 bytes, the error is `TooLarge`, and no memory is taken.
pub fn new_frame(alloc: Global, schema: &Schema, message: &Message) -> Result<Vec<u8>, EncodeFault>
    requires sound { IsSound schema.now }
    requires fits { Fits schema.now message.now }
    ensures frame { IfOk result (λ frame. frame.items ≡ frame_bytes NEW schema.now message.now) }
    ensures spelling { OnOk result (FrameOf NEW schema.now message.now (frame_bytes NEW schema.now message.now)) }
    ensures refused { IfErr result (λ fault. IsRefused NEW.most_payload (size.payload_size NEW schema.now message.now) fault) }
    ensures large { let payload = size.payload_size NEW schema.now message.now in NEW.most_payload < payload
        → result ≡ Err (EncodeFault.TooLarge (min payload size.greatest_size)) }
{
    let size = payload_size(schema, NEW, message);
    if size > NEW.most_payload {
        return Err(EncodeFault::TooLarge(size));
    }
    let frame = frame_of(alloc, NEW, schema, message, size as u32)?;
    Ok(frame)
}

/// Appends the frame of a message in the new layout (docs/frames.md). If the payload has more than 4,096
/// bytes, the error is `TooLarge`, and no memory is taken. An error leaves `out` unchanged.
pub fn encode(
    alloc: Global,
    schema: &Schema,
    message: &Message,
    out: &mut Vec<u8>,
) -> Result<(), EncodeFault>
    requires sound { IsSound schema.now }
    requires fits { Fits schema.now message.now }
    ensures frame { OnOk result (out.new.items ≡ out.old.items ++ frame_bytes NEW schema.now message.now) }
    ensures spelling { OnOk result (FrameOf NEW schema.now message.now (frame_bytes NEW schema.now message.now)) }
    ensures refused { IfErr result (λ fault. IsRefused NEW.most_payload (size.payload_size NEW schema.now message.now) fault) }
    ensures large { let payload = size.payload_size NEW schema.now message.now in NEW.most_payload < payload
        → result ≡ Err (EncodeFault.TooLarge (min payload size.greatest_size)) }
    ensures unchanged { OnErr result (out.new.items ≡ out.old.items) }
{
    let frame = new_frame(alloc, schema, message)?;
    out.extend_from_slice(&frame)?;
    Ok(())
}
