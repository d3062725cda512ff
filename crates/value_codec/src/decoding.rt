//! Decodes frames.
ghost use Rattle.std.specs.Prelude.{◌≡◌, ℕ, ◌≤◌, List, length, take};
ghost use Rattle.ipdl_base.specs.declared.message.Message.{Message};
ghost use Rattle.ipdl_base.specs.Plain.{plain_body};
ghost use Rattle.ipdl_base.specs.Sound.{IsSound};
ghost use Rattle.value_types.specs.declared.layout.TheConstants.{NEW, OLD};
ghost use Rattle.value_codec.specs.Decoding as decoding;
ghost use Rattle.value_codec.specs.Decoding.{begins, with_contents, whole_size, Yields, IsTrueOf, HasFitting, FrameBegins, IsFrame, IsShort, IsShortBy, FrameFault, IsBadAt};
ghost use Rattle.value_codec.specs.Frames as frames;
ghost use Rattle.value_codec.specs.Reading.{Gives};

use crate::fault::{Fault, Refusal};
use crate::header::{Header, following, frame_type, header_fault, header_of, header_size};
use crate::payload;
use ipdl_base::{Body, Message, Schema};
use std::alloc::Global;
use value_types::{Layout, NEW, OLD};

/// What bytes begin with.
#[derive(Drop)]
pub enum DecodeResult {
    /// A message, and the number of bytes of its frame.
    Frame(Message, usize),
    /// Less than a frame. The number is how many bytes are missing from the header or, if the header is
    /// complete, from the frame.
    Short(usize),
    /// No frame: the offset and the number of the first rule on frames (`Rule`) that is broken.
    Bad(usize, u8),
    /// Memory ran out.
    NoMemory,
}

/// Returns the message of a frame with this header and this body.
fn message_from(header: &Header, made: i32, body: Body) -> Message
    ensures { result ≡ decoding.message_from header.now made body }
{
    Message {
        route: header.route,
        number: header.number,
        seq: header.seq,
        transaction: header.transaction,
        made,
        body,
    }
}

/// Reads the payload of a complete frame whose header breaks no rule.
fn contents(
    alloc: Global,
    layout: Layout,
    schema: &Schema,
    header: &Header,
    payload: &[u8],
) -> Result<(i32, Body), Refusal>
    requires { IsSound schema.now }
    ensures { Gives (λ x. (x.0, plain_body x.1)) result
        (decoding.contents_of_type layout schema.now header.now
        (frames.type_of schema.now header.now.number) payload.now) }
{
    match frame_type(schema, header.number) {
        None => Err(Refusal::Broken(Fault { rule: 0, left: 0 })),
        Some(frame_type) => {
            payload::contents(alloc, layout, schema, &frame_type, header.flags, payload)
        }
    }
}

/// Decodes a complete frame of `size` bytes.
fn whole(
    alloc: Global,
    layout: Layout,
    schema: &Schema,
    header: &Header,
    size: usize,
    payload: &[u8],
) -> DecodeResult
    requires sound { IsSound schema.now }
    requires size { size ≡ whole_size layout header.now }
    ensures { Yields result (with_contents layout header.now
        (decoding.contents_of_type layout schema.now header.now
        (frames.type_of schema.now header.now.number) payload.now)) }
{
    match contents(alloc, layout, schema, header, payload) {
        Ok((made, body)) => DecodeResult::Frame(message_from(header, made, body), size),
        Err(Refusal::Broken(fault)) => DecodeResult::Bad(
            size.saturating_sub(fault.left),
            fault.rule,
        ),
        Err(Refusal::NoMemory) => DecodeResult::NoMemory,
    }
}

/// Returns the payload that follows a header.
fn payload_in<'b>(layout: Layout, header: &Header, bytes: &'b [u8]) -> &'b [u8]
    requires { whole_size layout header.now ≤ length bytes.now }
    ensures { result.now ≡ decoding.payload_in layout header.now bytes.now }
{
    let (payload, _) = following(header_size(layout), bytes).split_at(header.size as usize);
    payload
}

/// Decodes bytes with a header that breaks no rule.
fn after_header(
    alloc: Global,
    layout: Layout,
    schema: &Schema,
    header: &Header,
    bytes: &[u8],
) -> DecodeResult
    requires sound { IsSound schema.now }
    ensures { Yields result (decoding.after_sound_header layout schema.now header.now bytes.now) }
{
    let size = header_size(layout) + header.size as usize;
    if bytes.len() < size {
        return DecodeResult::Short(size - bytes.len());
    }
    whole(
        alloc,
        layout,
        schema,
        header,
        size,
        payload_in(layout, header, bytes),
    )
}

/// Decodes bytes with a complete header.
fn with_header(alloc: Global, layout: Layout, schema: &Schema, bytes: &[u8]) -> DecodeResult
    requires sound { IsSound schema.now }
    requires whole { frames.header_size layout ≤ length bytes.now }
    ensures { Yields result (decoding.after_header layout schema.now bytes.now (frames.header_fault layout schema.now bytes.now)) }
{
    let header = header_of(layout, bytes);
    match header_fault(layout, schema, &header, bytes) {
        Some((offset, rule)) => DecodeResult::Bad(offset, rule),
        None => after_header(alloc, layout, schema, &header, bytes),
    }
}

/// Decodes bytes in a layout.
#[tactic(auto, unfolding(crate::specs::Decoding::begins))]
fn begun(alloc: Global, layout: Layout, schema: &Schema, bytes: &[u8]) -> DecodeResult
    requires { IsSound schema.now }
    ensures { Yields result (begins layout schema.now bytes.now) }
{
    let front = header_size(layout);
    if bytes.len() < front {
        return DecodeResult::Short(front - bytes.len());
    }
    with_header(alloc, layout, schema, bytes)
}

/// Decodes the frame in the new layout that the bytes begin with (docs/frames.md). Bytes may follow the
/// frame.
pub fn decode(alloc: Global, schema: &Schema, bytes: &[u8]) -> DecodeResult
    requires { IsSound schema.now }
    // The result is true of the bytes, and no other message has its frame there.
    ensures told { IsTrueOf NEW schema.now bytes.now result }
    ensures fits { HasFitting schema.now result }
    ensures frame { (message : Message) (n : ℕ) → FrameBegins NEW schema.now bytes.now message n → IsFrame result message n }
    ensures short { (n : ℕ) → IsShort NEW schema.now bytes.now n → IsShortBy result n }
    ensures bad { (offset rule : ℕ) → FrameFault NEW schema.now bytes.now offset rule → IsBadAt result offset rule }
    ensures exact { Yields result (begins NEW schema.now bytes.now) }
{
    begun(alloc, NEW, schema, bytes)
}

/// Decodes the frame in the old layout that the bytes begin with (docs/frames.md). Bytes may follow the
/// frame.
pub fn decode_old(alloc: Global, schema: &Schema, bytes: &[u8]) -> DecodeResult
    requires { IsSound schema.now }
    // The result is true of the bytes, and no other message has its frame there.
    ensures told { IsTrueOf OLD schema.now bytes.now result }
    ensures fits { HasFitting schema.now result }
    ensures frame { (message : Message) (n : ℕ) → FrameBegins OLD schema.now bytes.now message n → IsFrame result message n }
    ensures short { (n : ℕ) → IsShort OLD schema.now bytes.now n → IsShortBy result n }
    ensures bad { (offset rule : ℕ) → FrameFault OLD schema.now bytes.now offset rule → IsBadAt result offset rule }
    ensures exact { Yields result (begins OLD schema.now bytes.now) }
{
    begun(alloc, OLD, schema, bytes)
}
