//! The header of a frame.

ghost use Rattle.std.specs.Prelude.{◌≡◌, ◌≤◌, ◌+◌, IfSome, length, drop, option_map};
ghost use Rattle.std.specs.Int.{w32, cast_signed};
ghost use Rattle.byteorder.specs.Endian.{little_number};
ghost use Rattle.ipdl_base.specs.Sound.{IsSound};
ghost use Rattle.value_codec.specs.Frames as frames;
ghost use Rattle.value_codec.specs.Frames.{seen};
ghost use Rattle.value_codec.specs.Spelling as spelling;

use byteorder::{ByteOrder, LittleEndian};
use ipdl_base::{Compress, GOODBYE_NUMBER, MessageRow, Rule, Schema, Semantics};
use value_types::{Layout, MARK};

/// The six fields of a header.
#[derive(Clone, Copy)]
pub(crate) struct Header {
    /// The number of bytes of the payload.
    pub(crate) size: u32,
    pub(crate) route: i32,
    /// The number of the type.
    pub(crate) number: u32,
    pub(crate) flags: u32,
    /// The number of the request.
    pub(crate) seq: i32,
    pub(crate) transaction: i32,
}

/// What the type of a frame names.
#[derive(Clone, Copy)]
pub(crate) enum FrameType<'s> {
    Goodbye,
    Request(&'s MessageRow),
    Reply(&'s MessageRow),
}

/// Returns the flag of a sync message.
fn sync_flag(row: &MessageRow) -> u32
    ensures { result ≡ spelling.sync_flag row.now }
{
    match row.semantics {
        Semantics::Sync => 1,
        Semantics::Async => 0,
    }
}

/// Returns the flag of a message's compression.
fn compress_flag(compress: Compress) -> u32
    ensures { result ≡ spelling.compress_flag compress }
{
    match compress {
        Compress::Plain => 0,
        Compress::Last => 32,
        Compress::All => 64,
    }
}

/// Returns the flags of a request.
pub(crate) fn request_flags(row: &MessageRow) -> u32
    ensures { result ≡ spelling.request_flags row.now }
{
    sync_flag(row) + 2 * u32::from(row.level.rank()) + compress_flag(row.compress)
}

/// Returns the flags of a reply with values.
pub(crate) fn reply_flags(row: &MessageRow) -> u32
    ensures { result ≡ spelling.reply_flags row.now }
{
    sync_flag(row) + 8
}

/// Returns the flags of a reply with a fault.
pub(crate) fn fault_flags(row: &MessageRow) -> u32
    ensures { result ≡ spelling.fault_flags row.now }
{
    sync_flag(row) + 24
}

/// Returns the bytes after the first `count`.
pub(crate) fn following(count: usize, bytes: &[u8]) -> &[u8]
    requires { count ≤ length bytes.now }
    ensures { result.now ≡ drop count bytes.now }
{
    let (_, rest) = bytes.split_at(count);
    rest
}

/// Returns the number in the four bytes after the first `count`.
fn word_after(count: usize, bytes: &[u8]) -> u32
    requires { count + 4 ≤ length bytes.now }
    ensures { result ≡ little_number 4 (drop count bytes.now) }
{
    LittleEndian::read_u32(following(count, bytes))
}

/// Returns the signed number in the four bytes after the first `count`.
fn signed_word_after(count: usize, bytes: &[u8]) -> i32
    requires { count + 4 ≤ length bytes.now }
    ensures { result ≡ cast_signed w32 (little_number 4 (drop count bytes.now)) }
{
    word_after(count, bytes).cast_signed()
}

/// Returns the fields in the bytes after a mark.
fn header_in(bytes: &[u8]) -> Header
    requires { 24 ≤ length bytes.now }
    ensures { result ≡ frames.header_in bytes.now }
{
    Header {
        size: word_after(0, bytes),
        route: signed_word_after(4, bytes),
        number: word_after(8, bytes),
        flags: word_after(12, bytes),
        seq: signed_word_after(16, bytes),
        transaction: signed_word_after(20, bytes),
    }
}

/// Returns the number of bytes of a layout's mark.
pub(crate) fn mark_size(layout: Layout) -> usize
    ensures value { result ≡ length (spelling.mark_of layout) }
    ensures few { result ≤ 4 }
{
    if layout.marked { 4 } else { 0 }
}

/// Returns the number of bytes before the payload of a frame.
pub(crate) fn header_size(layout: Layout) -> usize
    ensures value { result ≡ frames.header_size layout }
    ensures few { result ≤ 28 }
{
    mark_size(layout) + 24
}

/// Returns the header that the bytes begin with.
pub(crate) fn header_of(layout: Layout, bytes: &[u8]) -> Header
    requires { frames.header_size layout ≤ length bytes.now }
    ensures { result ≡ frames.header_of layout bytes.now }
{
    header_in(following(mark_size(layout), bytes))
}

/// Returns whether the bytes begin with the mark, if the layout has one.
fn has_mark(layout: Layout, bytes: &[u8]) -> bool
    requires { 4 ≤ length bytes.now }
    ensures { result ≡ frames.has_mark layout bytes.now }
{
    if layout.marked {
        LittleEndian::read_u32(bytes) == LittleEndian::read_u32(&MARK)
    } else {
        true
    }
}

/// Returns whether a message's number names its request or its reply.
fn request_or_reply(number: u32, row: &MessageRow) -> FrameType<'_>
    ensures { seen result ≡ frames.request_or_reply number row.now }
{
    if row.number == number {
        FrameType::Request(row)
    } else {
        FrameType::Reply(row)
    }
}

/// Returns what the number of a type names: a request or a reply that is carried, or a goodbye; otherwise
/// `None`.
pub(crate) fn frame_type(schema: &Schema, number: u32) -> Option<FrameType<'_>>
    requires { IsSound schema.now }
    ensures { option_map seen result ≡ frames.type_of schema.now number }
{
    if number == GOODBYE_NUMBER {
        return Some(FrameType::Goodbye);
    }
    match schema.message(number) {
        Some(row) => {
            if row.carried {
                Some(request_or_reply(number, row))
            } else {
                None
            }
        }
        None => None,
    }
}

/// Returns whether flags are those of a type.
fn are_flags(frame_type: &FrameType, flags: u32) -> bool
    ensures { result ≡ frames.are_flags (seen frame_type.now) flags }
{
    match frame_type {
        FrameType::Goodbye => flags == 0,
        FrameType::Request(row) => flags == request_flags(row),
        FrameType::Reply(row) => flags == reply_flags(row) || flags == fault_flags(row),
    }
}

/// Returns whether a type may have a route.
fn is_route(frame_type: &FrameType, route: i32) -> bool
    ensures { result ≡ frames.is_route (seen frame_type.now) route }
{
    match frame_type {
        FrameType::Goodbye => route == 0,
        FrameType::Request(_) | FrameType::Reply(_) => 0 < route,
    }
}

/// Returns whether a type may have a number of a request.
fn is_seq(frame_type: &FrameType, seq: i32) -> bool
    ensures { result ≡ frames.is_seq (seen frame_type.now) seq }
{
    match frame_type {
        FrameType::Goodbye => seq == 0,
        FrameType::Request(_) | FrameType::Reply(_) => seq != 0,
    }
}

/// Returns whether a message may have a transaction.
fn has_transaction(semantics: Semantics, transaction: i32) -> bool
    ensures { result ≡ frames.has_transaction semantics transaction }
{
    match semantics {
        Semantics::Sync => transaction != 0,
        Semantics::Async => transaction == 0,
    }
}

/// Returns whether a type may have a transaction.
fn is_transaction(frame_type: &FrameType, transaction: i32) -> bool
    ensures { result ≡ frames.is_transaction (seen frame_type.now) transaction }
{
    match frame_type {
        FrameType::Goodbye => transaction == 0,
        FrameType::Request(row) | FrameType::Reply(row) => {
            has_transaction(row.semantics, transaction)
        }
    }
}

/// Returns the first rule that the fields after the type's number break, with its offset after the mark.
fn type_fault(header: &Header, frame_type: &FrameType) -> Option<(usize, u8)>
    ensures value { result ≡ frames.type_fault header.now (seen frame_type.now) }
    ensures few { IfSome result (λ fault. fault.0 ≤ 20) }
{
    if !are_flags(frame_type, header.flags) {
        return Some((12, Rule::BAD_FLAGS.number));
    }
    if !is_route(frame_type, header.route) {
        return Some((4, Rule::BAD_FIELD.number));
    }
    if !is_seq(frame_type, header.seq) {
        return Some((16, Rule::BAD_FIELD.number));
    }
    if !is_transaction(frame_type, header.transaction) {
        return Some((20, Rule::BAD_FIELD.number));
    }
    None
}

/// Returns the first rule that fields break, with its offset after the mark.
fn fields_fault(layout: Layout, schema: &Schema, header: &Header) -> Option<(usize, u8)>
    requires { IsSound schema.now }
    ensures value { result ≡ frames.fields_fault layout schema.now header.now }
    ensures few { IfSome result (λ fault. fault.0 ≤ 20) }
{
    if layout.most_payload < header.size as usize {
        return Some((0, Rule::LARGE_PAYLOAD.number));
    }
    match frame_type(schema, header.number) {
        None => Some((8, Rule::UNKNOWN_FRAME_TYPE.number)),
        Some(frame_type) => type_fault(header, &frame_type),
    }
}

/// Returns the first rule that a header breaks, with its offset in the frame.
pub(crate) fn header_fault(
    layout: Layout,
    schema: &Schema,
    header: &Header,
    bytes: &[u8],
) -> Option<(usize, u8)>
    requires sound { IsSound schema.now }
    requires whole { frames.header_size layout ≤ length bytes.now }
    requires header { header.now ≡ frames.header_of layout bytes.now }
    ensures { result ≡ frames.header_fault layout schema.now bytes.now }
{
    if !has_mark(layout, bytes) {
        return Some((0, Rule::BAD_MARK.number));
    }
    match fields_fault(layout, schema, header) {
        None => None,
        Some((offset, rule)) => Some((mark_size(layout) + offset, rule)),
    }
}
