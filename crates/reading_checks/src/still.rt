//! What is deferred, and whether nothing but acts is possible.
ghost use Rattle.std.specs.Prelude.{◌≡◌, reverse};
ghost use Rattle.std.specs.List.{list_any};
ghost use Rattle.ipdl_base.specs.Deferral.{defers_arrival, goodbye, mark, reply, request};
ghost use Rattle.ipdl_base.specs.Sound.{IsSound};
ghost use Rattle.history_reading.specs.EndReadings.{end_view};
ghost use Rattle.history_reading.specs.Readings.{reading_view};
ghost use Rattle.history_reading.specs.Still as the;
ghost use Rattle.history_reading.specs.Waits.{block_each_other, blocks};
ghost use Rattle.reading_checks.specs.Deferrals.{deferral_view};

use history_reading::{Call, CallFrame, CallStack, EndReading, PacketKind, Reading};
use ipdl_base::{EndState, Level, MessageRow, Schema, Semantics, Side, defers_request};
use nesting_core::Head;

/// Returns the head of a message with a number and a transaction.
fn head_of_row(row: &MessageRow, seq: i32, transaction: i32) -> Head
    ensures { result ≡ the.head_of_row seq transaction row.now }
{
    Head {
        sync: matches!(row.semantics, Semantics::Sync),
        level: row.level,
        seq,
        transaction,
    }
}

/// Returns the head of the message of a number, if there is such a message.
pub fn head_of(schema: &Schema, number: u32, seq: i32, transaction: i32) -> Option<Head>
    requires { IsSound schema.now }
    ensures { result ≡ the.head_of schema.now number seq transaction }
{
    match schema.message(number) {
        Some(row) => Some(head_of_row(row, seq, transaction)),
        None => None,
    }
}

/// Returns the head of a call, by its line.
fn call_head(schema: &Schema, call: &Call) -> Option<Head>
    requires { IsSound schema.now }
    ensures { result ≡ the.call_head schema.now call.now }
{
    head_of(schema, call.number, call.seq, call.transaction)
}

/// Returns the head of a request that the other end has sent.
pub fn request_head(schema: &Schema, other: &EndReading<'_>, n: i32) -> Option<Head>
    requires { IsSound schema.now }
    ensures { result ≡ the.request_head schema.now (end_view other.now) n }
{
    match other.sent.request(n) {
        Some(request) => head_of(schema, request.number, n, request.transaction),
        None => None,
    }
}

/// Returns the head of a frame: that of a wait by its own line, that of a dispatch by the request
/// of the other end.
fn frame_head(schema: &Schema, other: &EndReading<'_>, frame: &CallFrame) -> Option<Head>
    requires { IsSound schema.now }
    ensures { result ≡ the.frame_head schema.now (end_view other.now) frame.now }
{
    match frame {
        CallFrame::Dispatch(handled) => request_head(schema, other, handled.seq),
        CallFrame::Unanswered(call) | CallFrame::Answered(call) => call_head(schema, call),
    }
}

/// Returns the transaction of a sync message of level `InsideSync`.
fn inner_of_head(head: &Head) -> Option<i32>
    ensures { result ≡ the.inner_of_head head.now }
{
    if head.sync && head.level == Level::InsideSync {
        Some(head.transaction)
    } else {
        None
    }
}

/// Returns the transaction of a frame of a sync message of level `InsideSync`.
fn frame_inner(schema: &Schema, other: &EndReading<'_>, frame: &CallFrame) -> Option<i32>
    requires { IsSound schema.now }
    ensures { result ≡ the.frame_inner schema.now (end_view other.now) frame.now }
{
    match frame_head(schema, other, frame) {
        Some(head) => inner_of_head(&head),
        None => None,
    }
}

/// Returns the transaction of the last such frame.
fn inner_transaction(schema: &Schema, other: &EndReading<'_>, frames: &[CallFrame]) -> Option<i32>
    requires { IsSound schema.now }
    ensures { result ≡ the.inner_transaction schema.now (end_view other.now) (reverse frames.now) }
{
    for index in (0..frames.len()).rev() {
        let inner = frame_inner(schema, other, &frames[index]);
        if inner.is_some() {
            return inner;
        }
    }
    None
}

/// Returns the head of the call on top whose answer has not come.
fn awaited_head(schema: &Schema, stack: &CallStack) -> Option<Head>
    requires { IsSound schema.now }
    ensures { result ≡ the.awaited_head schema.now stack.now }
{
    match stack.top() {
        Some(CallFrame::Unanswered(call)) => call_head(schema, &call),
        _ => None,
    }
}

/// Returns the level of that call.
fn awaited_level(schema: &Schema, stack: &CallStack) -> Option<Level>
    requires { IsSound schema.now }
    ensures { result ≡ the.awaited_level schema.now stack.now }
{
    match awaited_head(schema, stack) {
        Some(head) => Some(head.level),
        None => None,
    }
}

/// What decides deferral at an end: its side, the level of the call whose answer it awaits, and its
/// inner transaction.
#[derive(Clone, Copy)]
pub struct DeferralState {
    side: Side,
    level: Option<Level>,
    inner: Option<i32>,
}

/// Returns what decides deferral at an end.
pub fn deferral_of(
    schema: &Schema,
    side: Side,
    own: &EndReading<'_>,
    other: &EndReading<'_>,
) -> DeferralState
    requires { IsSound schema.now }
    ensures { deferral_view result ≡ the.deferral_of schema.now side (end_view own.now) (end_view other.now) }
{
    DeferralState {
        side,
        level: awaited_level(schema, &own.stack),
        inner: inner_transaction(schema, other, own.stack.outward()),
    }
}

/// Whether a request is deferred. A request without a known head is not.
fn defers_head(deferral: &DeferralState, head: Option<Head>) -> bool
    ensures { result ≡ the.defers_request_head (deferral_view deferral.now) head }
{
    match (deferral.level, head) {
        (Some(level), Some(head)) => defers_request(
            deferral.side,
            level,
            deferral.inner,
            head.sync,
            head.level,
            head.transaction,
        ),
        _ => false,
    }
}

/// Whether a packet that has arrived is deferred.
pub fn defers_packet(
    schema: &Schema,
    other: &EndReading<'_>,
    deferral: &DeferralState,
    packet: PacketKind,
) -> bool
    requires { IsSound schema.now }
    ensures { result ≡ the.defers_packet schema.now (end_view other.now) (deferral_view deferral.now) packet }
{
    match packet {
        PacketKind::Request(n) => defers_head(deferral, request_head(schema, other, n)),
        PacketKind::Reply(_) => deferral.level.is_some(),
        PacketKind::Goodbye | PacketKind::Broken => false,
    }
}

/// Whether some packet is not deferred.
fn some_is_free(
    schema: &Schema,
    other: &EndReading<'_>,
    deferral: &DeferralState,
    packets: &[PacketKind],
) -> bool
    requires { IsSound schema.now }
    ensures { result ≡ the.some_is_free schema.now (end_view other.now) (deferral_view deferral.now) packets.now }
{
    packets
        .iter()
        .any(|packet| !defers_packet(schema, other, deferral, *packet))
}

/// Whether an end takes what has arrived.
fn takes_items(state: EndState) -> bool
    ensures { result ≡ the.takes_items state }
{
    matches!(state, EndState::Open | EndState::Draining)
}

/// Whether an end is open.
fn is_open(state: EndState) -> bool
    ensures { result ≡ the.is_open state }
{
    matches!(state, EndState::Open)
}

/// Whether a packet can be delivered.
fn can_deliver(own: &EndReading<'_>, other: &EndReading<'_>) -> bool
    ensures { result ≡ the.can_deliver (end_view own.now) (end_view other.now) }
{
    is_open(own.state) && own.delivered.len() < other.sent.as_slice().len()
}

/// Whether nothing is on top except a wait that is not answered.
fn can_take_now(stack: &CallStack) -> bool
    ensures { result ≡ the.can_take_now stack.now }
{
    match stack.top() {
        None | Some(CallFrame::Unanswered(_)) => true,
        Some(CallFrame::Dispatch(_) | CallFrame::Answered(_)) => false,
    }
}

/// Whether some packet that has arrived can be taken.
fn can_take(schema: &Schema, side: Side, own: &EndReading<'_>, other: &EndReading<'_>) -> bool
    requires { IsSound schema.now }
    ensures { result ≡ the.can_take schema.now side (end_view own.now) (end_view other.now) }
{
    if !takes_items(own.state) {
        return false;
    }
    let deferral = deferral_of(schema, side, own, other);
    some_is_free(schema, other, &deferral, own.arrived.as_slice())
}

/// Whether nothing but acts is possible at an end.
fn is_still_at(schema: &Schema, side: Side, own: &EndReading<'_>, other: &EndReading<'_>) -> bool
    requires { IsSound schema.now }
    ensures { result ≡ the.is_still_at schema.now side (end_view own.now) (end_view other.now) }
{
    if can_deliver(own, other) || !can_take_now(&own.stack) {
        return false;
    }
    !can_take(schema, side, own, other)
}

/// Whether nothing but acts is possible.
pub fn is_still(schema: &Schema, reading: &Reading<'_>) -> bool
    requires { IsSound schema.now }
    ensures { result ≡ the.is_still schema.now (reading_view reading.now) }
{
    is_still_at(schema, Side::Parent, &reading.parent, &reading.child)
        && is_still_at(schema, Side::Child, &reading.child, &reading.parent)
}

/// Whether an end that waits defers what the other waits for.
fn blocks(schema: &Schema, side: Side, own: &EndReading<'_>, other: &EndReading<'_>) -> bool
    requires { IsSound schema.now }
    ensures { result ≡ blocks schema.now side (end_view own.now) (end_view other.now) }
{
    let deferral = deferral_of(schema, side, own, other);
    defers_head(&deferral, awaited_head(schema, &other.stack))
}

/// Whether each end defers what the other waits for.
pub fn block_each_other(schema: &Schema, reading: &Reading<'_>) -> bool
    requires { IsSound schema.now }
    ensures { result ≡ block_each_other schema.now (end_view reading.now.parent) (end_view reading.now.child) }
{
    blocks(schema, Side::Parent, &reading.parent, &reading.child)
        && blocks(schema, Side::Child, &reading.child, &reading.parent)
}
