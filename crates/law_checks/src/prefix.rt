//! The law Prefix: deliveries are a prefix of what was sent.
ghost use Rattle.std.specs.Prelude.{◌≡◌};
ghost use Rattle.ipdl_base.specs.Sound.{IsSound};
ghost use Rattle.history_reading.specs.EndReadings.{end_view};
ghost use Rattle.history_reading.specs.Views.{request_view, sent_view, packet_view};
ghost use Rattle.history_reading.specs.Numbers.{has_packet};
ghost use Rattle.history_reading.specs.Prefix as the;
ghost use Rattle.history_reading.specs.SentPacket.{packet_kind};

use history_reading::{EndReading, PacketKind, Request, SentPacket, is_nulled};
use ipdl_base::{Schema, Values, What, params_of};

/// Returns what a delivery shows of a packet.
fn packet_kind(told: &SentPacket<'_>) -> PacketKind
    ensures { result ≡ packet_kind (packet_view told.now) }
{
    match told {
        SentPacket::Request(request) => PacketKind::Request(request.seq),
        SentPacket::Reply(n, _) => PacketKind::Reply(*n),
        SentPacket::Goodbye => PacketKind::Goodbye,
        SentPacket::Broken => PacketKind::Broken,
    }
}

/// Whether a packet is among those that are shown.
fn has_packet(packets: &[PacketKind], packet: PacketKind) -> bool
    ensures { result ≡ has_packet packets.now packet }
{
    packets.iter().any(|other| other.same(&packet))
}

/// Whether a packet is the next of those that were sent, after `count` of them.
fn is_next_of(sent: &[SentPacket<'_>], count: usize, packet: PacketKind) -> bool
    ensures { result ≡ the.is_next_of (sent_view sent.now) count packet }
{
    match sent.get(count) {
        Some(told) => packet_kind(told).same(&packet),
        None => false,
    }
}

/// Whether a packet is the next of those that the other end has sent.
fn is_next(own: &EndReading<'_>, other: &EndReading<'_>, packet: PacketKind) -> bool
    ensures { result ≡ the.is_next packet (end_view own.now) (end_view other.now) }
{
    is_next_of(other.sent.as_slice(), own.delivered.len(), packet)
}

/// Whether a request was delivered, and has neither been replaced nor taken or dropped.
fn is_there(own: &EndReading<'_>, n: i32) -> bool
    ensures { result ≡ the.is_there (end_view own.now) n }
{
    has_packet(own.delivered.as_slice(), PacketKind::Request(n))
        && !own.replaced.has(n)
        && !own.gone.has(n)
}

/// Whether a request goes to this actor, and is of this message.
fn is_for(request: &Request<'_>, route: i32, number: u32) -> bool
    ensures { result ≡ the.is_for route number (request_view request.now) }
{
    request.route == route && request.number == number
}

/// Whether the other end's request of a number goes to this actor, is of this message, and has these
/// values, in which dead actors are null.
fn was_sent_with(
    schema: &Schema,
    own: &EndReading<'_>,
    other: &EndReading<'_>,
    n: i32,
    route: i32,
    number: u32,
    values: &Values,
) -> bool
    requires { IsSound schema.now }
    ensures { result ≡ the.was_sent_with schema.now (end_view own.now) (end_view other.now) n route number values.now }
{
    match other.sent.request(n) {
        Some(request) => {
            let params = params_of(schema, number);
            is_for(&request, route, number)
                && is_nulled(schema, own, params, request.values, values)
        }
        None => false,
    }
}

/// Whether the other end's request of a number goes to this actor, and is of this message.
fn was_sent(other: &EndReading<'_>, n: i32, route: i32, number: u32) -> bool
    ensures { result ≡ the.was_sent (end_view other.now) n route number }
{
    match other.sent.request(n) {
        Some(request) => is_for(&request, route, number),
        None => false,
    }
}

/// Whether a reply was delivered, and has not been taken.
fn is_reply_there(own: &EndReading<'_>, n: i32) -> bool
    ensures { result ≡ the.is_reply_there (end_view own.now) n }
{
    has_packet(own.delivered.as_slice(), PacketKind::Reply(n)) && !own.replies.has(n)
}

/// Whether a line obeys the law.
pub fn prefix_line(
    schema: &Schema,
    own: &EndReading<'_>,
    other: &EndReading<'_>,
    what: &What,
) -> bool
    requires { IsSound schema.now }
    ensures { result ≡ the.prefix_line schema.now (end_view own.now) (end_view other.now) what.now }
{
    match what {
        What::DeliverRequest(n) => is_next(own, other, PacketKind::Request(*n)),
        What::DeliverReply(n) => is_next(own, other, PacketKind::Reply(*n)),
        What::DeliverGoodbye => is_next(own, other, PacketKind::Goodbye),
        What::DeliverBroken => is_next(own, other, PacketKind::Broken),
        What::Take(n, route, number, values) => {
            is_there(own, *n) && was_sent_with(schema, own, other, *n, *route, *number, values)
        }
        What::Drop(n, route, number, _) => {
            is_there(own, *n) && was_sent(other, *n, *route, *number)
        }
        What::TakeReply(n) => is_reply_there(own, *n),
        _ => true,
    }
}
